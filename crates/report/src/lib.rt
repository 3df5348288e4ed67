// The text of a report, put at the front of a lent buffer: the answer, and what comes with it.
#![tactic(auto)]

ghost use Rattle.std.specs.Prelude.{◌≡◌, [], ◌∷◌, ◌++◌, ◌+◌, ◌*◌, ◌<◌, ◌≤◌, length};
ghost use Rattle.digits.specs.Written.{comma, decimal, signed};
ghost use Rattle.rows.specs.Halfedges.{is_paired, lent_halfedges};
ghost use Rattle.texts.specs.Appended.{Appended, line};
ghost use Rattle.texts.specs.Grows.{HasRoom, Grows};
ghost use Rattle.report.specs.Report.{Listed, answer_word, visit_word, euler_word, commas, live_halfedges, live_triangles, euler, done_text, text_of};

use texts::Text;

// What is reported: added and steps, an answer, the least row that is not in order, or the first bad line.
#[derive(Clone, Copy)]
pub enum Outcome {
    Done(usize, usize),
    Refused(usize),
    Unsound(usize),
    BadFile(usize),
}

// What the euler number is of: vertex rows, triangles, and the half-edge rows.
#[derive(Clone, Copy)]
pub struct Mesh<'a> {
    pub vertices: usize,
    pub triangles: usize,
    pub rows: &'a [i32],
    ghost vertices_few: { vertices ≤ 1000000 },
    ghost triangles_few: { triangles ≤ 1000000 },
    ghost rows_lent: { 3 * triangles ≤ lent_halfedges rows.now },
}

// Puts a comma and a number.
fn put_next(text: &mut Text, n: u64)
    requires { HasRoom text.old ((comma ∷ []) ++ decimal n) }
    ensures { Grows text.old ((comma ∷ []) ++ decimal n) text.new }
{
    text.put_bytes(b",");
    text.put_number(n);
}

// Puts the numbers of a visit list, separated by commas.
fn put_visit(text: &mut Text, visit: &[u32])
    requires { HasRoom text.old (commas visit.now) }
    ensures { Grows text.old (commas visit.now) text.new }
{
    let Some((first, others)) = visit.split_first() else {
        return;
    };
    text.put_number(u64::from(*first));
    for n in others {
        put_next(text, u64::from(*n));
    }
}

// Puts the line of the visit list.
fn put_visit_line(text: &mut Text, visit: &[u32])
    requires { HasRoom text.old (line visit_word (commas visit.now)) }
    ensures { Grows text.old (line visit_word (commas visit.now)) text.new }
{
    text.put_bytes(b"visit=");
    put_visit(text, visit);
    text.put_bytes(b"\n");
}

// Half-edge i has a partner.
fn is_live(rows: &[i32], i: usize) -> bool
    requires { i < lent_halfedges rows.now }
    ensures { result ≡ is_paired rows.now i }
{
    edgetests::is_paired(rows, numbers::halfedge_counted(i))
}

// How many of the first n half-edges are live.
fn live_halfedges(rows: &[i32], n: usize) -> usize
    requires { n ≤ lent_halfedges rows.now }
    ensures { result ≡ live_halfedges rows.now n }
{
    (0..n)
        .filter(
            |h|
                requires { h.now < lent_halfedges rows.now }
            { is_live(rows, *h) },
        )
        .count()
}

// How many of the first n triangles are live.
fn live_triangles(rows: &[i32], n: usize) -> usize
    requires { 3 * n ≤ lent_halfedges rows.now }
    ensures { result ≡ live_triangles rows.now n }
{
    (0..n)
        .filter(
            |t|
                requires { 3 * t.now + 2 < lent_halfedges rows.now }
            {
                let h = 3 * *t;
                is_live(rows, h) & is_live(rows, h + 1) & is_live(rows, h + 2)
            },
        )
        .count()
}

// Puts the line of the euler number.
fn put_euler_line(text: &mut Text, mesh: &Mesh)
    requires { HasRoom text.old (line euler_word (signed (euler mesh.now.vertices mesh.now.triangles mesh.now.rows.now))) }
    ensures { Grows text.old (line euler_word (signed (euler mesh.now.vertices mesh.now.triangles mesh.now.rows.now))) text.new }
{
    let more = mesh.vertices + live_triangles(mesh.rows, mesh.triangles);
    let less = live_halfedges(mesh.rows, 3 * mesh.triangles) / 2;
    text.put_bytes(b"euler=");
    text.put_difference(more, less);
    text.put_bytes(b"\n");
}

// Puts the lines of a split that was done.
fn put_done(text: &mut Text, added: usize, visit: &[u32], mesh: &Mesh)
    requires { HasRoom text.old (done_text added visit.now (euler mesh.now.vertices mesh.now.triangles mesh.now.rows.now)) }
    ensures { Grows text.old (done_text added visit.now (euler mesh.now.vertices mesh.now.triangles mesh.now.rows.now)) text.new }
{
    text.put_line(b"answer=", 0);
    text.put_line(b"added=", added);
    text.put_line(b"steps=", visit.len());
    put_visit_line(text, visit);
    put_euler_line(text, mesh);
}

// Puts the lines of a refusal.
fn put_refused(text: &mut Text, answer: usize, word: &[u8], value: usize)
    requires { HasRoom text.old (line answer_word (decimal answer) ++ line word.now (decimal value)) }
    ensures { Grows text.old (line answer_word (decimal answer) ++ line word.now (decimal value)) text.new }
{
    text.put_line(b"answer=", answer);
    text.put_line(word, value);
}

// Puts a whole report.
fn put_report(text: &mut Text, outcome: Outcome, visit: &[u32], mesh: &Mesh)
    requires room { text.old.used + 20000 ≤ length text.old.out.now }
    requires listed { Listed outcome visit.now }
    ensures grows { Grows text.old (text_of outcome visit.now (euler mesh.now.vertices mesh.now.triangles mesh.now.rows.now)) text.new }
    ensures within { text.new.used ≤ text.old.used + 20000 }
{
    match outcome {
        Outcome::Done(added, steps) => put_done(text, added, &visit[..steps], mesh),
        Outcome::Refused(answer) => text.put_line(b"answer=", answer),
        Outcome::Unsound(row) => put_refused(text, 3, b"row=", row),
        Outcome::BadFile(number) => put_refused(text, 11, b"line=", number),
    }
}

// Puts a whole report at the front of the buffer; how many bytes it has.
pub fn report(out: &mut [u8], outcome: Outcome, visit: &[u32], mesh: &Mesh) -> usize
    requires room { 20000 ≤ length out.old }
    requires listed { Listed outcome visit.now }
    ensures appended { Appended out.old 0 (text_of outcome visit.now (euler mesh.now.vertices mesh.now.triangles mesh.now.rows.now)) out.new result }
    ensures within { result ≤ 20000 }
{
    let mut text = Text { out, used: 0 };
    put_report(&mut text, outcome, visit, mesh);
    text.used
}
