// What the report program does with a file: it reads a mesh file of form 1, splits its pinched vertices, and puts the text of the
// report into a buffer: the answer, the vertices added, the steps, the visit list and the euler number; of a refusal the answer, with its
// row or line.
#![tactic(auto)]

ghost use Rattle.std.specs.Prelude.{◌≡◌, ◌*◌, ◌≤◌, length};
ghost use Rattle.rows.specs.Halfedges.{lent_halfedges};
ghost use Rattle.splitcleared.specs.Answer.{split_said};
ghost use Rattle.texts.specs.Appended.{Appended};
ghost use Rattle.splitfile.specs.Printed.{outcome_of, refused, vertices_after, split_with, text_after, report_of, printed};

use meshfile::{MeshError, Size};
use net::Counts;
use refused::Refusal;
use report::{Mesh, Outcome};
use rows::halfedges::WIDTH;
use splitting::Visited;

// What is reported of the split's answer.
fn outcome_of(answer: Result<Visited, Refusal>) -> Outcome
    ensures { result ≡ outcome_of (split_said answer) }
{
    match answer {
        Ok(visited) => Outcome::Done(visited.added, visited.steps),
        Err(Refusal::Unsound(h)) => Outcome::Unsound(h.number()),
        Err(refusal) => Outcome::Refused(refusal.number() as usize),
    }
}

// What is reported of a file that is refused.
fn refused(error: MeshError) -> Outcome
    ensures { result ≡ refused error }
{
    match error {
        MeshError::TooLarge => Outcome::Refused(1),
        MeshError::BadLine(line) => Outcome::BadFile(line),
    }
}

// Vertex rows after the split.
fn vertices_after(vertices: usize, outcome: Outcome) -> usize
    requires { vertices_after vertices outcome ≤ 1000000 }
    ensures { result ≡ vertices_after vertices outcome }
{
    match outcome {
        Outcome::Done(added, _) => vertices + added,
        Outcome::Refused(_) | Outcome::Unsound(_) | Outcome::BadFile(_) => vertices,
    }
}

// Splits the net that was read, over 256 vertex rows, and puts the report.
fn split_net(out: &mut [u8], halfedges: &mut [i32], positions: &mut [u64], size: Size) -> usize
    requires room { 20000 ≤ length out.old }
    requires vertices { size.vertices ≤ 256 }
    requires triangles { size.triangles ≤ 256 }
    requires rows { 3 * size.triangles ≤ lent_halfedges halfedges.old }
    ensures appended { Appended out.old 0 (text_after size.vertices size.triangles (split_with size.vertices size.triangles halfedges.old positions.old)) out.new result }
    ensures within { result ≤ 20000 }
{
    let mut work = [0u32; 1024];
    let mut visit = [0u32; 768];
    let normals = [0u64; 1];
    let references = [0i32; 1];
    let properties = [0u64; 1];
    let counts = Counts {
        halfedges: 3 * size.triangles,
        vertices: size.vertices,
        normals: 0,
        references: 0,
        properties: 0,
        num_prop: 0,
    };
    let answer = split::split_pinched_verts(
        counts,
        halfedges,
        positions,
        &normals,
        &references,
        &properties,
        &mut work,
        &mut visit,
    );
    let outcome = outcome_of(answer);
    let mesh = Mesh {
        vertices: vertices_after(size.vertices, outcome),
        triangles: size.triangles,
        rows: halfedges,
    };
    report::report(out, outcome, &visit, &mesh)
}

// Reads a file, splits it and puts the report at the front of the buffer; how many bytes that has.
pub fn split_file(text: &[u8], out: &mut [u8; 20000]) -> usize
    ensures { (result, out.new) ≡ printed (report_of text.now) out.old }
{
    let mut halfedges = [0i32; 768 * WIDTH];
    let mut positions = [0u64; 768];
    let nothing = Mesh {
        vertices: 0,
        triangles: 0,
        rows: &[],
    };
    match meshfile::read(text, &mut halfedges, &mut positions) {
        Err(error) => report::report(out, refused(error), &[], &nothing),
        Ok(size) => split_net(out, &mut halfedges, &mut positions, size),
    }
}
