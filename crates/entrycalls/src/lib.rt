// The exported functions called on stored calls: each reads the buffers that it is lent, and prints what it says and the buffers as they
// are left.
#![tactic(auto)]

pub mod lent;

use calltext::scan::Stored;
use lent::{ANSWER, Asked, BUFFERS, Lent, print};
use std::io;
use told::Point;

pub fn next_halfedge(rt: &impl Print, asked: &Asked) -> io::Result<()> {
    let [halfedge, ..] = asked.numbers;
    let told = station::spoonferret_next_halfedge(halfedge);
    print(rt, &mut [0u8; ANSWER], |page| {
        answertext::next(page, b"next_halfedge", told.number, told.next)
    })
}

pub fn tri_of(rt: &impl Print, asked: &Asked) -> io::Result<()> {
    let [halfedge, ..] = asked.numbers;
    let told = station::spoonferret_tri_of(halfedge);
    print(rt, &mut [0u8; ANSWER], |page| {
        answertext::corners(
            page,
            b"tri_of",
            told.number,
            told.first,
            told.second,
            told.third,
        )
    })
}

fn point(x: u64, y: u64, z: u64) -> Point {
    Point {
        x: floats::float_of(x),
        y: floats::float_of(y),
        z: floats::float_of(z),
    }
}

pub fn short_test(rt: &impl Print, asked: &Asked) -> io::Result<()> {
    let [end_vert, first_new_vert, ..] = asked.numbers;
    let [x, y, z, to_x, to_y, to_z, tol, epsilon, ..] = asked.floats;
    let told = station::spoonferret_short_test(
        point(x, y, z),
        point(to_x, to_y, to_z),
        end_vert,
        first_new_vert,
        floats::float_of(tol),
        floats::float_of(epsilon),
    );
    print(rt, &mut [0u8; ANSWER], |page| {
        answertext::lengths(
            page,
            b"short_test",
            told.number,
            told.squared_length,
            told.limit,
        )
    })
}

// An answer with a row.
fn print_row(rt: &impl Print, entry: &[u8], number: u32, row: usize) -> io::Result<()> {
    print(
        rt,
        &mut [0u8; ANSWER],
        |page| answertext::row(page, entry, number, row),
    )
}

pub fn check_net(rt: &impl Print, net: &mut Lent) -> io::Result<()> {
    let (used, halfedges, positions, normals, references, properties) = net.parts();
    let told = station::spoonferret_check_net(
        used, halfedges, positions, normals, references, properties,
    );
    print_row(rt, b"check_net", told.number, told.row)
}

pub fn pair_up(rt: &impl Print, net: &mut Lent, asked: &Asked) -> io::Result<()> {
    let (used, halfedges, positions, normals, references, properties) = net.parts();
    let [first, second, ..] = asked.numbers;
    let told = station::spoonferret_pair_up(
        used, halfedges, positions, normals, references, properties, first, second,
    );
    print(rt, &mut [0u8; ANSWER], |page| {
        answertext::answer(page, b"pair_up", told.number)
    })
}

pub fn update_vert(rt: &impl Print, net: &mut Lent, asked: &Asked) -> io::Result<()> {
    let (used, halfedges, positions, normals, references, properties) = net.parts();
    let [vertex, start, end, ..] = asked.numbers;
    let told = station::spoonferret_update_vert(
        used, halfedges, positions, normals, references, properties, vertex, start, end,
    );
    print_row(rt, b"update_vert", told.number, told.row)
}

pub fn collapse_tri(rt: &impl Print, net: &mut Lent, asked: &Asked) -> io::Result<()> {
    let (used, halfedges, positions, normals, references, properties) = net.parts();
    let [halfedge, ..] = asked.numbers;
    let told = station::spoonferret_collapse_tri(
        used, halfedges, positions, normals, references, properties, halfedge,
    );
    print_row(rt, b"collapse_tri", told.number, told.row)
}

pub fn remove_if_folded(rt: &impl Print, net: &mut Lent, asked: &Asked) -> io::Result<()> {
    let (used, halfedges, positions, normals, references, properties) = net.parts();
    let [halfedge, ..] = asked.numbers;
    let told = station::spoonferret_remove_if_folded(
        used, halfedges, positions, normals, references, properties, halfedge,
    );
    print_row(rt, b"remove_if_folded", told.number, told.row)
}

pub fn split_pinched_verts(rt: &impl Print, stored: &mut Stored, net: &mut Lent) -> io::Result<()> {
    let mut work = [0u32; 512];
    let mut visit = [0u32; 512];
    let mut out = [0u8; BUFFERS];
    let read = stored.list(&mut work);
    let work = &mut work[..read];
    let read = stored.list(&mut visit);
    let visit = &mut visit[..read];
    let (used, halfedges, positions, normals, references, properties) = net.parts();
    let told = station::spoonferret_split_pinched_verts(
        used, halfedges, positions, normals, references, properties, work, visit,
    );
    print(rt, &mut [0u8; ANSWER], |page| {
        answertext::split(
            page,
            b"split_pinched_verts",
            told.number,
            told.row,
            told.added,
            told.steps,
        )
    })?;
    print(rt, &mut out, |page| answertext::visits(page, work, visit))
}

pub fn orbit_owners(
    rt: &impl Print,
    stored: &mut Stored,
    net: &mut Lent,
    asked: &Asked,
) -> io::Result<()> {
    let mut work = [0u8; 512];
    let mut list = [0u32; 512];
    let mut out = [0u8; BUFFERS];
    let read = stored.list(&mut work);
    let work = &mut work[..read];
    let read = stored.list(&mut list);
    let list = &mut list[..read];
    let (used, halfedges, positions, normals, references, properties) = net.parts();
    let told = station::spoonferret_orbit_owners(
        used,
        halfedges,
        positions,
        normals,
        references,
        properties,
        work,
        list,
        asked.choice,
    );
    print(rt, &mut [0u8; ANSWER], |page| {
        answertext::owners(page, b"orbit_owners", told.number, told.count)
    })?;
    print(rt, &mut out, |page| answertext::buffers(page, work, list))
}

pub fn form_loop(
    rt: &impl Print,
    stored: &mut Stored,
    net: &mut Lent,
    asked: &Asked,
) -> io::Result<()> {
    let mut spare_halfedges = [0i32; 1024];
    let mut spare_positions = [0u64; 512];
    let read = stored.list(&mut spare_halfedges);
    let spare_halfedges = &mut spare_halfedges[..read];
    let read = stored.list(&mut spare_positions);
    let spare_positions = &mut spare_positions[..read];
    let (used, halfedges, positions, normals, references, properties) = net.parts();
    let [first, second, ..] = asked.numbers;
    let told = station::spoonferret_form_loop(
        used,
        halfedges,
        positions,
        normals,
        references,
        properties,
        spare_halfedges,
        spare_positions,
        first,
        second,
    );
    print(rt, &mut [0u8; ANSWER], |page| {
        answertext::vertices(page, b"form_loop", told.number, told.row, told.vertices)
    })?;
    print_spares(rt, spare_halfedges, spare_positions)
}

// The spares as a call leaves them.
pub fn print_spares(
    rt: &impl Print,
    spare_halfedges: &[i32],
    spare_positions: &[u64],
) -> io::Result<()> {
    print(rt, &mut [0u8; BUFFERS], |page| {
        answertext::spares(page, spare_halfedges, spare_positions)
    })
}
