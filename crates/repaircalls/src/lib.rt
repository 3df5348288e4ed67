// The exported functions that repair a net, called on stored calls: each reads the buffers that it is lent, and prints what it says and the
// buffers as they are left.
#![tactic(auto)]

use calltext::scan::Stored;
use entrycalls::lent::{ANSWER, Asked, BUFFERS, Lent, print};
use entrycalls::print_spares;
use repairtold::{CleanupTopologyAnswer, DedupeEdgeAnswer, DedupeEdgesAnswer};
use std::io;
use told::Used;

// An answer with a row and the counts in use.
#[derive(Clone, Copy)]
struct Grown {
    number: u32,
    row: usize,
    halfedges: usize,
    vertices: usize,
}

impl From<DedupeEdgeAnswer> for Grown {
    fn from(told: DedupeEdgeAnswer) -> Grown {
        Grown {
            number: told.number,
            row: told.row,
            halfedges: told.halfedges,
            vertices: told.vertices,
        }
    }
}

impl From<DedupeEdgesAnswer> for Grown {
    fn from(told: DedupeEdgesAnswer) -> Grown {
        Grown {
            number: told.number,
            row: told.row,
            halfedges: told.halfedges,
            vertices: told.vertices,
        }
    }
}

impl From<CleanupTopologyAnswer> for Grown {
    fn from(told: CleanupTopologyAnswer) -> Grown {
        Grown {
            number: told.number,
            row: told.row,
            halfedges: told.halfedges,
            vertices: told.vertices,
        }
    }
}

fn print_grown(rt: &impl Print, entry: &[u8], told: Grown) -> io::Result<()> {
    print(rt, &mut [0u8; ANSWER], |page| {
        answertext::grown(
            page,
            entry,
            told.number,
            told.row,
            told.halfedges,
            told.vertices,
        )
    })
}

pub fn dedupe_edge(
    rt: &impl Print,
    stored: &mut Stored,
    net: &mut Lent,
    asked: &Asked,
) -> io::Result<()> {
    let mut spare_halfedges = [0i32; 512];
    let mut spare_positions = [0u64; 256];
    let read = stored.list(&mut spare_halfedges);
    let spare_halfedges = &mut spare_halfedges[..read];
    let read = stored.list(&mut spare_positions);
    let spare_positions = &mut spare_positions[..read];
    let (used, halfedges, positions, normals, references, properties) = net.parts();
    let [halfedge, ..] = asked.numbers;
    let told = station::spoonferret_dedupe_edge(
        used,
        halfedges,
        positions,
        normals,
        references,
        properties,
        spare_halfedges,
        spare_positions,
        halfedge,
    );
    print_grown(rt, b"dedupe_edge", Grown::from(told))?;
    print_spares(rt, spare_halfedges, spare_positions)
}

// An entry that works on the whole net, with spares, a work buffer and a list.
fn repair<A, F>(
    rt: &impl Print,
    stored: &mut Stored,
    net: &mut Lent,
    entry: &[u8],
    call: F,
) -> io::Result<()>
where
    A: Into<Grown>,
    F: FnOnce(
        Used,
        &mut [i32],
        &mut [u64],
        &mut [u64],
        &mut [i32],
        &[u64],
        &mut [i32],
        &mut [u64],
        &mut [u32],
        &mut [u32],
    ) -> A,
    requires { F.IsAlwaysCallable call }
{
    let mut spare_halfedges = [0i32; 512];
    let mut spare_positions = [0u64; 256];
    let mut work = [0u32; 512];
    let mut list = [0u32; 512];
    let mut out = [0u8; BUFFERS];
    let read = stored.list(&mut spare_halfedges);
    let spare_halfedges = &mut spare_halfedges[..read];
    let read = stored.list(&mut spare_positions);
    let spare_positions = &mut spare_positions[..read];
    let read = stored.list(&mut work);
    let work = &mut work[..read];
    let read = stored.list(&mut list);
    let list = &mut list[..read];
    let (used, halfedges, positions, normals, references, properties) = net.parts();
    let told = call(
        used,
        halfedges,
        positions,
        normals,
        references,
        properties,
        spare_halfedges,
        spare_positions,
        work,
        list,
    );
    print_grown(rt, entry, told.into())?;
    print_spares(rt, spare_halfedges, spare_positions)?;
    print(rt, &mut out, |page| answertext::buffers(page, work, list))
}

pub fn dedupe_edges(rt: &impl Print, stored: &mut Stored, net: &mut Lent) -> io::Result<()> {
    repair(
        rt,
        stored,
        net,
        b"dedupe_edges",
        station::spoonferret_dedupe_edges,
    )
}

pub fn cleanup_topology(rt: &impl Print, stored: &mut Stored, net: &mut Lent) -> io::Result<()> {
    repair(
        rt,
        stored,
        net,
        b"cleanup_topology",
        station::spoonferret_cleanup_topology,
    )
}

pub fn collapse_edge(
    rt: &impl Print,
    stored: &mut Stored,
    net: &mut Lent,
    asked: &Asked,
) -> io::Result<()> {
    let mut spare_halfedges = [0i32; 512];
    let mut spare_positions = [0u64; 256];
    let mut list = [0u32; 512];
    let mut out = [0u8; BUFFERS];
    let read = stored.list(&mut spare_halfedges);
    let spare_halfedges = &mut spare_halfedges[..read];
    let read = stored.list(&mut spare_positions);
    let spare_positions = &mut spare_positions[..read];
    let read = stored.list(&mut list);
    let list = &mut list[..read];
    let (used, halfedges, positions, normals, references, properties) = net.parts();
    let [halfedge, first_new_vert, ..] = asked.numbers;
    let [tol, epsilon, ..] = asked.floats;
    let told = station::spoonferret_collapse_edge(
        used,
        halfedges,
        positions,
        normals,
        references,
        properties,
        spare_halfedges,
        spare_positions,
        list,
        halfedge,
        first_new_vert,
        floats::float_of(tol),
        floats::float_of(epsilon),
    );
    print(rt, &mut [0u8; ANSWER], |page| {
        answertext::collapsed(
            page,
            b"collapse_edge",
            told.number,
            told.row,
            told.vertices,
            told.squared_length,
            told.limit,
        )
    })?;
    print_spares(rt, spare_halfedges, spare_positions)?;
    print(rt, &mut out, |page| page.list(b"list", list))
}
