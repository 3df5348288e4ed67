// Replays stored calls: reads nets and operations from the files that its arguments name, calls the exported functions on them, and
// writes what each says and leaves. Its stored output is what the original Rust gave, or a second reading of document 01 where
// the Rust has no answer (compare/README.md says how both are made).
//
// A file is text. Only its numbers are read, words and signs beside them are for people. A call is the entry's number, then
// lists, each as its length and its numbers: counts, half-edges, positions, normals, references, properties, numbers asked, floats
// asked; then the choice; then a list for each buffer that the entry takes.
#![tactic(auto)]

mod entry;

use calltext::scan::{self, Stored};
use entry::Entry;
use entrycalls::lent::{Asked, BUFFERS, Lent, print};
use std::rt::Files;
use std::{env, fs, io};
use told::Used;

fn used_of(counts: &[u64; 6]) -> Used {
    Used {
        halfedges: counts[0] as usize,
        vertices: counts[1] as usize,
        normals: counts[2] as usize,
        references: counts[3] as usize,
        properties: counts[4] as usize,
        num_prop: counts[5] as usize,
    }
}

// The entry, with the buffers that follow where it takes some.
fn run(
    rt: &impl Print,
    entry: Entry,
    stored: &mut Stored,
    net: &mut Lent,
    asked: &Asked,
) -> io::Result<()> {
    match entry {
        Entry::NextHalfedge => entrycalls::next_halfedge(rt, asked),
        Entry::TriOf => entrycalls::tri_of(rt, asked),
        Entry::ShortTest => entrycalls::short_test(rt, asked),
        Entry::CheckNet => entrycalls::check_net(rt, net),
        Entry::PairUp => entrycalls::pair_up(rt, net, asked),
        Entry::SplitPinchedVerts => entrycalls::split_pinched_verts(rt, stored, net),
        Entry::OrbitOwners => entrycalls::orbit_owners(rt, stored, net, asked),
        Entry::UpdateVert => entrycalls::update_vert(rt, net, asked),
        Entry::CollapseTri => entrycalls::collapse_tri(rt, net, asked),
        Entry::RemoveIfFolded => entrycalls::remove_if_folded(rt, net, asked),
        Entry::FormLoop => entrycalls::form_loop(rt, stored, net, asked),
        Entry::DedupeEdge => repaircalls::dedupe_edge(rt, stored, net, asked),
        Entry::DedupeEdges => repaircalls::dedupe_edges(rt, stored, net),
        Entry::CleanupTopology => repaircalls::cleanup_topology(rt, stored, net),
        Entry::CollapseEdge => repaircalls::collapse_edge(rt, stored, net, asked),
    }
}

// The arrays as a call leaves them.
fn leave(rt: &impl Print, net: &mut Lent) -> io::Result<()> {
    let (_, halfedges, positions, normals, references, properties) = net.parts();
    print(rt, &mut [0u8; BUFFERS], |page| {
        answertext::arrays(page, halfedges, positions, normals, references, properties)
    })
}

// One call, and the arrays as it leaves them where it works on a net.
fn call(rt: &impl Print, stored: &mut Stored) -> io::Result<()> {
    let entry = Entry::from(stored.number().magnitude);
    let mut counts = [0u64; 6];
    let mut halfedges = [0i32; 1024];
    let mut positions = [0u64; 512];
    let mut normals = [0u64; 512];
    let mut references = [0i32; 512];
    let mut properties = [0u64; 512];
    let mut numbers = [0i32; 8];
    let mut floats = [0u64; 12];
    stored.list(&mut counts);
    let read = stored.list(&mut halfedges);
    let halfedges = &mut halfedges[..read];
    let read = stored.list(&mut positions);
    let positions = &mut positions[..read];
    let read = stored.list(&mut normals);
    let normals = &mut normals[..read];
    let read = stored.list(&mut references);
    let references = &mut references[..read];
    let read = stored.list(&mut properties);
    let properties = &mut properties[..read];
    stored.list(&mut numbers);
    stored.list(&mut floats);
    let choice = stored.number().magnitude == 1;
    let mut net = Lent {
        used: used_of(&counts),
        halfedges,
        positions,
        normals,
        references,
        properties,
    };
    let asked = Asked {
        numbers,
        floats,
        choice,
    };
    run(rt, entry, stored, &mut net, &asked)?;
    // the others have no net
    if !matches!(entry, Entry::NextHalfedge | Entry::TriOf | Entry::ShortTest) {
        leave(rt, &mut net)?;
    }
    Ok(())
}

// Every call of a file.
fn calls(rt: &impl Print, file: &[u8]) -> io::Result<()> {
    let mut at = scan::first(file, 0);
    while at < file.len() {
        let mut stored = Stored { file, at };
        call(rt, &mut stored)?;
        let next = scan::first(file, stored.at);
        if next <= at {
            return Ok(());
        }
        at = next;
    }
    Ok(())
}

fn replayed(rt: &(impl Files + Print + Eprint), path: &str) -> io::Result<()> {
    let mut buf = [0u8; 65536];
    match fs::open(rt, path) {
        Ok(mut file) => {
            let n = readfull::read_full(&mut file, &mut buf)?;
            drop(file);
            calls(rt, &buf[..n])
        }
        Err(error) => eprintln!(rt; "{path}: {error}"),
    }
}

fn main(rt: HostRuntime) -> io::Result<()> {
    for path in env::args(&rt)?.skip(1) {
        replayed(&rt, path.as_str())?;
    }
    Ok(())
}
