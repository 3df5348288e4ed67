// What stored calls lend and ask, and the pages on which their answers are put.
ghost use Rattle.std.specs.Prelude.{◌≡◌};

use calltext::show::Page;
use std::io;
use told::Used;

// A net as it is lent: the counts and the arrays.
#[derive(Drop)]
pub struct Lent<'a> {
    pub used: Used,
    pub halfedges: &'a mut [i32],
    pub positions: &'a mut [u64],
    pub normals: &'a mut [u64],
    pub references: &'a mut [i32],
    pub properties: &'a [u64],
}

impl Lent<'_> {
    // Its parts, in the order in which the exported functions take them.
    pub fn parts(&mut self) -> (Used, &mut [i32], &mut [u64], &mut [u64], &mut [i32], &[u64])
        ensures used { result.0 ≡ self.old.used }
        ensures halfedges { result.1.now ≡ self.old.halfedges.now }
        ensures positions { result.2.now ≡ self.old.positions.now }
        ensures normals { result.3.now ≡ self.old.normals.now }
        ensures references { result.4.now ≡ self.old.references.now }
        ensures properties { result.5.now ≡ self.old.properties.now }
    {
        let Lent {
            used,
            halfedges,
            positions,
            normals,
            references,
            properties,
        } = self;
        (*used, halfedges, positions, normals, references, properties)
    }
}

// What is asked besides: numbers, floats as bit patterns, and a choice.
#[derive(Clone, Copy)]
pub struct Asked {
    pub numbers: [i32; 8],
    pub floats: [u64; 12],
    pub choice: bool,
}

// How many bytes of an answer, and of buffers as they are left, are written at the most.
pub const ANSWER: usize = 4096;

pub const BUFFERS: usize = 65536;

// Writes what is put on a page of that many bytes. Of what is written no contract can speak; the crates answertext and calltext say what the
// text is.
pub fn print<F: FnOnce(&mut Page)>(rt: &impl Print, out: &mut [u8], put: F) -> io::Result<()>
    requires { F.IsAlwaysCallable put }
{
    let mut page = Page { out, used: 0 };
    put(&mut page);
    let used = page.used;
    if let Some(text) = page.out.get(..used) {
        rt.write_all(text)?;
    }
    Ok(())
}
