// What the entries that repair a net answer, as the struct that each one's caller is told: the number and each value that came, 0 for one that
// did not. Each entry has a struct of its own.
#![tactic(auto)]

ghost use Rattle.std.specs.Prelude.{◌≡◌};
ghost use Rattle.refused.specs.Refused.{count_said};
ghost use Rattle.settling.specs.Settling.{extent_said};
ghost use Rattle.repairtold.specs.Told.{edge_told, edges_told, cleanup_told, collapse_told};

use growth::Extent;
use refused::Refusal;

// How many half-edges and vertices are in use afterwards.
#[repr(C)]
#[derive(Clone, Copy)]
pub struct DedupeEdgeAnswer {
    pub number: u32,
    pub row: usize,
    pub halfedges: usize,
    pub vertices: usize,
}

#[repr(C)]
#[derive(Clone, Copy)]
pub struct DedupeEdgesAnswer {
    pub number: u32,
    pub row: usize,
    pub halfedges: usize,
    pub vertices: usize,
}

#[repr(C)]
#[derive(Clone, Copy)]
pub struct CleanupTopologyAnswer {
    pub number: u32,
    pub row: usize,
    pub halfedges: usize,
    pub vertices: usize,
}

// How many vertices are in use afterwards; the squared length and the limit are bit patterns.
#[repr(C)]
#[derive(Clone, Copy)]
pub struct CollapseEdgeAnswer {
    pub number: u32,
    pub row: usize,
    pub vertices: usize,
    pub squared_length: u64,
    pub limit: u64,
}

impl From<Result<Extent, Refusal>> for DedupeEdgeAnswer {
    ghost from_gives = { λ said answer. answer ≡ edge_told (extent_said said) };

    fn from(said: Result<Extent, Refusal>) -> DedupeEdgeAnswer {
        match said {
            Ok(extent) => DedupeEdgeAnswer {
                number: 0,
                row: 0,
                halfedges: extent.halfedges,
                vertices: extent.vertices,
            },
            Err(refusal) => DedupeEdgeAnswer {
                number: refusal.number(),
                row: refusal.row(),
                halfedges: 0,
                vertices: 0,
            },
        }
    }
}

impl From<Result<Extent, Refusal>> for DedupeEdgesAnswer {
    ghost from_gives = { λ said answer. answer ≡ edges_told (extent_said said) };

    fn from(said: Result<Extent, Refusal>) -> DedupeEdgesAnswer {
        match said {
            Ok(extent) => DedupeEdgesAnswer {
                number: 0,
                row: 0,
                halfedges: extent.halfedges,
                vertices: extent.vertices,
            },
            Err(refusal) => DedupeEdgesAnswer {
                number: refusal.number(),
                row: refusal.row(),
                halfedges: 0,
                vertices: 0,
            },
        }
    }
}

impl From<Result<Extent, Refusal>> for CleanupTopologyAnswer {
    ghost from_gives = { λ said answer. answer ≡ cleanup_told (extent_said said) };

    fn from(said: Result<Extent, Refusal>) -> CleanupTopologyAnswer {
        match said {
            Ok(extent) => CleanupTopologyAnswer {
                number: 0,
                row: 0,
                halfedges: extent.halfedges,
                vertices: extent.vertices,
            },
            Err(refusal) => CleanupTopologyAnswer {
                number: refusal.number(),
                row: refusal.row(),
                halfedges: 0,
                vertices: 0,
            },
        }
    }
}

impl From<Result<usize, Refusal>> for CollapseEdgeAnswer {
    ghost from_gives = { λ said answer. answer ≡ collapse_told (count_said said) };

    fn from(said: Result<usize, Refusal>) -> CollapseEdgeAnswer {
        match said {
            Ok(vertices) => CollapseEdgeAnswer {
                number: 0,
                row: 0,
                vertices,
                squared_length: 0,
                limit: 0,
            },
            Err(Refusal::Long(squared_length, limit)) => CollapseEdgeAnswer {
                number: 8,
                row: 0,
                vertices: 0,
                squared_length: floats::bits_of(squared_length),
                limit: floats::bits_of(limit),
            },
            Err(refusal) => CollapseEdgeAnswer {
                number: refusal.number(),
                row: refusal.row(),
                vertices: 0,
                squared_length: 0,
                limit: 0,
            },
        }
    }
}
