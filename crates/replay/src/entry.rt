// The library's entries, by the numbers that stored calls give them.

#[derive(Clone, Copy)]
pub enum Entry {
    NextHalfedge,
    TriOf,
    ShortTest,
    CheckNet,
    PairUp,
    SplitPinchedVerts,
    OrbitOwners,
    UpdateVert,
    CollapseTri,
    RemoveIfFolded,
    FormLoop,
    DedupeEdge,
    DedupeEdges,
    CleanupTopology,
    CollapseEdge,
}

// Each number from 14 on is that of the last.
impl From<u64> for Entry {
    fn from(number: u64) -> Entry {
        match number {
            0 => Entry::NextHalfedge,
            1 => Entry::TriOf,
            2 => Entry::ShortTest,
            3 => Entry::CheckNet,
            4 => Entry::PairUp,
            5 => Entry::SplitPinchedVerts,
            6 => Entry::OrbitOwners,
            7 => Entry::UpdateVert,
            8 => Entry::CollapseTri,
            9 => Entry::RemoveIfFolded,
            10 => Entry::FormLoop,
            11 => Entry::DedupeEdge,
            12 => Entry::DedupeEdges,
            13 => Entry::CleanupTopology,
            _ => Entry::CollapseEdge,
        }
    }
}
