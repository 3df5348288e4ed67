// Splitting pinched vertices: what it promises in words, its steps, and the proof that the steps keep the promise. The code stands in the
// crates above; here is only the type of what it gives.
#![tactic(auto)]

// Vertices added, or copies counted that are still to be made, and half-edges visited.
#[derive(Clone, Copy)]
pub struct Visited {
    pub added: usize,
    pub steps: usize,
}
