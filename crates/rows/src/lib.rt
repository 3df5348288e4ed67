// The rows of a net's lent arrays: reads and writes of one row, appending behind the rows in use, zeroing and copying.
// No other crate knows how wide a row is.
#![tactic(auto)]

pub mod corners;
pub mod halfedges;
pub mod triples;
