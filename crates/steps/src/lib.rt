// The steps that both walks share: a node of each tree, one level down, which side is split, what waits, what is counted (kiddo: traversal.rs). In proofs/ stands the invariant of both loops.
#![tactic(auto)]

pub mod descent;
pub mod nodes;
pub mod splitting;
mod tally;
pub mod waiting;

pub use crate::tally::Tally;
