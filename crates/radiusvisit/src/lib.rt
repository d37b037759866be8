// A visit of the radius walk, for pairs and for counts: what it does, and how it ends (kiddo: traversal.rs).
#![tactic(auto)]

pub mod finish;
pub mod moves;
