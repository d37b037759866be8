// A visit of the nearest walk: what it does, and how it ends (kiddo: nearest.rs).
#![tactic(auto)]

pub mod finish;
pub mod moves;
