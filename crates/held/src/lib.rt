// The nearest answers held so far: how they begin, whether a bound is below the largest distance of a stretch, and whether a place of it can gain (kiddo: nearest.rs).
#![tactic(auto)]

pub mod beginning;
pub mod gains;
pub mod largest;
