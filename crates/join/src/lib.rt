// The joins that callers use: pairs and counts over two lent trees, each "up to" or "under" a radius, and nearest. No function demands anything: what is wrong is refused.
#![tactic(auto)]

mod answer;
mod checking;
mod counting;
mod neighbours;
mod pairing;
mod spacing;

pub use crate::answer::{Answer, Refusal};
pub use crate::counting::counts;
pub use crate::neighbours::nearest;
pub use crate::pairing::pairs;
pub use crate::spacing::radius_of;
