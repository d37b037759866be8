// The text that a job prints, into a lent buffer: `head` and `refused` store their bytes from its start, `lines` and `totals` from a place on, as far as there is room, and each answers the place after them. Added by the port.
#![tactic(auto)]

mod answer;
mod digits;
mod numerals;
mod page;

pub use crate::answer::{head, lines, refused, totals};
