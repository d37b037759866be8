// Nodes and tiles of a lent tree (kiddo: cursor.rs, stem_strategy/eytzinger).
#![tactic(auto)]

mod lent;
mod node;

pub use crate::lent::{Columns, Places, Side, Tree, Trees, tile_end};
pub use crate::node::{Cursor, Halves, LeafIdx, StemIdx, levels};
