// What a visit does: whether it is at two leaves, and if not, which side it splits.
ghost use Rattle.std.specs.Prelude.{◌≡◌, ◌&&◌, []};
ghost use Rattle.written.specs.LentTree.{is_leaf};
ghost use Rattle.written.specs.NodePairs.{splits_right};
ghost use Rattle.metric.specs.Flat.{boxes_of};
ghost use Rattle.cursor.specs.Held.{node_of};
ghost use Rattle.steps.specs.Standing.{pair_at, side_by, Ordered};

use crate::nodes::Nodes;
use cursor::Side;

// What a visit does: it ends, in one of the ways that its walk knows, or splits a side.
#[derive(Clone, Copy, PartialEq, Eq)]
pub enum Move<Fate> {
    End(Fate),
    Split(Side),
}

pub fn both_leaves(at: Nodes) -> bool
    ensures { result ≡ (is_leaf (node_of at.left) && is_leaf (node_of at.right)) }
{
    at.left.is_leaf() && at.right.is_leaf()
}

// Split the left, unless it is a leaf, or the right isn't and spans more leaves.
pub fn side_to_split(at: Nodes) -> Side
    requires { Ordered at }
    ensures { result ≡ side_by (splits_right (pair_at at (boxes_of [] []))) }
{
    if at.left.is_leaf() || !at.right.is_leaf() && at.left.span() < at.right.span() {
        Side::Right
    } else {
        Side::Left
    }
}
