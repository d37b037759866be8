// A node of each tree, and where a side's numbers stand in the boxes.
ghost use Rattle.std.specs.Prelude.{◌≡◌, ◌+◌, ◌-◌, ◌*◌, ◌<◌, ◌≤◌, length};
ghost use Rattle.written.specs.NodePairs.{on_side, corner};
ghost use Rattle.cursor.specs.Held.{node_of, root_over, side_of};
ghost use Rattle.steps.specs.Standing.{Within, points_of};

use cursor::{Cursor, Side, Tree, Trees};

#[derive(Clone, Copy)]
pub struct Nodes {
    pub left: Cursor,
    pub right: Cursor,
}

impl Nodes {
    // The root of each tree.
    pub fn roots(trees: &Trees) -> Self
        requires left { (1 ≤ length trees.now.left.starts.now) × (length trees.now.left.starts.now ≤ 4097) }
        requires right { (1 ≤ length trees.now.right.starts.now) × (length trees.now.right.starts.now ≤ 4097) }
        ensures left { node_of result.left ≡ root_over (length trees.now.left.starts.now - 1) }
        ensures right { node_of result.right ≡ root_over (length trees.now.right.starts.now - 1) }
    {
        Self {
            left: trees.left.root(),
            right: trees.right.root(),
        }
    }

    // The node on a side.
    pub fn on(self, side: Side) -> Cursor
        ensures { result ≡ on_side (side_of side) self.left self.right }
    {
        match side {
            Side::Left => self.left,
            Side::Right => self.right,
        }
    }
}

// Where a side's axis stands in the boxes.
pub fn slot(side: Side, axis: usize) -> usize
    requires { axis < 4 }
    ensures { result ≡ corner (side_of side) + axis }
{
    match side {
        Side::Left => axis,
        Side::Right => 4 + axis,
    }
}

// How many points are under a node.
fn points(tree: &Tree, node: Cursor) -> u64
    requires { Within tree.now.starts.now (node_of node) }
    ensures { result ≡ points_of tree.now.starts.now (node_of node) }
{
    let places = tree.places(node);
    (places.to - places.from) as u64
}

// How many pairs of points are under two nodes.
pub fn area(trees: &Trees, at: Nodes) -> u64
    requires { Within trees.now.left.starts.now (node_of at.left) × Within trees.now.right.starts.now (node_of at.right) }
    ensures { result ≡ points_of trees.now.left.starts.now (node_of at.left) * points_of trees.now.right.starts.now (node_of at.right) }
{
    points(&trees.left, at.left) * points(&trees.right, at.right)
}
