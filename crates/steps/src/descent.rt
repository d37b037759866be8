// One level down on one side: both halves, the axis, and the pivot between them. The nodes are put together once, since taking them apart and together again costs time.
ghost use Rattle.std.specs.Prelude.{◌<◌};
ghost use Rattle.steps.specs.Standing.{SplitsAt, Descended};

use crate::nodes::Nodes;
use cursor::{Side, Trees};

#[derive(Clone, Copy)]
pub struct Descent {
    pub near: Nodes,
    pub far: Nodes,
    pub axis: usize,
    pub pivot: f64,
}

pub fn descend(trees: &Trees, side: Side, at: Nodes) -> Descent
    requires { SplitsAt trees.now.k trees.now.left.stems.now trees.now.right.stems.now side at }
    ensures { Descended trees.now.k trees.now.left.stems.now trees.now.right.stems.now side at result }
{
    let node = at.on(side);
    let halves = node.split();
    let axis = node.axis(trees.k);
    let pivot = trees.stems_from(side, node.stem)[0];
    let left = at.left;
    let right = at.right;
    match side {
        Side::Left => Descent {
            near: Nodes {
                left: halves.near,
                right,
            },
            far: Nodes {
                left: halves.far,
                right,
            },
            axis,
            pivot,
        },
        Side::Right => Descent {
            near: Nodes {
                left,
                right: halves.near,
            },
            far: Nodes {
                left,
                right: halves.far,
            },
            axis,
            pivot,
        },
    }
}
