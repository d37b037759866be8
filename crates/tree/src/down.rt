// A rule that each node keeps by itself: whether a node and all below it keep it.
ghost use Rattle.std.specs.Prelude.{◌≡◌, ◌<◌, ℕ, Bool};
ghost use Rattle.written.specs.LentTree.{Tree as LentTree, Cursor as Node};
ghost use Rattle.written.specs.Check.{down};
ghost use Rattle.cursor.specs.Held.{node_of};
ghost use Rattle.cursor.specs.Lent.{lent_tree};
ghost use Rattle.tree.specs.Lent.{Stands};

use cursor::{Cursor, Tree};

pub trait NodeRule {
    ghost test: { ℕ → LentTree → Node → Bool };

    // Whether the node itself keeps it: only a node with a level left is asked.
    fn holds(k: usize, tree: &Tree, c: Cursor) -> bool
        requires { Stands k (lent_tree tree.now) (node_of c) × (0 < c.remaining) }
        ensures { result ≡ test k (lent_tree tree.now) (node_of c) };
}

// The node itself, then all below its near child, then all below its far child.
pub fn down<R: NodeRule>(k: usize, tree: &Tree, c: Cursor) -> bool
    requires { Stands k (lent_tree tree.now) (node_of c) }
    ensures { result ≡ down (R.test k (lent_tree tree.now)) c.remaining (node_of c) }
{
    if c.is_leaf() {
        return true;
    }
    let halves = c.split();
    R::holds(k, tree, c) && down::<R>(k, tree, halves.near) && down::<R>(k, tree, halves.far)
}
