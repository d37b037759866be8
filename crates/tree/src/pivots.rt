// Rule 6: a node over at least one leaf has a pivot that is neither NaN nor -inf.
ghost use Rattle.std.specs.Prelude.{◌≡◌};
ghost use Rattle.written.specs.Check.{no_pivot, pivot_ok};

use crate::down::NodeRule;
use cursor::{Cursor, Tree};

fn no_pivot(x: f64) -> bool
    ensures { result ≡ no_pivot x }
{
    x != x || x == f64::NEG_INFINITY
}

pub struct Pivots;

impl NodeRule for Pivots {
    ghost test = { pivot_ok };

    fn holds(k: usize, tree: &Tree, c: Cursor) -> bool {
        c.span() == 0 || !no_pivot(tree.pivot(c.stem))
    }
}
