// Rule 7: no point of a node's left half is above its pivot, none of its right half below it, and under a pivot of +inf the right half holds none.
ghost use Rattle.std.specs.Prelude.{◌≡◌};
ghost use Rattle.tree.specs.Lent.{none_above, none_below, halves_ok, order_at};

use crate::down::NodeRule;
use cursor::{Cursor, Tree};

fn none_above(part: &[f64], pivot: f64) -> bool
    ensures { result ≡ none_above part.now pivot }
{
    !part.iter().any(|x| pivot < *x)
}

fn none_below(part: &[f64], pivot: f64) -> bool
    ensures { result ≡ none_below part.now pivot }
{
    !part.iter().any(|x| *x < pivot)
}

// The node's own pivot, against the coordinates of its two halves on its axis.
fn halves_ok(left: &[f64], right: &[f64], pivot: f64) -> bool
    ensures { result ≡ halves_ok left.now right.now pivot }
{
    none_above(left, pivot)
        && none_below(right, pivot)
        && (!metric::is_top(pivot) || right.is_empty())
}

pub struct Order;

impl NodeRule for Order {
    ghost test = { order_at };

    fn holds(k: usize, tree: &Tree, c: Cursor) -> bool {
        let halves = c.split();
        let column = c.axis(k) * tree.items.len();
        let first = column + tree.start_of(c.first);
        let middle = column + tree.start_of(halves.far.first);
        let end = column + tree.start_of(c.end);
        halves_ok(
            &tree.coords[first..middle],
            &tree.coords[middle..end],
            tree.pivot(c.stem),
        )
    }
}
