// How many pairs of two leaves pass (kiddo: leaf.rs).
#![tactic(auto)]

ghost use Rattle.std.specs.Prelude.{◌≡◌, ◌≤◌, length};
ghost use Rattle.metric.specs.Edges.{edge_of};
ghost use Rattle.leaf.specs.Lent.{LeafPairIn};
ghost use Rattle.leaf.specs.Sums.{Fresh, PointTileIn, reached, passing as passing_of, hits};
ghost use Rattle.leaf.specs.Kept.{keeps_in, of_point, of_leaves};
ghost use Rattle.leafcounts.specs.Counting.{CanCount, Counted, counting_laws};

use cursor::{Places, Trees};
use leaf::axes::first_axes;
use leaf::gather::{Gather, leaves};
use leaf::passes;
use metric::Within;

// The last axis, and how many pass.
fn passing(sums: &[f64; 32], q: f64, column: &[f64], within: Within) -> u64
    requires { length column.now ≤ 32 }
    ensures { result ≡ hits (passing_of (edge_of within.edge) within.radius (reached sums.now q column.now)) (length column.now) }
{
    let mut n = 0;
    for (j, x) in column.iter().enumerate() {
        n += passes(sums[j] + metric::square(q, *x), within);
    }
    n
}

// A left point against a right tile. The sums are lent, so that they are made once for many points.
fn point_count(trees: &Trees, within: Within, p: usize, right: Places, sums: &mut [f64; 32]) -> u64
    requires { PointTileIn trees.now.k sums.old trees.now.left p trees.now.right right }
    ensures value { result ≡ length (of_point (keeps_in trees.now within) p right.from right.to) }
    ensures fresh { Fresh trees.now.k sums.new }
{
    let one = trees.left.columns();
    let many = trees.right.columns();
    first_axes(&mut *sums, trees.k, &one, p, &many, right);
    let last = trees.k - 1;
    let at = last * trees.left.items.len() + p;
    passing(
        &*sums,
        trees.left.coords[at],
        trees.right.tile(last, right),
        within,
    )
}

// The pairs so far, as a number.
#[derive(Drop)]
struct Count {
    pairs: u64,
}

impl Gather for Count {
    ghost takes = { CanCount };

    ghost after = { Counted };

    ghost laws = { counting_laws };

    fn point(
        &mut self,
        trees: &Trees,
        within: Within,
        p: usize,
        right: Places,
        sums: &mut [f64; 32],
    ) {
        self.pairs += point_count(trees, within, p, right, sums);
    }
}

// Two leaves: the places of one against the places of the other.
pub fn leaf_counts(trees: &Trees, within: Within, left: Places, right: Places) -> u64
    requires { LeafPairIn trees.now left right }
    ensures { result ≡ length (of_leaves (keeps_in trees.now within) left.from left.to right.from right.to) }
{
    let mut count = Count { pairs: 0 };
    leaves(trees, within, left, right, &mut count);
    count.pairs
}
