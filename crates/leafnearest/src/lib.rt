// The nearest answers of a left leaf, improved by the points of a right leaf (kiddo: nearest.rs, `update_leaf`).
// The right point is outside and the left points inside: each left point still sees the right points in place order, so the answers are the same.
// The two buffers of the answers stand side by side, here and above, as C lends them: a struct of two `&mut` would have to promise at each call that it still holds the same two.
#![tactic(auto)]

ghost use Rattle.std.specs.Prelude.{◌≡◌, cond, suc, ◌≤◌, length};
ghost use Rattle.std.specs.Float.Ieee.{lt};
ghost use Rattle.leaf.specs.Lent.{points_in, LeafPairIn, LeftTilePairIn};
ghost use Rattle.leaf.specs.Sums.{Fresh, PointTileIn, reached, hits};
ghost use Rattle.leafnearest.specs.Answers.{answers, closer, offered, improved, Answering};

use cursor::{Places, Trees, tile_end};
use leaf::axes::first_axes;

// Of two values, the one that a new distance leaves: only a strictly smaller distance replaces.
fn nearer<T: Copy>(distance: f64, old: f64, new: T, was: T) -> T
    ensures { result ≡ cond (lt distance old) new was }
{
    if distance < old { new } else { was }
}

// The last axis of one right point against a left tile: how many answers it improves. Mostly none.
fn improving(sums: &[f64; 32], q: f64, column: &[f64], dists: &[f64]) -> u64
    requires { (length column.now ≤ 32) × (length dists.now ≡ length column.now) }
    ensures { result ≡ hits (closer (reached sums.now q column.now) dists.now) (length column.now) }
{
    let mut n = 0;
    for (i, x) in column.iter().enumerate() {
        n += nearer(sums[i] + metric::square(q, *x), dists[i], 1, 0);
    }
    n
}

// The same with the answers kept: each is written anew, so that there is no branch.
fn keep_nearer(
    sums: &[f64; 32],
    q: f64,
    column: &[f64],
    item: u32,
    items: &mut [u32],
    dists: &mut [f64],
)
    requires { (length column.now ≤ 32) × (length items.old ≡ length column.now) × (length dists.old ≡ length column.now) }
    ensures { answers items.new dists.new ≡ offered (reached sums.now q column.now) item (answers items.old dists.old) }
{
    for (i, x) in column.iter().enumerate() {
        let distance = sums[i] + metric::square(q, *x);
        let old = dists[i];
        let was = items[i];
        items[i] = nearer(distance, old, item, was);
        dists[i] = nearer(distance, old, distance, old);
    }
}

// One right point, the place q, against a left tile.
fn point_nearest(
    trees: &Trees,
    left: Places,
    q: usize,
    items: &mut [u32],
    dists: &mut [f64],
    sums: &mut [f64; 32],
)
    requires point_tile { PointTileIn trees.now.k sums.old trees.now.right q trees.now.left left }
    requires answering { Answering left.from left.to items.old dists.old }
    ensures dists_after { answers items.new dists.new ≡ improved (points_in trees.now) left.from q (suc q) (answers items.old dists.old) }
    ensures fresh { Fresh trees.now.k sums.new }
{
    let one = trees.right.columns();
    let many = trees.left.columns();
    first_axes(&mut *sums, trees.k, &one, q, &many, left);
    let last = trees.k - 1;
    let x = trees.right.coords[last * trees.right.items.len() + q];
    let column = trees.left.tile(last, left);
    if improving(&*sums, x, column, &*dists) == 0 {
        return;
    }
    keep_nearer(
        &*sums,
        x,
        column,
        trees.right.items[q],
        &mut *items,
        &mut *dists,
    );
}

// The right places against a left tile, whose answers are lent.
fn tile_nearest(trees: &Trees, left: Places, right: Places, items: &mut [u32], dists: &mut [f64])
    requires tile_pair { LeftTilePairIn trees.now left right }
    requires answering { Answering left.from left.to items.old dists.old }
    ensures { answers items.new dists.new ≡ improved (points_in trees.now) left.from right.from right.to (answers items.old dists.old) }
{
    let mut sums = [0.0; 32];
    for q in right.from..right.to {
        point_nearest(trees, left, q, &mut *items, &mut *dists, &mut sums);
    }
}

// Two leaves. What is lent of the answers is the left leaf's own stretch, and nothing else can change.
pub fn update_leaf(trees: &Trees, left: Places, right: Places, items: &mut [u32], dists: &mut [f64])
    requires leaf_pair { LeafPairIn trees.now left right }
    requires answering { Answering left.from left.to items.old dists.old }
    ensures { answers items.new dists.new ≡ improved (points_in trees.now) left.from right.from right.to (answers items.old dists.old) }
{
    let mut from = left.from;
    // No index is counted: a tile begins where the one before it ended, and the last may be a short one.
    while from < left.to {
        let left_tile = Places {
            from,
            to: tile_end(from, left.to),
        };
        tile_nearest(
            trees,
            left_tile,
            right,
            &mut items[from - left.from..left_tile.to - left.from],
            &mut dists[from - left.from..left_tile.to - left.from],
        );
        from = left_tile.to;
    }
}
