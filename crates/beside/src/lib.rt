// The leaf loops, bounds and the check, exported for the harness that runs them beside the Rust (oracle/, bench/). No function demands anything: what is no leaf pair is answered as such, and nothing is written.
// C passes flags, pointers and lengths side by side: the signatures here are its, and the numbers told are its too.
#![tactic(auto)]

ghost use Rattle.std.specs.Prelude.{◌≡◌, ◌&&◌, cond, ◌-◌, ◌^◌, length, leb};
ghost use Rattle.std.specs.Float.{nan, binary64};
ghost use Rattle.rounding.specs.Distance.{distance as distance_of_rows};
ghost use Rattle.written.specs.Boxes.{lower as lower_bound, upper as upper_bound, passes, beyond as beyond_radius};
ghost use Rattle.written.specs.Check.{refusal as refusal_of};
ghost use Rattle.metric.specs.Edges.{edge_of, edge_by};
ghost use Rattle.metric.specs.Flat.{boxes_of};
ghost use Rattle.metric.specs.Lent.{point_at};
ghost use Rattle.tree.specs.Lent.{tree_of};
ghost use Rattle.leaf.specs.Lent.{join_of};
ghost use Rattle.leaf.specs.Kept.{keeps, of_leaves};
ghost use Rattle.rooms.specs.Rooms.{filling, puts};
ghost use Rattle.leafnearest.specs.Answers.{answers, improved};
ghost use Rattle.beside.specs.Calls.{place_ok, pair_ok, alike_ok, updated, improved_to};

mod asked;

use crate::asked::{alike, pair_ok, place_ok};
use cursor::{Places, Tree, Trees};
use metric::{Boxes, Edge, Within};

// A radius with its reading, by the flag that C passes.
fn within(radius: f64, under: bool) -> Within
    ensures radius { result.radius ≡ radius }
    ensures edge { edge_of result.edge ≡ edge_by under }
{
    Within {
        radius,
        edge: Edge::by(under),
    }
}

// Two trees of which only the points are lent: the leaf loops read no starts and no stems.
fn points<'a>(
    k: u32,
    litems: &'a [u32],
    lcoords: &'a [f64],
    ritems: &'a [u32],
    rcoords: &'a [f64],
) -> Trees<'a>
    ensures axes { result.k ≡ k }
    ensures left { (result.left.items.now ≡ litems.now) × (result.left.coords.now ≡ lcoords.now) }
    ensures right { (result.right.items.now ≡ ritems.now) × (result.right.coords.now ≡ rcoords.now) }
{
    Trees {
        k: k as usize,
        left: Tree {
            starts: &[],
            stems: &[],
            items: litems,
            coords: lcoords,
        },
        right: Tree {
            starts: &[],
            stems: &[],
            items: ritems,
            coords: rcoords,
        },
    }
}

#[unsafe(no_mangle)]
pub extern "C" fn oul_accepts(distance: f64, radius: f64, under: bool) -> bool
    ensures { result ≡ passes (edge_by under) radius distance }
{
    within(radius, under).accepts(distance)
}

#[unsafe(no_mangle)]
pub extern "C" fn oul_beyond(bound: f64, radius: f64, under: bool) -> bool
    ensures { result ≡ beyond_radius (edge_by under) radius bound }
{
    within(radius, under).beyond(bound)
}

// NaN where there are more than four axes.
#[unsafe(no_mangle)]
pub extern "C" fn oul_lower(min: &[f64; 8], max: &[f64; 8], k: u32) -> f64
    ensures { result ≡ cond (leb k 4) (lower_bound k (boxes_of min.now max.now)) nan }
{
    if 4 < k {
        return f64::NAN;
    }
    Boxes {
        min: *min,
        max: *max,
    }
    .lower(k as usize)
}

#[unsafe(no_mangle)]
pub extern "C" fn oul_upper(min: &[f64; 8], max: &[f64; 8], k: u32) -> f64
    ensures { result ≡ cond (leb k 4) (upper_bound k (boxes_of min.now max.now)) nan }
{
    if 4 < k {
        return f64::NAN;
    }
    Boxes {
        min: *min,
        max: *max,
    }
    .upper(k as usize)
}

// The squared distance of the left place p and the right place q; NaN where there are no such places.
#[unsafe(no_mangle)]
pub extern "C" fn oul_distance(
    k: u32,
    lcoords: &[f64],
    ln: usize,
    p: usize,
    rcoords: &[f64],
    rn: usize,
    q: usize,
) -> f64
    ensures { result ≡ cond (place_ok k lcoords.now ln p && place_ok k rcoords.now rn q) (distance_of_rows binary64 (point_at lcoords.now ln p) (point_at rcoords.now rn q) k) nan }
{
    if !place_ok(k, lcoords, ln, p) || !place_ok(k, rcoords, rn, q) {
        return f64::NAN;
    }
    metric::distance(k as usize, lcoords, ln, p, rcoords, rn, q)
}

// The number of the first rule that the tree breaks, 0 if it breaks none.
#[unsafe(no_mangle)]
pub extern "C" fn oul_check(
    k: u32,
    starts: &[u32],
    stems: &[f64],
    items: &[u32],
    coords: &[f64],
) -> u32
    ensures { result ≡ refusal_of k (tree_of starts.now stems.now items.now coords.now) }
{
    let tree = Tree {
        starts,
        stems,
        items,
        coords,
    };
    match tree::check(k as usize, &tree) {
        Ok(()) => 0,
        Err(rule) => rule.number(),
    }
}

// How many pairs of two leaves pass; 2^64 - 1 where they are no leaf pair.
#[unsafe(no_mangle)]
pub extern "C" fn oul_leaf_counts(
    k: u32,
    radius: f64,
    under: bool,
    litems: &[u32],
    lcoords: &[f64],
    ls: usize,
    lend: usize,
    ritems: &[u32],
    rcoords: &[f64],
    rs: usize,
    rend: usize,
) -> u64
    ensures { result ≡ cond (pair_ok k litems.now lcoords.now ls lend ritems.now rcoords.now rs rend) (length (of_leaves (keeps k radius (edge_by under) litems.now lcoords.now ritems.now rcoords.now) ls lend rs rend)) (2 ^ 64 - 1) }
{
    if !pair_ok(k, litems, lcoords, ls, lend, ritems, rcoords, rs, rend) {
        return u64::MAX;
    }
    let trees = points(k, litems, lcoords, ritems, rcoords);
    leafcounts::leaf_counts(
        &trees,
        within(radius, under),
        Places { from: ls, to: lend },
        Places { from: rs, to: rend },
    )
}

// The pairs of two leaves that pass, as far as there is room, and how many they are; 2^64 - 1 where they are no leaf pair or the rooms differ.
#[unsafe(no_mangle)]
pub extern "C" fn oul_leaf_pairs(
    k: u32,
    radius: f64,
    under: bool,
    litems: &[u32],
    lcoords: &[f64],
    ls: usize,
    lend: usize,
    ritems: &[u32],
    rcoords: &[f64],
    rs: usize,
    rend: usize,
    lout: &mut [u32],
    rout: &mut [u32],
    dout: &mut [f64],
) -> u64
    ensures { filling result lout.new rout.new dout.new ≡ cond (pair_ok k litems.now lcoords.now ls lend ritems.now rcoords.now rs rend && alike_ok (length lout.old) (length rout.old) (length dout.old)) (puts (filling 0 lout.old rout.old dout.old) (of_leaves (keeps k radius (edge_by under) litems.now lcoords.now ritems.now rcoords.now) ls lend rs rend)) (filling (2 ^ 64 - 1) lout.old rout.old dout.old) }
{
    if !pair_ok(k, litems, lcoords, ls, lend, ritems, rcoords, rs, rend) {
        return u64::MAX;
    }
    if !alike(lout.len(), rout.len(), dout.len()) {
        return u64::MAX;
    }
    let trees = points(k, litems, lcoords, ritems, rcoords);
    leafpairs::leaf_pairs(
        &trees,
        within(radius, under),
        Places { from: ls, to: lend },
        Places { from: rs, to: rend },
        0,
        &mut *lout,
        &mut *rout,
        &mut *dout,
    )
}

// The answers of a left leaf, improved by a right leaf: 1; or 0 where they are no leaf pair, or what is lent of the answers is not the leaf's stretch.
#[unsafe(no_mangle)]
pub extern "C" fn oul_update_leaf(
    k: u32,
    litems: &[u32],
    lcoords: &[f64],
    ls: usize,
    lend: usize,
    ritems: &[u32],
    rcoords: &[f64],
    rs: usize,
    rend: usize,
    items: &mut [u32],
    dists: &mut [f64],
) -> u32
    ensures { updated result items.new dists.new ≡ cond (pair_ok k litems.now lcoords.now ls lend ritems.now rcoords.now rs rend && alike_ok (lend - ls) (length items.old) (length dists.old)) (improved_to 1 (improved (join_of k litems.now lcoords.now ritems.now rcoords.now) ls rs rend (answers items.old dists.old))) (updated 0 items.old dists.old) }
{
    if !pair_ok(k, litems, lcoords, ls, lend, ritems, rcoords, rs, rend) {
        return 0;
    }
    if !alike(lend - ls, items.len(), dists.len()) {
        return 0;
    }
    let trees = points(k, litems, lcoords, ritems, rcoords);
    leafnearest::update_leaf(
        &trees,
        Places { from: ls, to: lend },
        Places { from: rs, to: rend },
        &mut *items,
        &mut *dists,
    );
    1
}
