// What the loops over two leaves share: the squared distances of one point to the points of a tile, axis by axis, and the test of one (kiddo: leaf.rs). The loops over tiles that gather pairs are in `gather`; what they gather in, and the loop for nearest points, are crates of their own: leafpairs, leafcounts, leafnearest.
#![tactic(auto)]

ghost use Rattle.std.specs.Prelude.{◌≡◌, cond};
ghost use Rattle.written.specs.Boxes.{passes as passes_radius};
ghost use Rattle.metric.specs.Edges.{edge_of};

use metric::Within;

pub mod axes;
pub mod gather;

// 1 where the distance passes, else 0: a number, so that the loops have no branch.
pub fn passes(distance: f64, within: Within) -> u64
    ensures { result ≡ cond (passes_radius (edge_of within.edge) within.radius distance) 1 0 }
{
    u64::from(within.accepts(distance))
}
