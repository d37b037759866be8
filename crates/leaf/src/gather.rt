// The loops over two leaves that gather pairs: left tiles of at most 32 places, within each the right tiles, then left points (kiddo: leaf.rs). What is done with a left point against a right tile is the gatherer's.
ghost use Rattle.std.specs.Prelude.{List};
ghost use Rattle.written.specs.RadiusWalk.{Found};
ghost use Rattle.leaf.specs.Lent.{LeafPairIn, TilePairIn};
ghost use Rattle.leaf.specs.Sums.{Fresh, PointTileIn};
ghost use Rattle.leaf.specs.Kept.{keeps_in, of_point, of_tile_pair, of_tile_leaf, of_leaves};
ghost use Rattle.leaf.specs.Gathering.{GatherLaws};

use cursor::{Places, Trees, tile_end};
use metric::Within;

// One that pairs are gathered in, in the order in which they are found.
pub trait Gather {
    // `takes a l`: the pairs l can be gathered in a.
    ghost takes: { Self → List Found → Type 0 };

    // `after a l b`: b is a with the pairs l gathered.
    ghost after: { Self → List Found → Self → Type 0 };

    // A left point against a right tile. The sums are lent, so that they are made once for many points.
    fn point(
        &mut self,
        trees: &Trees,
        within: Within,
        p: usize,
        right: Places,
        sums: &mut [f64; 32],
    )
        requires point_tile { PointTileIn trees.now.k sums.old trees.now.left p trees.now.right right }
        requires room { takes self.old (of_point (keeps_in trees.now within) p right.from right.to) }
        ensures gathered { after self.old (of_point (keeps_in trees.now within) p right.from right.to) self.new }
        ensures fresh { Fresh trees.now.k sums.new };

    ghost laws: { GatherLaws takes after };
}

// A left tile against a right tile.
fn tile_pair<G: Gather>(trees: &Trees, within: Within, left: Places, right: Places, gather: &mut G)
    requires tile_pair { TilePairIn trees.now left right }
    requires room { G.takes gather.old (of_tile_pair (keeps_in trees.now within) left.from left.to right.from right.to) }
    ensures { G.after gather.old (of_tile_pair (keeps_in trees.now within) left.from left.to right.from right.to) gather.new }
{
    let mut sums = [0.0; 32];
    for p in left.from..left.to {
        gather.point(trees, within, p, right, &mut sums);
    }
}

// A left tile against the tiles of a right leaf.
fn tile_leaf<G: Gather>(trees: &Trees, within: Within, left: Places, right: Places, gather: &mut G)
    requires leaf_pair { LeafPairIn trees.now left right }
    requires room { G.takes gather.old (of_tile_leaf (keeps_in trees.now within) left.from left.to right.from right.to) }
    ensures { G.after gather.old (of_tile_leaf (keeps_in trees.now within) left.from left.to right.from right.to) gather.new }
{
    let mut from = right.from;
    // No index is counted: a tile begins where the one before it ended, and the last may be a short one.
    while from < right.to {
        let right_tile = Places {
            from,
            to: tile_end(from, right.to),
        };
        tile_pair(trees, within, left, right_tile, &mut *gather);
        from = right_tile.to;
    }
}

// Two leaves: the places of one against the places of the other.
pub fn leaves<G: Gather>(trees: &Trees, within: Within, left: Places, right: Places, gather: &mut G)
    requires leaf_pair { LeafPairIn trees.now left right }
    requires room { G.takes gather.old (of_leaves (keeps_in trees.now within) left.from left.to right.from right.to) }
    ensures { G.after gather.old (of_leaves (keeps_in trees.now within) left.from left.to right.from right.to) gather.new }
{
    let mut from = left.from;
    // As the right tiles, each from the end of the one before it.
    while from < left.to {
        let left_tile = Places {
            from,
            to: tile_end(from, left.to),
        };
        tile_leaf(trees, within, left_tile, right, &mut *gather);
        from = left_tile.to;
    }
}
