// The pairs of two leaves that pass, stored as far as there is room (kiddo: leaf.rs).
#![tactic(auto)]

ghost use Rattle.std.specs.Prelude.{◌≡◌};
ghost use Rattle.leaf.specs.Lent.{LeafPairIn};
ghost use Rattle.leaf.specs.Kept.{keeps_in, of_leaves, Countable};
ghost use Rattle.leafpairs.specs.Storing.{CanStore, Stored, storing_laws};
ghost use Rattle.rooms.specs.Rooms.{filling, puts, SameRooms};

mod point;

use crate::point::{last_axis, passing_places};
use cursor::{Places, Trees};
use leaf::axes::first_axes;
use leaf::gather::{Gather, leaves};
use metric::Within;
use rooms::{emit, emit_all};

// The pairs so far: how many, the three buffers, and two rows to work in, which are made once for two leaves.
#[derive(Drop)]
struct Pairs<'a> {
    found: u64,
    lout: &'a mut [u32],
    rout: &'a mut [u32],
    dout: &'a mut [f64],
    dists: &'a mut [f64; 32],
    places: &'a mut [u32; 32],
}

impl<'a> Gather for Pairs<'a> {
    ghost takes = { CanStore };

    ghost after = { Stored };

    ghost laws = { storing_laws };

    // Where none passes nothing is stored, and where all pass there are no places to look for.
    fn point(
        &mut self,
        trees: &Trees,
        within: Within,
        p: usize,
        right: Places,
        sums: &mut [f64; 32],
    ) {
        let dists = &mut *self.dists;
        let one = trees.left.columns();
        let many = trees.right.columns();
        first_axes(&mut *sums, trees.k, &one, p, &many, right);
        let last = trees.k - 1;
        let at = last * trees.left.items.len() + p;
        let m = last_axis(
            &*sums,
            trees.left.coords[at],
            trees.right.tile(last, right),
            within,
            &mut *dists,
        ) as usize;
        if m == 0 {
            return;
        }
        let found = self.found;
        let lout = &mut *self.lout;
        let rout = &mut *self.rout;
        let dout = &mut *self.dout;
        let item = trees.left.items[p];
        let part = &trees.right.items[right.from..right.to];
        if m == part.len() {
            self.found = emit_all(&*dists, item, part, found, lout, rout, dout);
            return;
        }
        let places = &mut *self.places;
        passing_places(&*dists, part.len(), within, &mut *places);
        self.found = emit(&*dists, &*places, m, item, part, found, lout, rout, dout);
    }
}

// Two leaves: the places of one against the places of the other. `found` were found before; the answer counts them too. Never inlined, since within the walk pairs take a fifth more time.
#[inline(never)]
pub fn leaf_pairs(
    trees: &Trees,
    within: Within,
    left: Places,
    right: Places,
    found: u64,
    lout: &mut [u32],
    rout: &mut [u32],
    dout: &mut [f64],
) -> u64
    requires leaf_pair { LeafPairIn trees.now left right }
    requires same_rooms { SameRooms lout.old rout.old dout.old }
    requires countable { Countable found (of_leaves (keeps_in trees.now within) left.from left.to right.from right.to) }
    ensures { filling result lout.new rout.new dout.new ≡ puts (filling found lout.old rout.old dout.old) (of_leaves (keeps_in trees.now within) left.from left.to right.from right.to) }
{
    let mut dists = [0.0; 32];
    let mut places = [0; 32];
    let mut pairs = Pairs {
        found,
        lout,
        rout,
        dout,
        dists: &mut dists,
        places: &mut places,
    };
    leaves(trees, within, left, right, &mut pairs);
    pairs.found
}
