// All-nearest over two accepted trees: for each left place the nearest right item, in left place order (kiddo: nearest.rs).
#![tactic(auto)]

ghost use Rattle.std.specs.Prelude.{◌≡◌, ◌-◌, ◌≤◌, true, false, length, replicate, refl};
ghost use Rattle.written.specs.Nearest.{unset, no_points};
ghost use Rattle.written.specs.Totals.{near_totals};
ghost use Rattle.written.specs.Answers.{Accepts, near_rooms_agree, near_room_ok};
ghost use Rattle.metric.specs.Flat.{boxes_of};
ghost use Rattle.cursor.specs.Lent.{lent_trees};
ghost use Rattle.leafnearest.specs.Answers.{answers, Answering};
ghost use Rattle.steps.specs.Standing.{pair_at, Ordered};
ghost use Rattle.nearvisit.specs.Lent.{HeldUnder};
ghost use Rattle.nearvisit.specs.Moves.{move_of};
ghost use Rattle.nearvisit.specs.Held.{Held, held_of};
ghost use Rattle.nearest.specs.Lent.{near_rooms_of};
ghost use Rattle.nearest.specs.Walked.{walked};
ghost use Rattle.nearest.specs.Setting.{Setting};
ghost use Rattle.nearest.specs.Carrying.{nearest_walk};
ghost use Rattle.nearest.specs.Executed.{outcome_of, executed};

use cursor::{Side, Trees};
use held::beginning::clear;
use metric::Boxes;
use nearvisit::finish::finish;
use nearvisit::moves::{Fate, choose};
use steps::Tally;
use steps::nodes::Nodes;
use steps::splitting::Move;
use walking::Visitor;

// What is counted so far, and the answers held.
#[derive(Drop)]
struct Answers<'a> {
    tally: Tally,
    items: &'a mut [u32],
    dists: &'a mut [f64],
}

impl Answers<'_> {
    // By a shared borrow of the whole, since one of a lent field alone would leave its value unknown.
    fn chosen(&self, trees: &Trees, at: Nodes, boxes: &Boxes) -> Move<Fate>
        requires { (trees.now.k ≤ 4) × Ordered at × HeldUnder trees.now.left.starts.now self.now.dists.now at }
        ensures { result ≡ move_of (lent_trees trees.now) self.now.dists.now (pair_at at (boxes_of boxes.now.min boxes.now.max)) }
    {
        choose(trees, at, boxes, &*self.dists)
    }
}

// The far half is taken first, and the answers held decide what is ruled out.
impl Visitor for Answers<'_> {
    ghost Done = { Held };

    ghost Setting = { Setting };

    ghost done = { λ v. held_of v.tally v.items.now v.dists.now };

    ghost setting = { λ v. record { items = v.items.ghost_name; distances = v.dists.ghost_name } };

    ghost walk = { λ s j. nearest_walk j };

    ghost ready = { λ v j. Answering 0 (length j.left.items) v.items.now v.dists.now };

    ghost whole = { λ s j w. w ≡ walked j };

    ghost left = { λ v j. (near_totals j).visits - v.tally.visits };

    fn far_first(&self) -> bool {
        true
    }

    fn visit(&mut self, trees: &Trees, at: Nodes, boxes: &Boxes) -> Option<Side> {
        self.tally = self.tally.visited();
        match self.chosen(trees, at, boxes) {
            Move::End(fate) => {
                self.tally = finish(
                    fate,
                    trees,
                    at,
                    boxes,
                    self.tally,
                    &mut *self.items,
                    &mut *self.dists,
                );
                None
            }
            Move::Split(side) => Some(side),
        }
    }
}

fn walk(trees: &Trees, items: &mut [u32], dists: &mut [f64]) -> Tally
    requires accepts { Accepts (lent_trees trees.now) }
    requires points { no_points (lent_trees trees.now) ≡ false }
    requires answering { Answering 0 (length trees.now.left.items.now) items.old dists.old × (answers items.old dists.old ≡ replicate (length trees.now.left.items.now) unset) }
    ensures { held_of result items.new dists.new ≡ walked (lent_trees trees.now) }
{
    let mut held = Answers {
        tally: Tally::none(),
        items: &mut *items,
        dists: &mut *dists,
    };
    walking::walk(trees, &mut held);
    held.tally
}

// If a tree holds no points, nothing is written. Else an answer for each left place; beyond them the buffers stay untouched.
pub fn execute(trees: &Trees, items: &mut [u32], dists: &mut [f64]) -> Tally
    requires accepts { Accepts (lent_trees trees.now) }
    requires rooms_agree { near_rooms_agree (near_rooms_of items.old dists.old) ≡ true }
    requires room_ok { near_room_ok (lent_trees trees.now) (near_rooms_of items.old dists.old) ≡ true }
    ensures { outcome_of result items.new dists.new ≡ executed (lent_trees trees.now) (near_rooms_of items.old dists.old) }
{
    let n = trees.left.items.len();
    if n == 0 || trees.right.items.is_empty() {
        return Tally::none();
    }
    clear(&mut items[..n], &mut dists[..n]);
    let tally = walk(trees, &mut items[..n], &mut dists[..n]);
    Tally {
        found: n as u64,
        ..tally
    }
}
