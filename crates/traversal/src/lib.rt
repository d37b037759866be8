// The radius walk over two accepted trees, for pairs and for counts (kiddo: traversal.rs).
#![tactic(auto)]

ghost use Rattle.std.specs.Prelude.{◌≡◌, ◌-◌, false, refl};
ghost use Rattle.written.specs.Answers.{Accepts, PairRooms};
ghost use Rattle.written.specs.Totals.{walk_totals};
ghost use Rattle.written.proofs.Laws.RadiusWalk.{Good};
ghost use Rattle.metric.specs.Edges.{edge_of};
ghost use Rattle.metric.specs.Flat.{boxes_of};
ghost use Rattle.cursor.specs.Lent.{lent_trees};
ghost use Rattle.rooms.specs.Rooms.{SameRooms};
ghost use Rattle.steps.specs.Lent.{rooms_of};
ghost use Rattle.steps.specs.Standing.{pair_at};
ghost use Rattle.steps.proofs.Pending.{levels_left};
ghost use Rattle.walking.specs.Visited.{Visited, NeverAbove};
ghost use Rattle.radiusvisit.specs.Work.{Work, work_of};
ghost use Rattle.traversal.specs.Setting.{Setting};
ghost use Rattle.traversal.specs.Walked.{walked};
ghost use Rattle.traversal.specs.Radius.{radius_walk};

use cursor::{Side, Trees};
use metric::{Boxes, Within};
use radiusvisit::finish::finish;
use radiusvisit::moves::choose;
use steps::Tally;
use steps::nodes::Nodes;
use steps::splitting::Move;
use walking::Visitor;

// What is asked, what is counted so far, and the three rooms.
#[derive(Drop)]
struct Pairs<'a> {
    within: Within,
    counting: bool,
    tally: Tally,
    lout: &'a mut [u32],
    rout: &'a mut [u32],
    dout: &'a mut [f64],
}

impl Visitor for Pairs<'_> {
    ghost Done = { Work };

    ghost Setting = { Setting };

    ghost done = { λ v. work_of v.tally v.lout.now v.rout.now v.dout.now };

    ghost setting = { λ v. record { edge = edge_of v.within.edge; radius = v.within.radius; counting = v.counting; lefts = v.lout.ghost_name; rights = v.rout.ghost_name; distances = v.dout.ghost_name } };

    ghost walk = { λ s j. radius_walk j s.edge s.radius s.counting };

    ghost ready = { λ v j. SameRooms v.lout.now v.rout.now v.dout.now };

    ghost whole = { λ s j w. ((b : PairRooms) × w ≡ walked j s.edge s.radius s.counting b) };

    ghost left = { λ v j. (walk_totals j (edge_of v.within.edge) v.within.radius v.counting).visits - v.tally.visits };

    fn far_first(&self) -> bool {
        false
    }

    fn visit(&mut self, trees: &Trees, at: Nodes, boxes: &Boxes) -> Option<Side> {
        self.tally = self.tally.visited();
        match choose(trees.k, self.within, self.counting, at, boxes) {
            Move::End(fate) => {
                self.tally = finish(
                    fate,
                    trees,
                    self.within,
                    self.counting,
                    at,
                    self.tally,
                    &mut *self.lout,
                    &mut *self.rout,
                    &mut *self.dout,
                );
                None
            }
            Move::Split(side) => Some(side),
        }
    }
}

pub fn walk(
    trees: &Trees,
    within: Within,
    counting: bool,
    lout: &mut [u32],
    rout: &mut [u32],
    dout: &mut [f64],
) -> Tally
    requires accepts { Accepts (lent_trees trees.now) }
    requires same_rooms { SameRooms lout.old rout.old dout.old }
    ensures { work_of result lout.new rout.new dout.new ≡ walked (lent_trees trees.now) (edge_of within.edge) within.radius counting (rooms_of lout.old rout.old dout.old) }
{
    let mut pairs = Pairs {
        within,
        counting,
        tally: Tally::none(),
        lout: &mut *lout,
        rout: &mut *rout,
        dout: &mut *dout,
    };
    walking::walk(trees, &mut pairs);
    pairs.tally
}
