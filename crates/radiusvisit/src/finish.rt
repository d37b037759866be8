// A visit that ends: its pairs of places are measured, ruled out or taken whole.
ghost use Rattle.std.specs.Prelude.{◌≡◌, []};
ghost use Rattle.written.specs.Visits.{measured};
ghost use Rattle.metric.specs.Edges.{edge_of};
ghost use Rattle.metric.specs.Flat.{boxes_of};
ghost use Rattle.cursor.specs.Lent.{lent_trees};
ghost use Rattle.rooms.specs.Rooms.{SameRooms};
ghost use Rattle.steps.specs.Standing.{pair_at};
ghost use Rattle.steps.specs.Ending.{LeavesOf};
ghost use Rattle.radiusvisit.specs.Work.{work_of, after};
ghost use Rattle.radiusvisit.specs.Moves.{fate_of};
ghost use Rattle.radiusvisit.specs.Ending.{Few, MayEnd};

use crate::moves::Fate;
use cursor::Trees;
use metric::Within;
use steps::Tally;
use steps::nodes::{Nodes, area};

// Both at leaves: the leaf loop for counts, or the one for pairs.
fn measure(
    trees: &Trees,
    within: Within,
    counting: bool,
    at: Nodes,
    t: Tally,
    lout: &mut [u32],
    rout: &mut [u32],
    dout: &mut [f64],
) -> Tally
    requires leaves { LeavesOf trees.now at }
    requires few { Few t }
    requires same_rooms { SameRooms lout.old rout.old dout.old }
    ensures { work_of result lout.new rout.new dout.new ≡ after (lent_trees trees.now) (edge_of within.edge) within.radius counting (pair_at at (boxes_of [] [])) measured (work_of t lout.old rout.old dout.old) }
{
    let n = area(trees, at);
    let left = trees.left.places(at.left);
    let right = trees.right.places(at.right);
    if counting {
        let more = leafcounts::leaf_counts(trees, within, left, right);
        return t.measured(n, t.found + more);
    }
    let found = leafpairs::leaf_pairs(
        trees, within, left, right, t.found, &mut *lout, &mut *rout, &mut *dout,
    );
    t.measured(n, found)
}

pub fn finish(
    fate: Fate,
    trees: &Trees,
    within: Within,
    counting: bool,
    at: Nodes,
    t: Tally,
    lout: &mut [u32],
    rout: &mut [u32],
    dout: &mut [f64],
) -> Tally
    requires leaves { LeavesOf trees.now at }
    requires few { Few t }
    requires same_rooms { SameRooms lout.old rout.old dout.old }
    requires may_end { MayEnd counting fate }
    ensures { work_of result lout.new rout.new dout.new ≡ after (lent_trees trees.now) (edge_of within.edge) within.radius counting (pair_at at (boxes_of [] [])) (fate_of fate) (work_of t lout.old rout.old dout.old) }
{
    match fate {
        Fate::Measured => measure(
            trees, within, counting, at, t, &mut *lout, &mut *rout, &mut *dout,
        ),
        Fate::RuledOut => t.ruled_out(area(trees, at)),
        Fate::Whole => t.taken_whole(area(trees, at)),
    }
}
