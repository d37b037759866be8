// Pairs within a radius, in walk order: the first that fit are stored, all are counted.
ghost use Rattle.std.specs.Prelude.{◌≡◌};
ghost use Rattle.written.specs.Answers.{pair_rooms_agree};
ghost use Rattle.metric.specs.Edges.{edge_of};
ghost use Rattle.cursor.specs.Lent.{lent_trees};
ghost use Rattle.steps.specs.Lent.{rooms_of};
ghost use Rattle.join.specs.Told.{PairsTold, with_rooms};

use crate::answer::Refusal;
use crate::checking::accepted;
use cursor::Trees;
use metric::Within;
use steps::Tally;

// Rule 8: the output buffers of one call are of one length.
fn rooms_agree(lout: &[u32], rout: &[u32], dout: &[f64]) -> bool
    ensures { result ≡ pair_rooms_agree (rooms_of lout.now rout.now dout.now) }
{
    lout.len() == rout.len() && rout.len() == dout.len()
}

// The left tree wholly, then the right, then the rooms; then the walk. That more pairs pass than the room holds is told after it (rule 9). Inlined into each export that calls it: by a call, a join of two points takes a fifteenth more instructions.
#[inline(always)]
pub fn pairs(
    trees: &Trees,
    within: Within,
    lout: &mut [u32],
    rout: &mut [u32],
    dout: &mut [f64],
) -> Result<Tally, Refusal>
    ensures { PairsTold (lent_trees trees.now) (edge_of within.edge) within.radius (rooms_of lout.old rout.old dout.old) (with_rooms result lout.new rout.new dout.new) }
{
    accepted(trees)?;
    if !rooms_agree(&*lout, &*rout, &*dout) {
        return Err(Refusal::Rooms);
    }
    let counting = false;
    let tally = traversal::walk(trees, within, counting, &mut *lout, &mut *rout, &mut *dout);
    if tally.found <= dout.len() as u64 {
        Ok(tally)
    } else {
        Err(Refusal::Room(tally))
    }
}
