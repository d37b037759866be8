// How many pairs are within a radius.
ghost use Rattle.metric.specs.Edges.{edge_of};
ghost use Rattle.cursor.specs.Lent.{lent_trees};
ghost use Rattle.join.specs.Told.{CountsTold};

use crate::answer::Refusal;
use crate::checking::accepted;
use cursor::Trees;
use metric::Within;
use steps::Tally;

// The left tree wholly, then the right; then the walk, which stores nothing when it counts.
// Inlined into each export that calls it, as `pairs`.
#[inline(always)]
pub fn counts(trees: &Trees, within: Within) -> Result<Tally, Refusal>
    ensures { CountsTold (lent_trees trees.now) (edge_of within.edge) within.radius result }
{
    accepted(trees)?;
    let mut lout = [0u32; 1];
    let mut rout = [0u32; 1];
    let mut dout = [0.0; 1];
    let counting = true;
    Ok(traversal::walk(trees, within, counting, &mut lout, &mut rout, &mut dout))
}
