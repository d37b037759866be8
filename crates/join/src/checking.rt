// Both trees are checked, the left one wholly before the right.
ghost use Rattle.cursor.specs.Lent.{lent_trees};
ghost use Rattle.join.specs.Checking.{SideTold, CheckTold};
ghost use Rattle.written.specs.NodePairs.{tree_of};
ghost use Rattle.cursor.specs.Held.{side_of};

use crate::answer::Refusal;
use cursor::{Side, Trees};

fn side_accepted(trees: &Trees, side: Side) -> Result<(), Refusal>
    ensures { SideTold (lent_trees trees.now) side result }
{
    match tree::check(trees.k, &trees.on(side)) {
        Ok(()) => Ok(()),
        Err(rule) => Err(Refusal::Tree { side, rule }),
    }
}

pub fn accepted(trees: &Trees) -> Result<(), Refusal>
    ensures { CheckTold (lent_trees trees.now) result }
{
    side_accepted(trees, Side::Left)?;
    side_accepted(trees, Side::Right)
}
