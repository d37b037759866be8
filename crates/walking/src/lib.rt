// The walk over the node pairs of two accepted trees, whatever its visits do (kiddo: traversal.rs, nearest.rs).
#![tactic(auto)]

mod order;

ghost use Rattle.std.specs.Prelude.{◌≡◌, ◌<◌, ℕ};
ghost use Rattle.written.specs.Boxes.{Trees as TreePair};
ghost use Rattle.written.specs.NodePairs.{root_pair};
ghost use Rattle.written.specs.Answers.{Accepts};
ghost use Rattle.written.proofs.Laws.RadiusWalk.{Good};
ghost use Rattle.metric.specs.Flat.{boxes_of};
ghost use Rattle.cursor.specs.Lent.{lent_trees};
ghost use Rattle.steps.specs.Standing.{pair_at};
ghost use Rattle.steps.proofs.Pending.{levels_left, Walk};
ghost use Rattle.walking.specs.Orders.{order_by};
ghost use Rattle.walking.specs.Visited.{Visited, NeverAbove};

use crate::order::{cut_first, cut_second, in_order};
use cursor::{Side, Trees};
use metric::Boxes;
use steps::descent::descend;
use steps::nodes::{Nodes, slot};
use steps::waiting::{Stack, Waiting};

// What a walk does at a node pair.
pub trait Visitor {
    // what its visits do, and what no visit changes
    ghost Done: { Type 0 };

    ghost Setting: { Type 0 };

    ghost done: { Self → Done };

    ghost setting: { Self → Setting };

    // all that is done from a node pair on
    ghost walk: { Setting → (j : TreePair) → Walk j Done };

    // what each visit needs of what is held
    ghost ready: { Self → TreePair → Type 0 };

    // what a whole walk comes to
    ghost whole: { Setting → TreePair → Done → Type 0 };

    // how many visits are left at most
    ghost left: { Self → TreePair → ℕ };

    // Whether the far half is taken first.
    fn far_first(&self) -> bool
        ensures { (j : TreePair) → (walk (setting self.now) j).order ≡ order_by result };

    // Which side is split, or none where the visit has ended.
    fn visit(&mut self, trees: &Trees, at: Nodes, boxes: &Boxes) -> Option<Side>
        requires accepts { Accepts (lent_trees trees.now) }
        requires ready { ready self.old (lent_trees trees.now) }
        requires good { Good (lent_trees trees.now) (levels_left (pair_at at (boxes_of boxes.now.min boxes.now.max))) (pair_at at (boxes_of boxes.now.min boxes.now.max)) }
        requires under { ((all : Done) × whole (setting self.old) (lent_trees trees.now) all × NeverAbove (walk (setting self.old) (lent_trees trees.now)) ((walk (setting self.old) (lent_trees trees.now)).walks (pair_at at (boxes_of boxes.now.min boxes.now.max)) (done self.old)) all) }
        ensures visited { Visited (walk (setting self.old) (lent_trees trees.now)) (pair_at at (boxes_of boxes.now.min boxes.now.max)) (done self.old) (done self.new) result }
        ensures ready { ready self.new (lent_trees trees.now) }
        ensures setting { setting self.new ≡ setting self.old }
        ensures fewer { left self.new (lent_trees trees.now) < left self.old (lent_trees trees.now) };
}

// Each turn visits the node pair at hand, or takes one waiting entry; when nothing waits, the walk is over.
pub fn walk<V: Visitor>(trees: &Trees, visitor: &mut V)
    requires accepts { Accepts (lent_trees trees.now) }
    requires ready { V.ready visitor.old (lent_trees trees.now) }
    requires whole { V.whole (V.setting visitor.old) (lent_trees trees.now) ((V.walk (V.setting visitor.old) (lent_trees trees.now)).walks (root_pair (lent_trees trees.now)) (V.done visitor.old)) }
    ensures done { V.done visitor.new ≡ (V.walk (V.setting visitor.old) (lent_trees trees.now)).walks (root_pair (lent_trees trees.now)) (V.done visitor.old) }
    ensures setting { V.setting visitor.new ≡ V.setting visitor.old }
{
    let far_first = visitor.far_first();
    let mut next = Some(Nodes::roots(trees));
    let mut boxes = Boxes::everywhere();
    let mut stack = Stack::empty();
    loop {
        match next {
            Some(at) => match visitor.visit(trees, at, &boxes) {
                None => {
                    next = None;
                }
                Some(side) => {
                    let down = descend(trees, side, at);
                    if metric::is_top(down.pivot) {
                        next = Some(down.near);
                    } else {
                        let i = slot(side, down.axis);
                        let halves = in_order(far_first, down);
                        stack.push(Waiting::Half {
                            side,
                            axis: down.axis,
                            min: boxes.min[i],
                            max: boxes.max[i],
                            pivot: down.pivot,
                            at: halves.second,
                        });
                        cut_first(far_first, &mut boxes, i, down.pivot);
                        next = Some(halves.first);
                    }
                }
            },
            None => {
                let Some(waiting) = stack.pop() else {
                    return;
                };
                match waiting {
                    Waiting::Half {
                        side,
                        axis,
                        min,
                        max,
                        pivot,
                        at: second,
                    } => {
                        let i = slot(side, axis);
                        cut_second(far_first, &mut boxes, i, min, max, pivot);
                        stack.push(Waiting::Restore {
                            side,
                            axis,
                            min,
                            max,
                        });
                        next = Some(second);
                    }
                    Waiting::Restore {
                        side,
                        axis,
                        min,
                        max,
                    } => {
                        let i = slot(side, axis);
                        boxes.min[i] = min;
                        boxes.max[i] = max;
                    }
                }
            }
        }
    }
}
