// For each left point the nearest right item, in left place order.
ghost use Rattle.std.specs.Prelude.{◌≡◌};
ghost use Rattle.written.specs.Answers.{near_rooms_agree};
ghost use Rattle.cursor.specs.Lent.{lent_trees};
ghost use Rattle.nearest.specs.Lent.{near_rooms_of};
ghost use Rattle.join.specs.Told.{NearestTold, room_for, with_near_rooms};

use crate::answer::Refusal;
use crate::checking::accepted;
use cursor::Trees;
use steps::Tally;

// Rule 8: the output buffers of one call are of one length.
fn rooms_agree(items: &[u32], dists: &[f64]) -> bool
    ensures { result ≡ near_rooms_agree (near_rooms_of items.now dists.now) }
{
    items.len() == dists.len()
}

// Rule 9, told beforehand: a tree without points asks for no room, else each left point for one.
fn room_ok(litems: &[u32], ritems: &[u32], dists: &[f64]) -> bool
    ensures { result ≡ room_for litems.now ritems.now dists.now }
{
    litems.is_empty() || ritems.is_empty() || litems.len() <= dists.len()
}

// The left tree wholly, then the right, then the rooms; then the walk.
pub fn nearest(trees: &Trees, items: &mut [u32], dists: &mut [f64]) -> Result<Tally, Refusal>
    ensures { NearestTold (lent_trees trees.now) (near_rooms_of items.old dists.old) (with_near_rooms result items.new dists.new) }
{
    accepted(trees)?;
    if !rooms_agree(&*items, &*dists) {
        return Err(Refusal::Rooms);
    }
    if !room_ok(trees.left.items, trees.right.items, &*dists) {
        return Err(Refusal::Room(Tally::none()));
    }
    Ok(nearest::execute(trees, &mut *items, &mut *dists))
}
