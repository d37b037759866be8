// A found pair, and the three buffers that are lent for pairs: the pairs of one left point stored as far as there is room.
// The three stand side by side, here and above, as C lends them: a struct of three `&mut` would have to promise at each call that it still holds the same three, a clause more in every contract.
#![tactic(auto)]

ghost use Rattle.std.specs.Prelude.{◌≡◌, List, ℕ, suc, ◌+◌, ◌-◌, ◌^◌, ◌≤◌, ◌<◌, min, length, take};
ghost use Rattle.rooms.specs.Rooms.{filling, put, puts, SameRooms};
ghost use Rattle.rooms.specs.Emitted.{found_of, places_below, pairs_at, Placed, Emits};

// A found pair is two item numbers and one distance.
#[derive(Clone, Copy)]
pub struct Pair {
    pub left: u32,
    pub right: u32,
    pub distance: f64,
}

// How many of m pairs still fit, when `found` were found before.
fn fitting(m: usize, found: u64, room: usize) -> usize
    ensures { result ≡ min m (room - found) }
{
    m.min(room.saturating_sub(found as usize))
}

// The pair goes to the place `at`.
fn store(pair: Pair, at: usize, lout: &mut [u32], rout: &mut [u32], dout: &mut [f64])
    requires same_rooms { SameRooms lout.old rout.old dout.old }
    requires at_in_bounds { at < length lout.old }
    ensures { filling (suc at) lout.new rout.new dout.new ≡ put (filling at lout.old rout.old dout.old) (found_of pair) }
{
    lout[at] = pair.left;
    rout[at] = pair.right;
    dout[at] = pair.distance;
}

// m pairs, the place of the i-th being `place(i)`: storing stops at the room, counting goes on.
fn emit_places<F: Fn(usize) -> usize>(
    place: F,
    dists: &[f64; 32],
    m: usize,
    left: u32,
    ritems: &[u32],
    found: u64,
    lout: &mut [u32],
    rout: &mut [u32],
    dout: &mut [f64],
) -> u64
    requires callable { (i : ℕ) → i < m → F.pre place i }
    requires in_tile { (i j : ℕ) → i < m → F.post place i j → j < length ritems.now }
    requires few { (length ritems.now ≤ 32) × (found + m ≤ 2 ^ 63) }
    requires same_rooms { SameRooms lout.old rout.old dout.old }
    ensures { (places : List ℕ) → Placed (F.post place) m places → filling result lout.new rout.new dout.new ≡ puts (filling found lout.old rout.old dout.old) (pairs_at dists.now left ritems.now places) }
{
    let fit = fitting(m, found, lout.len());
    let at = found as usize;
    for i in 0..fit {
        let j = place(i);
        let pair = Pair {
            left,
            right: ritems[j],
            distance: dists[j],
        };
        store(pair, at + i, &mut *lout, &mut *rout, &mut *dout);
    }
    found + m as u64
}

// The first m of the places, each with the left point's item.
pub fn emit(
    dists: &[f64; 32],
    places: &[u32; 32],
    m: usize,
    left: u32,
    ritems: &[u32],
    found: u64,
    lout: &mut [u32],
    rout: &mut [u32],
    dout: &mut [f64],
) -> u64
    requires emits { Emits (take m places.now) m ritems.now found }
    requires same_rooms { SameRooms lout.old rout.old dout.old }
    ensures { filling result lout.new rout.new dout.new ≡ puts (filling found lout.old rout.old dout.old) (pairs_at dists.now left ritems.now (take m places.now)) }
{
    emit_places(
        |i| places[i] as usize,
        dists,
        m,
        left,
        ritems,
        found,
        lout,
        rout,
        dout,
    )
}

// All places of the tile.
pub fn emit_all(
    dists: &[f64; 32],
    left: u32,
    ritems: &[u32],
    found: u64,
    lout: &mut [u32],
    rout: &mut [u32],
    dout: &mut [f64],
) -> u64
    requires emits { Emits (places_below (length ritems.now)) (length ritems.now) ritems.now found }
    requires same_rooms { SameRooms lout.old rout.old dout.old }
    ensures { filling result lout.new rout.new dout.new ≡ puts (filling found lout.old rout.old dout.old) (pairs_at dists.now left ritems.now (places_below (length ritems.now))) }
{
    emit_places(
        |i| i,
        dists,
        ritems.len(),
        left,
        ritems,
        found,
        lout,
        rout,
        dout,
    )
}
