// The joins for other languages: a slice is passed as pointer and length, the answer's numbers go to an array of six. No function demands anything.
// The buffers stand side by side, and a call for each reading of a radius, since the C interface has them so.
#![tactic(auto)]

ghost use Rattle.std.specs.Prelude.{◌≡◌, length};
ghost use Rattle.written.specs.Boxes.{up_to, under};
ghost use Rattle.written.specs.Spacing.{radius_of};
ghost use Rattle.cursor.specs.Lent.{lent_trees};
ghost use Rattle.steps.specs.Lent.{trees_of, rooms_of};
ghost use Rattle.nearest.specs.Lent.{near_rooms_of};
ghost use Rattle.oulavisok.specs.Numbers.{numbers, PairsNumbers, CountsNumbers, NearestNumbers, with_numbers, with_numbers_and_rooms, with_numbers_and_near_rooms};

use cursor::{Tree, Trees};
use join::Answer;
use metric::{Edge, Within};

// The slices of a call as the two trees.
fn lent<'a>(
    k: u32,
    lstarts: &'a [u32],
    lstems: &'a [f64],
    litems: &'a [u32],
    lcoords: &'a [f64],
    rstarts: &'a [u32],
    rstems: &'a [f64],
    ritems: &'a [u32],
    rcoords: &'a [f64],
) -> Trees<'a>
    ensures { lent_trees result ≡ trees_of k lstarts.now lstems.now litems.now lcoords.now rstarts.now rstems.now ritems.now rcoords.now }
{
    Trees {
        k: k as usize,
        left: Tree {
            starts: lstarts,
            stems: lstems,
            items: litems,
            coords: lcoords,
        },
        right: Tree {
            starts: rstarts,
            stems: rstems,
            items: ritems,
            coords: rcoords,
        },
    }
}

// Side, number found, visits, measured, ruled out, taken whole.
fn tell(a: Answer, answer: &mut [u64]) -> u32
    requires { length answer.old ≡ 6 }
    ensures value { result ≡ a.number }
    ensures answer_after { answer.new ≡ numbers a }
{
    answer[0] = a.side as u64;
    answer[1] = a.tally.found;
    answer[2] = a.tally.visits;
    answer[3] = a.tally.measured;
    answer[4] = a.tally.ruled;
    answer[5] = a.tally.whole;
    a.number
}

#[unsafe(no_mangle)]
pub extern "C" fn oul_pairs_up_to(
    k: u32,
    radius: f64,
    lstarts: &[u32],
    lstems: &[f64],
    litems: &[u32],
    lcoords: &[f64],
    rstarts: &[u32],
    rstems: &[f64],
    ritems: &[u32],
    rcoords: &[f64],
    lout: &mut [u32],
    rout: &mut [u32],
    dout: &mut [f64],
    answer: &mut [u64; 6],
) -> u32
    ensures { PairsNumbers (trees_of k lstarts.now lstems.now litems.now lcoords.now rstarts.now rstems.now ritems.now rcoords.now) up_to radius (rooms_of lout.old rout.old dout.old) (with_numbers_and_rooms result answer.new lout.new rout.new dout.new) }
{
    let trees = lent(
        k, lstarts, lstems, litems, lcoords, rstarts, rstems, ritems, rcoords,
    );
    let up_to = Within {
        radius,
        edge: Edge::UpTo,
    };
    let a = Answer::of(join::pairs(&trees, up_to, &mut *lout, &mut *rout, &mut *dout));
    tell(a, &mut *answer)
}

#[unsafe(no_mangle)]
pub extern "C" fn oul_pairs_under(
    k: u32,
    radius: f64,
    lstarts: &[u32],
    lstems: &[f64],
    litems: &[u32],
    lcoords: &[f64],
    rstarts: &[u32],
    rstems: &[f64],
    ritems: &[u32],
    rcoords: &[f64],
    lout: &mut [u32],
    rout: &mut [u32],
    dout: &mut [f64],
    answer: &mut [u64; 6],
) -> u32
    ensures { PairsNumbers (trees_of k lstarts.now lstems.now litems.now lcoords.now rstarts.now rstems.now ritems.now rcoords.now) under radius (rooms_of lout.old rout.old dout.old) (with_numbers_and_rooms result answer.new lout.new rout.new dout.new) }
{
    let trees = lent(
        k, lstarts, lstems, litems, lcoords, rstarts, rstems, ritems, rcoords,
    );
    let under = Within {
        radius,
        edge: Edge::Under,
    };
    let a = Answer::of(join::pairs(&trees, under, &mut *lout, &mut *rout, &mut *dout));
    tell(a, &mut *answer)
}

#[unsafe(no_mangle)]
pub extern "C" fn oul_counts_up_to(
    k: u32,
    radius: f64,
    lstarts: &[u32],
    lstems: &[f64],
    litems: &[u32],
    lcoords: &[f64],
    rstarts: &[u32],
    rstems: &[f64],
    ritems: &[u32],
    rcoords: &[f64],
    answer: &mut [u64; 6],
) -> u32
    ensures { CountsNumbers (trees_of k lstarts.now lstems.now litems.now lcoords.now rstarts.now rstems.now ritems.now rcoords.now) up_to radius (with_numbers result answer.new) }
{
    let trees = lent(
        k, lstarts, lstems, litems, lcoords, rstarts, rstems, ritems, rcoords,
    );
    let up_to = Within {
        radius,
        edge: Edge::UpTo,
    };
    let a = Answer::of(join::counts(&trees, up_to));
    tell(a, &mut *answer)
}

#[unsafe(no_mangle)]
pub extern "C" fn oul_counts_under(
    k: u32,
    radius: f64,
    lstarts: &[u32],
    lstems: &[f64],
    litems: &[u32],
    lcoords: &[f64],
    rstarts: &[u32],
    rstems: &[f64],
    ritems: &[u32],
    rcoords: &[f64],
    answer: &mut [u64; 6],
) -> u32
    ensures { CountsNumbers (trees_of k lstarts.now lstems.now litems.now lcoords.now rstarts.now rstems.now ritems.now rcoords.now) under radius (with_numbers result answer.new) }
{
    let trees = lent(
        k, lstarts, lstems, litems, lcoords, rstarts, rstems, ritems, rcoords,
    );
    let under = Within {
        radius,
        edge: Edge::Under,
    };
    let a = Answer::of(join::counts(&trees, under));
    tell(a, &mut *answer)
}

#[unsafe(no_mangle)]
pub extern "C" fn oul_nearest(
    k: u32,
    lstarts: &[u32],
    lstems: &[f64],
    litems: &[u32],
    lcoords: &[f64],
    rstarts: &[u32],
    rstems: &[f64],
    ritems: &[u32],
    rcoords: &[f64],
    items: &mut [u32],
    dists: &mut [f64],
    answer: &mut [u64; 6],
) -> u32
    ensures { NearestNumbers (trees_of k lstarts.now lstems.now litems.now lcoords.now rstarts.now rstems.now ritems.now rcoords.now) (near_rooms_of items.old dists.old) (with_numbers_and_near_rooms result answer.new items.new dists.new) }
{
    let trees = lent(
        k, lstarts, lstems, litems, lcoords, rstarts, rstems, ritems, rcoords,
    );
    let a = Answer::of(join::nearest(&trees, &mut *items, &mut *dists));
    tell(a, &mut *answer)
}

#[unsafe(no_mangle)]
pub extern "C" fn oul_radius_of(r: f64) -> f64
    ensures { result ≡ radius_of r }
{
    join::radius_of(r)
}
