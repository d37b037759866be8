// Record after record: the join that each asks for and the text that it prints, and whether both are as recorded.
ghost use Rattle.std.specs.Prelude.{◌≤◌, length};
ghost use Rattle.reading.specs.Lays.{Within};
ghost use Rattle.replay.specs.Fits.{Fits, Full};

use crate::calls::called;
use crate::frame::{Frame, framed};
use crate::lengths::{Lengths, changed, fits, own};
use crate::mode::mode_of;
use crate::tally::Tally;
use crate::text::text_same;
use cursor::{Tree, Trees};
use reading::{Layout, Mode, byte_at, decode, f64_at, lay};

// One tree's buffers, in arrays that no job fills: lent as arrays, so that the proof knows their lengths.
fn decode_tree(
    job: &[u8],
    l: Layout,
    starts: &mut [u32; 4098],
    stems: &mut [f64; 2048],
    items: &mut [u32; 65537],
    coords: &mut [f64; 2048],
)
    requires { (length job.now ≤ 16384) × (Within (length job.now) l) }
    ensures { Full starts.new stems.new items.new coords.new }
{
    decode(job, l, &mut *starts, &mut *stems, &mut *items, &mut *coords);
}

// Both trees decoded, and lent at the given lengths.
fn decoded(f: Frame<'_>, mode: Mode, l: Layout, r: Layout, n: Lengths) -> bool
    requires in_bounds { (16 ≤ length f.job.now) × (length f.job.now ≤ 16384) }
    requires within { (Within (length f.job.now) l) × (Within (length f.job.now) r) × (Fits n) }
{
    let job = f.job;
    let mut lstarts = [0u32; 4098];
    let mut lstems = [0.0f64; 2048];
    let mut litems = [0u32; 65537];
    let mut lcoords = [0.0f64; 2048];
    decode_tree(job, l, &mut lstarts, &mut lstems, &mut litems, &mut lcoords);
    let mut rstarts = [0u32; 4098];
    let mut rstems = [0.0f64; 2048];
    let mut ritems = [0u32; 65537];
    let mut rcoords = [0.0f64; 2048];
    decode_tree(job, r, &mut rstarts, &mut rstems, &mut ritems, &mut rcoords);
    let trees = Trees {
        k: byte_at(job, 5) as usize,
        left: Tree {
            starts: &lstarts[..n.left.starts],
            stems: &lstems[..n.left.stems],
            items: &litems[..n.left.items],
            coords: &lcoords[..n.left.coords],
        },
        right: Tree {
            starts: &rstarts[..n.right.starts],
            stems: &rstems[..n.right.stems],
            items: &ritems[..n.right.items],
            coords: &rcoords[..n.right.coords],
        },
    };
    called(mode, f64_at(job, 8), &trees, n, f)
}

// One job whose first 16 bytes are right: whether its call goes as recorded.
fn job_same(f: Frame<'_>, mode: Mode) -> bool
    requires { (16 ≤ length f.job.now) × (length f.job.now ≤ 16384) }
{
    let job = f.job;
    let k = byte_at(job, 5) as usize;
    let Some(l) = lay(job, 16, k) else {
        return false;
    };
    let Some(r) = lay(job, l.end, k) else {
        return false;
    };
    if r.end != job.len() {
        return false;
    }
    let Some(n) = changed(own(l, r, f.room), f.buffer, f.lent) else {
        return false;
    };
    fits(n) && decoded(f, mode, l, r, n)
}

// The join that a record asks for. One that no mode can be read of counts as different.
fn join_counted(f: Frame<'_>, t: &mut Tally) {
    match mode_of(f.job) {
        Some(mode) => t.join(Some(mode), job_same(f, mode)),
        None => t.join(None, false),
    }
}

// All records of the input, one after the other. After one that is broken nothing can be read: its text counts as different, and its join as one that cannot be read.
pub fn replay(s: &[u8]) -> Tally {
    let mut t = Tally::default();
    let mut rest = s;
    // A while: how long a record is, is known when it is read.
    while !rest.is_empty() {
        let Some(f) = framed(rest) else {
            t.texts.count(false);
            t.join(None, false);
            return t;
        };
        t.texts.count(text_same(f.job, f.text));
        join_counted(f, &mut t);
        rest = f.rest;
    }
    t
}
