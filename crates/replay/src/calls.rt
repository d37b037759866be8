// The call that a job asks for, and whether it went as recorded.
ghost use Rattle.replay.specs.Fits.{Fits};

use crate::compare::{EMPTY, FAR};
use crate::frame::Frame;
use crate::lengths::Lengths;
use cursor::Trees;
use metric::Within;
use reading::Mode;

// Pairs into rooms of the given lengths: whether the answer, what is stored and what is not touched are as recorded.
fn pairs_same(trees: &Trees, within: Within, n: Lengths, f: Frame<'_>) -> bool
    requires { Fits n }
{
    let mut lout = [EMPTY; 1025];
    let mut rout = [EMPTY; 1025];
    let mut dout = [FAR; 1025];
    let told = join::pairs(
        trees,
        within,
        &mut lout[..n.lout],
        &mut rout[..n.rout],
        &mut dout[..n.dout],
    );
    crate::compare::answer(told, f.answer) && crate::compare::rooms(f.pairs, &lout, &rout, &dout)
}

// Counts: no pair is recorded.
fn counts_same(trees: &Trees, within: Within, f: Frame<'_>) -> bool {
    crate::compare::answer(join::counts(trees, within), f.answer) && f.pairs.is_empty()
}

// Nearest into rooms of the given lengths. There is no room for left items: a record has the filling there.
fn nearest_same(trees: &Trees, n: Lengths, f: Frame<'_>) -> bool
    requires { Fits n }
{
    let none = [EMPTY; 1025];
    let mut items = [EMPTY; 1025];
    let mut dists = [FAR; 1025];
    let told = join::nearest(trees, &mut items[..n.rout], &mut dists[..n.dout]);
    crate::compare::answer(told, f.answer) && crate::compare::rooms(f.pairs, &none, &items, &dists)
}

// The call by its mode, over lent trees.
pub fn called(mode: Mode, radius: f64, trees: &Trees, n: Lengths, f: Frame<'_>) -> bool
    requires { Fits n }
{
    match mode {
        Mode::Pairs(edge) => pairs_same(trees, Within { radius, edge }, n, f),
        Mode::Counts(edge) => counts_same(trees, Within { radius, edge }, f),
        Mode::Nearest => nearest_same(trees, n, f),
    }
}
