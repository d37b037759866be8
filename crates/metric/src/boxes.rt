// Two boxes, one for each side, narrowed by the pivots passed, with their lower and upper bound.
ghost use Rattle.std.specs.Prelude.{◌≡◌, ◌≤◌};
ghost use Rattle.std.specs.Float.{binary64};
ghost use Rattle.rounding.specs.Bounds.{gap1, reach1, bounded as bounded_sides};
ghost use Rattle.written.specs.Boxes.{everywhere as everywhere_boxes, lowered_to, raised_to, lower as lower_bound, upper as upper_bound};
ghost use Rattle.metric.specs.Flat.{boxes_of};

use crate::{finite, square};

// Both boxes, flat: the left side's axis d stands at d, the right side's at 4 + d.
#[derive(Clone, Copy)]
pub struct Boxes {
    pub min: [f64; 8],
    pub max: [f64; 8],
}

// A side's max lowered to the pivot, never assigned: the pivot may lie outside the box.
pub fn lowered(max: f64, pivot: f64) -> f64
    ensures { result ≡ lowered_to pivot max }
{
    if pivot < max { pivot } else { max }
}

pub fn raised(min: f64, pivot: f64) -> f64
    ensures { result ≡ raised_to pivot min }
{
    if pivot > min { pivot } else { min }
}

// One axis of the lower bound: the square of the gap, 0 where the boxes meet. The left max is tested first.
fn gap(lmin: f64, lmax: f64, rmin: f64, rmax: f64) -> f64
    ensures { result ≡ gap1 binary64 lmin lmax rmin rmax }
{
    if lmax < rmin {
        square(lmax, rmin)
    } else if rmax < lmin {
        square(rmax, lmin)
    } else {
        0.0
    }
}

// One axis of the upper bound: the larger of the two squared end differences.
fn reach(lmin: f64, lmax: f64, rmin: f64, rmax: f64) -> f64
    ensures { result ≡ reach1 binary64 lmin lmax rmin rmax }
{
    let a = square(lmin, rmax);
    let b = square(lmax, rmin);
    if a > b { a } else { b }
}

fn bounded(lmin: f64, lmax: f64, rmin: f64, rmax: f64) -> bool
    ensures { result ≡ bounded_sides lmin lmax rmin rmax }
{
    finite(lmin) && finite(lmax) && finite(rmin) && finite(rmax)
}

impl Boxes {
    // -inf and +inf on each axis of each side.
    pub fn everywhere() -> Self
        ensures { boxes_of result.min result.max ≡ everywhere_boxes }
    {
        Self {
            min: [f64::NEG_INFINITY; 8],
            max: [f64::INFINITY; 8],
        }
    }

    // The box lower bound: no two points of the boxes are nearer.
    pub fn lower(&self, k: usize) -> f64
        requires { k ≤ 4 }
        ensures { result ≡ lower_bound k (boxes_of self.now.min self.now.max) }
    {
        let mut sum = 0.0;
        for d in 0..k {
            let e = 4 + d;
            sum = sum + gap(self.min[d], self.max[d], self.min[e], self.max[e]);
        }
        sum
    }

    // A loop of its own beside `lower`: one axis gives something else, and the first open side ends it.
    // The upper bound: no two points of the boxes are farther; +inf unless all sides are finite.
    pub fn upper(&self, k: usize) -> f64
        requires { k ≤ 4 }
        ensures { result ≡ upper_bound k (boxes_of self.now.min self.now.max) }
    {
        let mut sum = 0.0;
        for d in 0..k {
            let e = 4 + d;
            let lmin = self.min[d];
            let lmax = self.max[d];
            let rmin = self.min[e];
            let rmax = self.max[e];
            if !bounded(lmin, lmax, rmin, rmax) {
                return f64::INFINITY;
            }
            sum = sum + reach(lmin, lmax, rmin, rmax);
        }
        sum
    }
}
