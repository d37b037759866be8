// Squared Euclidean distance in binary64, boxes with their bounds, and the edge rules (kiddo: squared_euclidean, metric.rs).
#![tactic(auto)]

ghost use Rattle.std.specs.Prelude.{◌≡◌};
ghost use Rattle.std.specs.Float.{binary64};
ghost use Rattle.std.specs.Float.Ieee.Scale.{finite as finite_number};
ghost use Rattle.rounding.specs.Distance.{dist1, distance as distance_of_rows};
ghost use Rattle.written.specs.Check.{is_top};
ghost use Rattle.metric.specs.Lent.{HoldsPlace, point_at};

mod boxes;
mod within;

pub use crate::boxes::{Boxes, lowered, raised};
pub use crate::within::{Edge, Within};

// One axis of a distance (the source's `dist1`).
pub fn square(a: f64, b: f64) -> f64
    ensures { result ≡ dist1 binary64 a b }
{
    let gap = a - b;
    gap * gap
}

// The squared distance of two places, axis d of the place p standing at d * n + p: summed from 0 in axis order.
pub fn distance(
    k: usize,
    lcoords: &[f64],
    ln: usize,
    p: usize,
    rcoords: &[f64],
    rn: usize,
    q: usize,
) -> f64
    requires { HoldsPlace k lcoords.now ln p × HoldsPlace k rcoords.now rn q }
    ensures { result ≡ distance_of_rows binary64 (point_at lcoords.now ln p) (point_at rcoords.now rn q) k }
{
    let mut sum = 0.0;
    for d in 0..k {
        sum = sum + square(lcoords[d * ln + p], rcoords[d * rn + q]);
    }
    sum
}

// Neither NaN nor infinite: not NaN, and the exponent's field is not all ones.
pub fn finite(x: f64) -> bool
    ensures { result ≡ finite_number x }
{
    if x != x {
        return false;
    }
    let exponent = f64::to_bits(x) / 0x10_0000_0000_0000 % 2048;
    exponent != 2047
}

// Is +inf: a pivot with no far half.
pub fn is_top(x: f64) -> bool
    ensures { result ≡ is_top x }
{
    x == f64::INFINITY
}
