// The squared distances of one point to the points of a tile, axis by axis, up to the last axis, which the loops add themselves.
ghost use Rattle.std.specs.Prelude.{◌-◌, ◌≤◌, cond, length, get_or};
ghost use Rattle.std.specs.Float.{nan};
ghost use Rattle.rounding.specs.Distance.{zero₊};
ghost use Rattle.leaf.specs.Sums.{Holds, grown, sum_to, Fresh, PointTile};

use cursor::{Columns, Places};

// One axis more of the distances: where it is the FIRST, the sums begin at 0. The row comes as a slice, since lending the array as one tells the proof how long it is.
fn add_axis<const FIRST: bool>(sums: &mut [f64], q: f64, column: &[f64])
    requires { length column.now ≤ length sums.old }
    ensures { Holds sums.new (length column.now) (λ j. grown (cond FIRST zero₊ (get_or sums.old j nan)) q (get_or column.now j nan)) }
{
    // By index: over `column.iter()` the machine code gets an instruction more, and the loops behind it were measured slower where they came to lie.
    for j in 0..column.len() {
        let sum = if FIRST { 0.0 } else { sums[j] };
        sums[j] = sum + metric::square(q, column[j]);
    }
}

// All axes but the last, of the place p of one tree's columns against a tile of the other's. With one axis nothing is to be done: the sums are 0, and are never cleared for a point.
pub fn first_axes(
    sums: &mut [f64; 32],
    k: usize,
    one: &Columns,
    p: usize,
    many: &Columns,
    tile: Places,
)
    requires { PointTile k sums.old one.now.coords.now one.now.n p many.now.coords.now many.now.n tile.from tile.to }
    ensures holds { Holds sums.new (tile.to - tile.from) (sum_to one.now.coords.now one.now.n p many.now.coords.now many.now.n tile.from (k - 1)) }
    ensures fresh { Fresh k sums.new }
{
    if k == 1 {
        return;
    }
    add_axis::<true>(sums, one.coords[p], many.tile(0, tile));
    for d in 1..k - 1 {
        let at = d * one.n + p;
        add_axis::<false>(sums, one.coords[at], many.tile(d, tile));
    }
}
