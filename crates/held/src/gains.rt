// Whether a left leaf can gain from a right one. About half of the leaf pairs measured change no answer, and it costs little to see: no point of a box is nearer than the box.
ghost use Rattle.std.specs.Prelude.{◌≡◌, ◌≤◌, length};
ghost use Rattle.metric.specs.Flat.{boxes_of};
ghost use Rattle.metric.specs.Lent.{HoldsPlace, point_at};
ghost use Rattle.held.specs.Apart.{apart, Places, gains_at, one_of};

use cursor::Columns;
use metric::Boxes;

// The squared distance of the left place p to the right box.
fn apart(k: usize, left: &Columns, p: usize, boxes: &Boxes) -> f64
    requires { (k ≤ 4) × HoldsPlace k left.now.coords.now left.now.n p }
    ensures { result ≡ apart k (boxes_of boxes.now.min boxes.now.max) (point_at left.now.coords.now left.now.n p) }
{
    let mut sum = 0.0;
    for d in 0..k {
        let e = 4 + d;
        let x = left.coords[d * left.n + p];
        let side = metric::lowered(boxes.max[e], metric::raised(boxes.min[e], x));
        sum += metric::square(x, side);
    }
    sum
}

// The right box is nearer to a left place, from ls on, than what it holds.
pub fn gains(k: usize, left: &Columns, ls: usize, boxes: &Boxes, dists: &[f64]) -> bool
    requires { Places k left.now.coords.now left.now.n ls (length dists.now) }
    ensures { result ≡ one_of (gains_at k left.now.coords.now left.now.n ls (boxes_of boxes.now.min boxes.now.max) dists.now) (length dists.now) }
{
    // Read as a number of the machine, it bounds each place.
    let _n = left.n;
    for (i, held) in dists.iter().enumerate() {
        if apart(k, left, ls + i, boxes) < *held {
            return true;
        }
    }
    false
}
