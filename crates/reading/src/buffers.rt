// The buffers of a tree, from its bytes.
ghost use Rattle.std.specs.Prelude.{◌≡◌, ◌+◌, ◌*◌, ◌≤◌, length, take};
ghost use Rattle.reading.specs.Little.{in_a_row};
ghost use Rattle.reading.specs.Lays.{Within};
ghost use Rattle.reading.specs.Held.{Roomy, Holds};

use crate::layout::{Layout, Part};
use crate::little::Little;

// One part, one value after the other.
fn fill<T: Little>(s: &[u8], part: Part, out: &mut [T])
    requires { (part.at + T.WIDTH * part.len ≤ length s.now) × (part.len ≤ length out.old) }
    ensures { take part.len out.new ≡ in_a_row T.WIDTH (T.value s.now) part.at part.len }
{
    // By index: after an `iter_mut` a proof knows no element that was written.
    for i in 0..part.len {
        out[i] = T::at(s, part.at + T::WIDTH * i);
    }
}

// The four buffers of one tree, side by side: fixed memory, and a struct of four `&mut` would have to promise that it still holds the same four.
pub fn decode(
    s: &[u8],
    l: Layout,
    starts: &mut [u32],
    stems: &mut [f64],
    items: &mut [u32],
    coords: &mut [f64],
)
    requires { (Within (length s.now) l) × (Roomy l starts.old stems.old items.old coords.old) }
    ensures { Holds s.now l starts.new stems.new items.new coords.new }
{
    fill(s, l.starts, starts);
    fill(s, l.stems, stems);
    fill(s, l.items, items);
    fill(s, l.coords, coords);
}
