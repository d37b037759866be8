// The answers at the start of the walk.
ghost use Rattle.std.specs.Prelude.{◌≡◌, length, replicate};
ghost use Rattle.written.specs.Nearest.{unset};
ghost use Rattle.leafnearest.specs.Answers.{answers};

// Item 0 and +inf for each left place.
pub fn clear(items: &mut [u32], dists: &mut [f64])
    requires { length dists.old ≡ length items.old }
    ensures { answers items.new dists.new ≡ replicate (length items.old) unset }
{
    let top = 1.0 / 0.0;
    // One loop for both: `items.fill(0)` is a call of memset, and the archive for C needs no name from outside.
    for i in 0..items.len() {
        items[i] = 0;
        dists[i] = top;
    }
}
