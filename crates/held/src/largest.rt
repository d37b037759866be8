// Whether a bound is below the largest distance held (kiddo: nearest.rs, `candidate_upper`). The largest itself is never asked for: the scan stops at the first distance that the bound is below.
ghost use Rattle.std.specs.Prelude.{◌≡◌};
ghost use Rattle.written.specs.Boxes.{under, beyond};
ghost use Rattle.held.specs.Largest.{largest_of};

// The bound is not below the largest of these distances, 0 where there are none.
pub fn not_below(dists: &[f64], bound: f64) -> bool
    ensures { result ≡ beyond under (largest_of dists.now) bound }
{
    !dists.iter().any(|d| bound < *d) && 0.0 <= bound
}
