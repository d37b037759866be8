// From a length to a radius.
ghost use Rattle.std.specs.Prelude.{◌≡◌};
ghost use Rattle.written.specs.Spacing.{radius_of};

// r * r, rounded once, whatever r is; every NaN is one answer.
pub fn radius_of(r: f64) -> f64
    ensures { result ≡ radius_of r }
{
    r * r
}
