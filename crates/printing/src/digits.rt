// The digits of a number, in ASCII.
ghost use Rattle.std.specs.Prelude.{◌≡◌, ◌<◌, ◌≤◌, length, take};
ghost use Rattle.printing.specs.Digits.{hex_digit_ascii, last_digits, IsDigitCount};

// How many digits n takes in a base, or `width` where that is more. 0 has no logarithm, and takes one digit.
fn count(n: u64, base: u64, width: usize) -> usize
    requires some { 1 < base }
    requires padded { 0 < width }
    ensures { IsDigitCount base width n result }
{
    n.checked_ilog(base)
        .map_or(1, |k| k as usize + 1)
        .max(width)
}

// A digit: `0` to `9`, then `a` to `f`.
fn ascii(d: u64) -> u8
    requires { d < 16 }
    ensures { result ≡ hex_digit_ascii d }
{
    if d < 10 {
        b'0' + d as u8
    } else {
        b'a' - 10 + d as u8
    }
}

// The last k digits of n in a base, the most significant first, at the start of out.
fn store(n: u64, base: u64, k: usize, out: &mut [u8])
    requires some { 0 < base }
    requires few { base ≤ 16 }
    requires in_bounds { k ≤ length out.old }
    ensures { take k out.new ≡ last_digits base k n }
{
    let mut rest = n;
    // By index: after a loop over `iter_mut` a proof knows no element of out.
    for i in (0..k).rev() {
        out[i] = ascii(rest % base);
        rest /= base;
    }
}

// The decimal digits of n, at the start of out.
pub fn decimal_digits(n: u64, out: &mut [u8; 20]) -> &[u8]
    ensures in_bounds { length result.now ≤ 20 }
    ensures len { IsDigitCount 10 1 n (length result.now) }
    ensures digits { result.now ≡ last_digits 10 (length result.now) n }
{
    let k = count(n, 10, 1);
    store(n, 10, k, out);
    &out[..k]
}

// The hexadecimal digits of n, in lower case, at the start of out, with zeros in front up to `width` digits.
pub fn hex_digits(n: u64, width: usize, out: &mut [u8; 16]) -> &[u8]
    requires padded { 0 < width }
    requires held { width ≤ 16 }
    ensures in_bounds { length result.now ≤ 16 }
    ensures len { IsDigitCount 16 width n (length result.now) }
    ensures digits { result.now ≡ last_digits 16 (length result.now) n }
{
    let k = count(n, 16, width);
    store(n, 16, k, out);
    &out[..k]
}
