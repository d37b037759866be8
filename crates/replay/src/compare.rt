// What a call answered and left in its rooms, against what is recorded.
ghost use Rattle.std.specs.Prelude.{◌≡◌, true, ◌+◌, ◌*◌, ◌/◌, ◌≤◌, length};
ghost use Rattle.replay.specs.Same.{Bits, PairAt, Stored, Empty, Untouched};
ghost use Rattle.join.specs.Answering.{answer_of, flat_of};
ghost use Rattle.replay.specs.Recorded.{Recorded};

use join::{Answer, Refusal};
use reading::{u32_at, u64_at};
use steps::Tally;

// What the rooms are filled with before a call. No recorded item is this number (a nearest answer has it for the left item, which has no room), and no distance is negative.
pub const EMPTY: u32 = 0xe4e4_e4e4;

pub const FAR: f64 = -12345.0;

const FAR_BITS: u64 = 0xc0c8_1c80_0000_0000;

// The answer that a record holds.
fn recorded(s: &[u8]) -> Answer
    requires { 48 ≤ length s.now }
    ensures { Recorded s.now (flat_of result) }
{
    Answer {
        number: u32_at(s, 0),
        side: u32_at(s, 4),
        tally: Tally {
            found: u64_at(s, 8),
            visits: u64_at(s, 16),
            measured: u64_at(s, 24),
            ruled: u64_at(s, 32),
            whole: u64_at(s, 40),
        },
    }
}

// Whether an answer is the one that a record holds.
pub fn answer(told: Result<Tally, Refusal>, s: &[u8]) -> bool
    ensures { result ≡ true → Recorded s.now (answer_of told) }
{
    48 <= s.len() && Answer::of(told) == recorded(s)
}

// A NaN is no recorded distance.
fn same_bits(x: f64, bits: u64) -> bool
    ensures { result ≡ true → Bits x bits }
{
    !x.is_nan() && f64::to_bits(x) == bits
}

// Whether a stored pair is the one recorded at a place.
fn same_pair(s: &[u8], at: usize, left: u32, right: u32, distance: f64) -> bool
    requires { at + 16 ≤ length s.now }
    ensures { result ≡ true → PairAt s.now at left right distance }
{
    left == u32_at(s, at) && right == u32_at(s, at + 4) && same_bits(distance, u64_at(s, at + 8))
}

// Whether the first n places hold the recorded pairs.
fn stored(s: &[u8], n: usize, l: &[u32; 1025], r: &[u32; 1025], d: &[f64; 1025]) -> bool
    requires { (16 * n ≤ length s.now) × (n ≤ 1025) }
    ensures { result ≡ true → Stored s.now n l.now r.now d.now }
{
    // A loop here and in `untouched`: tried with `all`, `search` does not prove what is returned.
    for i in 0..n {
        if !same_pair(s, 16 * i, l[i], r[i], d[i]) {
            return false;
        }
    }
    true
}

// Whether a place is as it was filled.
fn empty(left: u32, right: u32, distance: f64) -> bool
    ensures { result ≡ true → Empty left right distance }
{
    left == EMPTY && right == EMPTY && same_bits(distance, FAR_BITS)
}

// Whether the places from n on hold what they were filled with.
fn untouched(n: usize, l: &[u32; 1025], r: &[u32; 1025], d: &[f64; 1025]) -> bool
    ensures { result ≡ true → Untouched n l.now r.now d.now }
{
    for i in n..1025 {
        if !empty(l[i], r[i], d[i]) {
            return false;
        }
    }
    true
}

// The pairs that a record holds fill the rooms from their first place, and nothing else is stored.
pub fn rooms(s: &[u8], l: &[u32; 1025], r: &[u32; 1025], d: &[f64; 1025]) -> bool
    ensures stored { result ≡ true → Stored s.now (length s.now / 16) l.now r.now d.now }
    ensures untouched { result ≡ true → Untouched (length s.now / 16) l.now r.now d.now }
{
    let n = s.len() / 16;
    n <= 1025 && stored(s, n, l, r, d) && untouched(n, l, r, d)
}
