// Numbers as they lie in a file: little-endian, at a place.
ghost use Rattle.std.specs.Prelude.{◌≡◌, ℕ, List, ◌+◌, ◌≤◌, ◌<◌, length, get_or};
ghost use Rattle.reading.specs.Little.{number16, number32, number64, float64, float_of};

// One byte.
pub fn byte_at(s: &[u8], at: usize) -> u32
    requires { at < length s.now }
    ensures { (result ≡ get_or s.now at 0) × (result < 256) }
{
    u32::from(s[at])
}

// The widths by name: each is one line over std's `from_le_bytes`, as its definition has it, so eight bytes are two halves.

// Two bytes.
#[tactic(auto, unfolding(crate::specs::Little::number16))]
pub fn u16_at(s: &[u8], at: usize) -> u32
    requires { at + 2 ≤ length s.now }
    ensures { result ≡ number16 s.now at }
{
    u32::from(u16::from_le_bytes([s[at], s[at + 1]]))
}

// Four bytes.
#[tactic(auto, unfolding(crate::specs::Little::number32))]
pub fn u32_at(s: &[u8], at: usize) -> u32
    requires { at + 4 ≤ length s.now }
    ensures { result ≡ number32 s.now at }
{
    u32::from_le_bytes([s[at], s[at + 1], s[at + 2], s[at + 3]])
}

// Eight bytes, the low half first.
#[tactic(auto, unfolding(crate::specs::Little::number64))]
pub fn u64_at(s: &[u8], at: usize) -> u64
    requires { at + 8 ≤ length s.now }
    ensures { result ≡ number64 s.now at }
{
    u64::from(u32_at(s, at)) + 4294967296 * u64::from(u32_at(s, at + 4))
}

// The float of a bit pattern. No operation makes a NaN of its pattern, so that is tested first.
fn float_of(bits: u64) -> f64
    ensures { result ≡ float_of bits }
{
    let magnitude = bits % 0x8000_0000_0000_0000;
    if magnitude <= 0x7ff0_0000_0000_0000 {
        return f64::from_bits(bits);
    }
    f64::NAN
}

// The float whose pattern lies there.
pub fn f64_at(s: &[u8], at: usize) -> f64
    requires { at + 8 ≤ length s.now }
    ensures { result ≡ float64 s.now at }
{
    float_of(u64_at(s, at))
}

// What lies in a file by its bytes, as many for each value.
pub trait Little: Copy {
    ghost WIDTH: { ℕ };

    // The value at a place of a file.
    ghost value: { List ℕ → ℕ → Self };

    const WIDTH: usize;

    fn at(s: &[u8], at: usize) -> Self
        requires { at + WIDTH ≤ length s.now }
        ensures { result ≡ value s.now at };
}

impl Little for u32 {
    ghost WIDTH = { 4 };

    ghost value = { number32 };

    const WIDTH: usize = 4;

    fn at(s: &[u8], at: usize) -> u32 {
        u32_at(s, at)
    }
}

impl Little for f64 {
    ghost WIDTH = { 8 };

    ghost value = { float64 };

    const WIDTH: usize = 8;

    fn at(s: &[u8], at: usize) -> f64 {
        f64_at(s, at)
    }
}
