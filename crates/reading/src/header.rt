// The first 16 bytes: mark, version, K, mode, a zero byte, radius.
ghost use Rattle.std.specs.Prelude.{◌≡◌, ◌≤◌, true, false, length, MatchOption, MatchResult};
ghost use Rattle.reading.specs.Header.{mode, size_ok, mark_ok, version_ok, mode_ok, axes_ok, header_refusal};
ghost use Rattle.reading.specs.BadJob.{number_of};
ghost use Rattle.reading.specs.Mode.{mode_number};

use crate::bad_job::BadJob;
use crate::little::{u16_at, u64_at};
use crate::mode::Mode;

// Neither too short for a header nor above the limit.
fn size_ok(s: &[u8]) -> bool
    ensures { result ≡ size_ok s.now }
{
    (16..=16384).contains(&s.len())
}

// KDJ.
fn mark_ok(s: &[u8]) -> bool
    requires { 16 ≤ length s.now }
    ensures { result ≡ mark_ok s.now }
{
    s.starts_with(b"KDJ")
}

// The one version that there is.
fn version_ok(s: &[u8]) -> bool
    requires { 16 ≤ length s.now }
    ensures { result ≡ version_ok s.now }
{
    u16_at(s, 3) == 1
}

// The mode, where there is such a one, the spare byte is zero, and nearest has no radius.
pub fn mode_at(s: &[u8]) -> Option<Mode>
    requires { 16 ≤ length s.now }
    ensures { MatchOption result (mode_ok s.now ≡ false) (λ m. (mode_ok s.now ≡ true) × (mode_number m ≡ mode s.now)) }
{
    let mode = Mode::try_from(s[6]).ok()?;
    (s[7] == 0 && (mode != Mode::Nearest || u64_at(s, 8) == 0)).then_some(mode)
}

// K is 1 to 4.
fn axes_ok(s: &[u8]) -> bool
    requires { 16 ≤ length s.now }
    ensures { result ≡ axes_ok s.now }
{
    (1..=4).contains(&s[5])
}

// The mode, or the first rule broken.
#[tactic(auto, unfolding(crate::specs::Header::header_refusal))]
pub fn check_header(s: &[u8]) -> Result<Mode, BadJob>
    ensures { MatchResult result (λ m. (header_refusal s.now ≡ 0) × (mode_number m ≡ mode s.now)) (λ e. number_of e ≡ header_refusal s.now) }
{
    if !size_ok(s) {
        return Err(BadJob::Size);
    }
    if !mark_ok(s) {
        return Err(BadJob::Mark);
    }
    if !version_ok(s) {
        return Err(BadJob::Version);
    }
    let Some(mode) = mode_at(s) else {
        return Err(BadJob::Mode);
    };
    if !axes_ok(s) {
        return Err(BadJob::Axes);
    }
    Ok(mode)
}
