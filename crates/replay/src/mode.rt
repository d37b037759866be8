// The mode of a recorded job, if its first bytes are right.
ghost use Rattle.std.specs.Prelude.{◌≤◌, IfSome, IsTrue, length};

use reading::{Mode, mode_at};

// Mark and version 1, in a job within the limit.
fn marked(job: &[u8]) -> bool
    ensures { IsTrue result → (16 ≤ length job.now) × (length job.now ≤ 16384) }
{
    16 <= job.len() && job.len() <= 16384 && job.starts_with(b"KDJ\x01\x00")
}

// The mode of a job whose first 16 bytes are right, but for K.
pub fn mode_of(job: &[u8]) -> Option<Mode>
    ensures { IfSome result (λ _. (16 ≤ length job.now) × (length job.now ≤ 16384)) }
{
    if marked(job) { mode_at(job) } else { None }
}
