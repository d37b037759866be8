// The records of the input.
ghost use Rattle.std.specs.Prelude.{◌≡◌, ◌+◌, ◌++◌, ◌≤◌, IfSome, length, take};

use crate::changes::changed;
use crate::show::show;
use reading::u32_at;
use std::io;

// The job of the first record, and what follows it; none where the input ends before the record does.
fn record(s: &[u8]) -> Option<(&[u8], &[u8])>
    ensures parts { IfSome result (λ r. s.now ≡ take 4 s.now ++ (r.0.now ++ r.1.now)) }
    ensures len { IfSome result (λ r. 4 + (length r.0.now + length r.1.now) ≡ length s.now) }
{
    let (size, rest) = s.split_at_checked(4)?;
    rest.split_at_checked(u32_at(size, 0) as usize)
}

// Every job in order; whether the input ends where a record does.
pub fn all(rt: &impl Print, s: &[u8]) -> io::Result<bool> {
    let mut rest = s;
    let mut i = 0;
    // i numbers the jobs, it indexes nothing; how long a record is, is known when it is read.
    while !rest.is_empty() {
        let Some((job, after)) = record(rest) else {
            rt.println("cut short")?;
            return Ok(false);
        };
        show(rt, "job", i, job)?;
        rest = after;
        i += 1;
    }
    Ok(true)
}

// The first job, cut short and changed.
pub fn first(rt: &impl Print, s: &mut [u8]) -> io::Result<()>
    requires { length s.old ≤ 131072 }
{
    let Some((job, _)) = record(s) else {
        return Ok(());
    };
    let end = 4 + job.len();
    changed(rt, &mut s[4..end])
}
