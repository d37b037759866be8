// A job cut short, and with one bit changed.
ghost use Rattle.std.specs.Prelude.{◌*◌, ◌<◌, ◌≤◌, length};

use crate::show::show;
use std::io;

// Every prefix but the whole.
fn prefixes(rt: &impl Print, job: &[u8]) -> io::Result<()> {
    for n in 0..job.len() {
        show(rt, "prefix", n as u64, &job[..n])?;
    }
    Ok(())
}

// The byte with bit k changed.
fn flipped(byte: u8, k: usize) -> u8
    requires { k < 8 }
{
    byte ^ (1u8 << k)
}

// Bit b changed, and changed back.
fn bit(rt: &impl Print, job: &mut [u8], b: usize) -> io::Result<()>
    requires { b < 8 * length job.old }
{
    let i = b / 8;
    let kept = job[i];
    job[i] = flipped(kept, b % 8);
    let shown = show(rt, "bit", b as u64, job);
    job[i] = kept;
    shown
}

// Every bit.
fn bits(rt: &impl Print, job: &mut [u8]) -> io::Result<()>
    requires { length job.old ≤ 131072 }
{
    for b in 0..8 * job.len() {
        bit(rt, &mut *job, b)?;
    }
    Ok(())
}

// A job in every way that it can be cut short, and with every bit changed.
pub fn changed(rt: &impl Print, job: &mut [u8]) -> io::Result<()>
    requires { length job.old ≤ 131072 }
{
    prefixes(rt, job)?;
    bits(rt, job)
}
