// Runs recorded jobs and writes their texts, for the gate. Standard input holds records: a length (u32, little-endian) and a job of that many bytes.
// Each job's text follows a line `job` with its number, from 0. Then the first job (example A1) is cut short and changed in every way there is:
// each prefix after a line `prefix` with its length, and each change of one bit after a line `bit` with its number, the lowest bit of the first byte being 0.
// Where the input ends before a record does, a line `cut short` is the last.
// The jobs and their texts were made by a reading of the rules in Rust; oracle/README.md says how.
#![tactic(auto)]

mod changes;
mod records;
mod show;

use intake::read_full;
use std::io;

fn main(rt: HostRuntime) -> io::Result<()> {
    let mut input = [0u8; 131072];
    let n = read_full(&mut rt.stdin(), &mut input)?;
    if crate::records::all(&rt, &input[..n])? {
        crate::records::first(&rt, &mut input[..n])?;
    }
    Ok(())
}
