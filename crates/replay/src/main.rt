// Replays a recorded sample of joins without Rust: each record of standard input is a job, the rooms it is called with, the answer that the Rust gave, and the text that the job prints.
// The program makes the same call of `join`, compares the answer and the rooms bit for bit, and writes how many joins of each kind were made and how many differ.
// It also runs `job` on each record's job, whatever its rooms, and compares the bytes printed with the text: that is counted apart.
//
// A record, little-endian: job length u32 (at most 16,384), room u32 (at most 1,024), a buffer u32, a length u32 and the text's length u32; the job; then the answer: number u32, side u32,
// found u64, visits u64, measured u64, ruled out u64, whole u64; then the first pairs found, as many as the room holds: left u32, right u32, distance bits u64; then the text.
// The job is as the job program reads it: KDJ, version u16 = 1, K, mode, a zero byte, radius f64, then both trees. A count's room is 0.
// Nearest (mode 4) finds an answer for each left place: where a pair has its left item, an answer has the number that rooms are filled with.
// Buffer 0 changes nothing. 1 to 4 (left starts, stems, items, coordinates), 5 to 8 (the right's) and 9 to 11 (the rooms for left items, right items, distances)
// name one buffer that is lent at the length given, not at its own: so refusals 2, 3 and 8 come about, which no job can ask for.
//
// The records and the lines to be written are made by `oracle/src/bin/record.rs` from the Rust's own walk; oracle/README.md says how. A record that cannot be read counts as different.
#![tactic(auto)]

mod calls;
mod compare;
mod frame;
mod lengths;
mod mode;
mod print;
mod record;
mod tally;
mod text;

ghost use Rattle.std.specs.Io.{ReadsAtMost};

use intake::read_full;
use std::io;

// All of the input. The array is lent as such: a proof over so many zeros themselves would take its time.
fn fill(from: &mut io::Stdin, input: &mut [u8; 1048576]) -> io::Result<usize>
    ensures { ReadsAtMost result input.new }
{
    read_full(from, input)
}

fn main(rt: HostRuntime) -> io::Result<()> {
    let mut input = [0u8; 1048576];
    let n = fill(&mut rt.stdin(), &mut input)?;
    let t = crate::record::replay(&input[..n]);
    crate::print::lines(&rt, t)
}
