// The lines that the program writes.
use crate::tally::{Count, Tally};
use std::io;

// One line: a name and two numbers.
fn line(rt: &impl Print, name: &str, count: Count) -> io::Result<()> {
    let Count { made, different } = count;
    println!(rt; "{name} {made} different {different}")
}

// A line for each kind, and one for all joins.
pub fn lines(rt: &impl Print, t: Tally) -> io::Result<()> {
    line(rt, "pairs up to: joins", t.pairs_up_to)?;
    line(rt, "pairs under: joins", t.pairs_under)?;
    line(rt, "counts up to: joins", t.counts_up_to)?;
    line(rt, "counts under: joins", t.counts_under)?;
    line(rt, "nearest: joins", t.nearest)?;
    line(rt, "texts: jobs", t.texts)?;
    line(rt, "unreadable: joins", t.unreadable)?;
    line(rt, "all: joins", t.joins())
}
