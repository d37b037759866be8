// An answer as text.
ghost use Rattle.std.specs.Prelude.{◌≡◌};
ghost use Rattle.printing.specs.Rows.{rows};
ghost use Rattle.join.specs.Answering.{answer_of};
ghost use Rattle.job.specs.Printed.{answer_text};
ghost use Rattle.job.specs.Shown.{lines_of, Printable, Prints};

use join::Refusal;
use steps::Tally;

// How many lines an answer has: one for each found, none where it is refused.
pub fn shown(answer: Result<Tally, Refusal>) -> usize
    ensures { result ≡ lines_of answer }
{
    answer.map_or(0, |tally| tally.found as usize)
}

// The first line, a line for each of the first n places, the totals; or the refusal alone.
pub fn told(
    out: &mut [u8],
    kind: &[u8],
    answer: Result<Tally, Refusal>,
    n: usize,
    lefts: &[u32],
    rights: &[u32],
    distances: &[f64],
) -> usize
    requires { Printable n kind.now lefts.now rights.now distances.now }
    ensures { Prints out.old (answer_text kind.now (answer_of answer) (rows n lefts.now rights.now distances.now)) out.new result }
{
    match answer {
        Ok(tally) => {
            let body = printing::head(&mut *out, kind, tally.found);
            let end = printing::lines(&mut *out, body, n, lefts, rights, distances);
            printing::totals(
                &mut *out,
                end,
                tally.visits,
                tally.measured,
                tally.ruled,
                tally.whole,
            )
        }
        Err(refusal) => printing::refused(out, refusal.number(), refusal.side()),
    }
}
