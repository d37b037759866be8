// All of an input, or as much of it as there is room for.
#![tactic(auto)]

ghost use Rattle.std.specs.Prelude.{◌≡◌, ◌<◌, IfOk, OnErr, take, length};
ghost use Rattle.std.specs.Io.{ReadsAtMost};
ghost use Rattle.std.specs.Io.KnownBytes.{Consumes, IsAtEnd};
ghost use Rattle.intake.specs.Cut.{LosesFront};

use std::io;

// Reads until there is no room or the input ends, and answers how many bytes it put in front. The one error is a read's that failed: then the bytes read before it stand in front.
pub fn read_full<R: io::Read>(from: &mut R, out: &mut [u8]) -> io::Result<usize>
    ensures read { ReadsAtMost result out.new }
    ensures len { length out.new ≡ length out.old }
    ensures bytes { IfOk result (λ n. Consumes (R.remaining from.old) (R.remaining from.new) (take n out.new)) }
    ensures end { IfOk result (λ n. n < length out.new → IsAtEnd (R.remaining from.new)) }
    ensures err { OnErr result (LosesFront (R.remaining from.old) (R.remaining from.new) out.new) }
{
    let mut done = 0;
    // A loop over read: std's read_exact says nothing of what it read before an error, and read_to_end fills a Vec, which needs a heap.
    while done < out.len() {
        let more = from.read(&mut out[done..])?;
        if more == 0 {
            return Ok(done);
        }
        done += more;
    }
    Ok(done)
}
