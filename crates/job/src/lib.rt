// The job program as a function: the bytes of a job in, the bytes of its text out. Added by the port.
#![tactic(auto)]

ghost use Rattle.std.specs.Prelude.{◌≡◌, MatchResult};
ghost use Rattle.reading.specs.BadJob.{number_of};
ghost use Rattle.reading.specs.Mode.{mode_number};
ghost use Rattle.reading.specs.Header.{mode, radius, trees, job_refusal};
ghost use Rattle.job.specs.Printed.{join_text};
ghost use Rattle.job.specs.Shown.{Taken, Prints, Ran};

use cursor::{Tree, Trees};
use reading::{BadJob, Layout, Mode, byte_at, check_header, decode, f64_at, lay};

mod modes;
mod told;

// Both trees taken out of the job, and joined.
fn joined(s: &[u8], asked: Mode, l: Layout, r: Layout, out: &mut [u8]) -> usize
    requires { (mode_number asked ≡ mode s.now) × Taken s.now l r }
    ensures { Prints out.old (join_text (trees s.now) (mode s.now) (radius s.now)) out.new result }
{
    let mut lstarts = [0u32; 4096];
    let mut lstems = [0.0f64; 2048];
    let mut litems = [0u32; 4096];
    let mut lcoords = [0.0f64; 2048];
    decode(s, l, &mut lstarts, &mut lstems, &mut litems, &mut lcoords);
    let mut rstarts = [0u32; 4096];
    let mut rstems = [0.0f64; 2048];
    let mut ritems = [0u32; 4096];
    let mut rcoords = [0.0f64; 2048];
    decode(s, r, &mut rstarts, &mut rstems, &mut ritems, &mut rcoords);
    let trees = Trees {
        k: byte_at(s, 5) as usize,
        left: Tree {
            starts: &lstarts[..l.starts.len],
            stems: &lstems[..l.stems.len],
            items: &litems[..l.items.len],
            coords: &lcoords[..l.coords.len],
        },
        right: Tree {
            starts: &rstarts[..r.starts.len],
            stems: &rstems[..r.stems.len],
            items: &ritems[..r.items.len],
            coords: &rcoords[..r.coords.len],
        },
    };
    crate::modes::join_text(asked, f64_at(s, 8), &trees, out)
}

// The mode and where both trees lie, or the first rule that the job breaks.
fn parsed(s: &[u8]) -> Result<(Mode, Layout, Layout), BadJob>
    ensures { MatchResult result (λ found. (job_refusal s.now ≡ 0) × (mode_number found.0 ≡ mode s.now) × Taken s.now found.1 found.2) (λ e. number_of e ≡ job_refusal s.now) }
{
    let asked = check_header(s)?;
    let k = byte_at(s, 5) as usize;
    let l = lay(s, 16, k).ok_or(BadJob::Length)?;
    let r = lay(s, l.end, k).ok_or(BadJob::Length)?;
    if r.end != s.len() {
        return Err(BadJob::Length);
    }
    Ok((asked, l, r))
}

// The text of a job: its bytes go to the start of out, as far as there is room, and the answer is how many there are.
pub fn run(s: &[u8], out: &mut [u8]) -> usize
    ensures { Ran s.now out.old out.new result }
{
    match parsed(s) {
        Ok((asked, l, r)) => joined(s, asked, l, r, out),
        Err(e) => printing::refused(out, e.number(), 0),
    }
}
