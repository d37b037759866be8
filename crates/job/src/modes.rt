// The joins that a job can ask for, each with its text.
ghost use Rattle.metric.specs.Edges.{edge_of};
ghost use Rattle.cursor.specs.Lent.{lent_trees};
ghost use Rattle.reading.specs.Mode.{mode_number};
ghost use Rattle.job.specs.Printed.{pairs_text, counts_text, nearest_text, join_text};
ghost use Rattle.job.specs.Shown.{Prints};

use crate::told::{shown, told};
use cursor::Trees;
use metric::Within;
use reading::Mode;

// Pairs up to or under the radius.
fn pairs_text(trees: &Trees, within: Within, out: &mut [u8]) -> usize
    ensures { Prints out.old (pairs_text (lent_trees trees.now) (edge_of within.edge) within.radius) out.new result }
{
    let mut lefts = [0u32; 1024];
    let mut rights = [0u32; 1024];
    let mut distances = [0.0f64; 1024];
    let a = join::pairs(trees, within, &mut lefts, &mut rights, &mut distances);
    let n = shown(a);
    told(out, b"pairs", a, n, &lefts, &rights, &distances)
}

// Counts: no lines between the first and the last.
fn counts_text(trees: &Trees, within: Within, out: &mut [u8]) -> usize
    ensures { Prints out.old (counts_text (lent_trees trees.now) (edge_of within.edge) within.radius) out.new result }
{
    let a = join::counts(trees, within);
    told(out, b"count", a, 0, &[], &[], &[])
}

// For each left item its nearest right item.
fn nearest_text(trees: &Trees, out: &mut [u8]) -> usize
    ensures { Prints out.old (nearest_text (lent_trees trees.now)) out.new result }
{
    let mut items = [0u32; 1024];
    let mut distances = [0.0f64; 1024];
    let a = join::nearest(trees, &mut items, &mut distances);
    let n = shown(a);
    told(out, b"nearest", a, n, trees.left.items, &items, &distances)
}

// By the mode; nearest has no radius.
pub fn join_text(mode: Mode, radius: f64, trees: &Trees, out: &mut [u8]) -> usize
    ensures { Prints out.old (join_text (lent_trees trees.now) (mode_number mode) radius) out.new result }
{
    match mode {
        Mode::Pairs(edge) => pairs_text(trees, Within { radius, edge }, out),
        Mode::Counts(edge) => counts_text(trees, Within { radius, edge }, out),
        Mode::Nearest => nearest_text(trees, out),
    }
}
