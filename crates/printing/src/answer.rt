// The lines of an answer.
ghost use Rattle.std.specs.Prelude.{◌≡◌, ◌+◌, ◌*◌, ◌≤◌, length};
ghost use Rattle.printing.specs.Text.{line as line_of, lines as lines_of, first_line, refused_line, totals_line};
ghost use Rattle.printing.specs.Rows.{found, rows, totalled};
ghost use Rattle.printing.specs.Puts.{Puts};

use crate::page::Page;

// `refused`, number and side: numbers, since they are what is printed.
pub fn refused(out: &mut [u8], number: u32, side: u32) -> usize
    ensures puts { Puts out.old 0 (refused_line number side) out.new result }
    ensures upper_bound { result ≤ 50 }
{
    let mut page = Page { out, at: 0 };
    page.text(b"refused ");
    page.decimal(number as u64);
    page.text(b" ");
    page.decimal(side as u64);
    page.text(b"\n");
    page.at
}

// The first line: what was asked for, and how many there are.
pub fn head(out: &mut [u8], kind: &[u8], n: u64) -> usize
    requires { length kind.now ≤ 8 }
    ensures puts { Puts out.old 0 (first_line kind.now n) out.new result }
    ensures upper_bound { result ≤ 30 }
{
    let mut page = Page { out, at: 0 };
    page.text(kind);
    page.text(b" ");
    page.decimal(n);
    page.text(b"\n");
    page.at
}

// Left item, right item, distance.
fn line(page: &mut Page<'_>, left: u32, right: u32, distance: f64)
    requires { page.old.at ≤ 65536 }
    ensures same_buffer { page.new.out.ghost_name ≡ page.old.out.ghost_name }
    ensures puts { Puts page.old.out.now page.old.at (line_of (found left right distance)) page.new.out.now page.new.at }
    ensures upper_bound { page.new.at ≤ page.old.at + 59 }
{
    page.decimal(left as u64);
    page.text(b" ");
    page.decimal(right as u64);
    page.text(b" ");
    page.hexadecimal(distance);
    page.text(b"\n");
}

// A line for each of the first n places.
pub fn lines(
    out: &mut [u8],
    at: usize,
    n: usize,
    lefts: &[u32],
    rights: &[u32],
    distances: &[f64],
) -> usize
    requires { (at ≤ 100) × (n ≤ 1024) × (n ≤ length lefts.now) × (n ≤ length rights.now) × (n ≤ length distances.now) }
    ensures puts { Puts out.old at (lines_of (rows n lefts.now rights.now distances.now)) out.new result }
    ensures upper_bound { result ≤ at + 59 * n }
{
    let mut page = Page { out, at };
    // By index, as the three slices are read at one place: over two zips the loop has none, and an invariant would speak of nested pairs.
    for i in 0..n {
        line(&mut page, lefts[i], rights[i], distances[i]);
    }
    page.at
}

// The last line. The place goes in and out, as no caller holds a loan of out between two parts; the numbers stand as they are printed.
pub fn totals(
    out: &mut [u8],
    at: usize,
    visits: u64,
    measured: u64,
    ruled: u64,
    whole: u64,
) -> usize
    requires { at ≤ 65000 }
    ensures puts { Puts out.old at (totals_line (totalled visits measured ruled whole)) out.new result }
    ensures upper_bound { result ≤ at + 120 }
{
    let mut page = Page { out, at };
    page.text(b"visits ");
    page.decimal(visits);
    page.text(b" measured ");
    page.decimal(measured);
    page.text(b" ruledout ");
    page.decimal(ruled);
    page.text(b" whole ");
    page.decimal(whole);
    page.text(b"\n");
    page.at
}
