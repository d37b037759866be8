// As C passes them, side by side: whether the arguments of a call are a leaf pair, or a place, of trees that the library serves.
ghost use Rattle.std.specs.Prelude.{◌≡◌, ◌≤◌};
ghost use Rattle.beside.specs.Calls.{place_ok, side_ok, pair_ok, alike_ok};

// A place p of n points over k axes.
pub fn place_ok(k: u32, coords: &[f64], n: usize, p: usize) -> bool
    ensures { result ≡ place_ok k coords.now n p }
{
    k <= 4 && n <= 65536 && p < n && coords.len() == k as usize * n
}

// The places from `from` up to `to` of one tree.
fn side_ok(k: u32, items: &[u32], coords: &[f64], from: usize, to: usize) -> bool
    requires { k ≤ 4 }
    ensures { result ≡ side_ok k items.now coords.now from to }
{
    items.len() <= 65536
        && from <= to
        && to <= items.len()
        && coords.len() == k as usize * items.len()
}

pub fn pair_ok(
    k: u32,
    litems: &[u32],
    lcoords: &[f64],
    ls: usize,
    lend: usize,
    ritems: &[u32],
    rcoords: &[f64],
    rs: usize,
    rend: usize,
) -> bool
    ensures { result ≡ pair_ok k litems.now lcoords.now ls lend ritems.now rcoords.now rs rend }
{
    1 <= k
        && k <= 4
        && side_ok(k, litems, lcoords, ls, lend)
        && side_ok(k, ritems, rcoords, rs, rend)
}

// Three lengths are one.
pub fn alike(a: usize, b: usize, c: usize) -> bool
    ensures { result ≡ alike_ok a b c }
{
    a == b && a == c
}
