// One left point against a right tile: which of its points pass.
ghost use Rattle.std.specs.Prelude.{◌≡◌, ◌≤◌, length, take};
ghost use Rattle.metric.specs.Edges.{edge_of};
ghost use Rattle.leaf.specs.Sums.{Holds, row, reached, passing, hits};
ghost use Rattle.rooms.specs.Emitted.{places_of};

use leaf::passes;
use metric::Within;

// The last axis: the distances, and how many pass. The row comes as a slice, since lending the array as one tells the proof how long it is.
pub fn last_axis(sums: &[f64; 32], q: f64, column: &[f64], within: Within, dists: &mut [f64]) -> u64
    requires { (length column.now ≤ 32) × (length column.now ≤ length dists.old) }
    ensures holds { Holds dists.new (length column.now) (reached sums.now q column.now) }
    ensures value { result ≡ hits (passing (edge_of within.edge) within.radius (reached sums.now q column.now)) (length column.now) }
{
    let mut n = 0;
    for (j, x) in column.iter().enumerate() {
        let distance = sums[j] + metric::square(q, *x);
        dists[j] = distance;
        n += passes(distance, within);
    }
    n
}

// The places of a tile that pass, in rising order. Each place is written, and stays if it passes: no branch.
pub fn passing_places(dists: &[f64; 32], len: usize, within: Within, places: &mut [u32])
    requires { (len ≤ 32) × (len ≤ length places.old) }
    ensures { take (hits (passing (edge_of within.edge) within.radius (row dists.now)) len) places.new ≡ places_of (passing (edge_of within.edge) within.radius (row dists.now)) len }
{
    let mut n: usize = 0;
    for j in 0..len {
        places[n] = j as u32;
        n += passes(dists[j], within) as usize;
    }
}
