// The two trees of a join as they are lent, and what is read of one.
ghost use Rattle.std.specs.Prelude.{◌≡◌, ◌+◌, ◌-◌, ◌*◌, ◌≤◌, ◌<◌, min, length, take, drop, get_or};
ghost use Rattle.std.specs.Float.{nan};
ghost use Rattle.written.specs.NodePairs.{on_side};
ghost use Rattle.cursor.specs.Held.{node_of, root_over, side_of, side_at, Column};

use crate::node::{Cursor, LeafIdx, StemIdx};

// A lent tree: where each leaf's places begin, the pivots in Eytzinger order, and for each place its item and, axis by axis, its coordinates.
#[derive(Clone, Copy)]
pub struct Tree<'a> {
    pub starts: &'a [u32],
    pub stems: &'a [f64],
    pub items: &'a [u32],
    pub coords: &'a [f64],
}

// The coordinates of n points, axis by axis.
#[derive(Clone, Copy)]
pub struct Columns<'a> {
    pub n: usize,
    pub coords: &'a [f64],
}

#[derive(Clone, Copy, PartialEq, Eq)]
pub enum Side {
    Left,
    Right,
}

impl Side {
    // By its number: 0 is the left one, any other the right one.
    pub fn by(number: usize) -> Self
        ensures { side_of result ≡ side_at number }
    {
        if number == 0 { Side::Left } else { Side::Right }
    }
}

// The places from one up to another, of one tree: those of a leaf, or of a tile.
#[derive(Clone, Copy, PartialEq, Eq)]
pub struct Places {
    pub from: usize,
    pub to: usize,
}

// Both trees of a join, over k axes.
#[derive(Clone, Copy)]
pub struct Trees<'a> {
    pub k: usize,
    pub left: Tree<'a>,
    pub right: Tree<'a>,
}

impl<'a> Trees<'a> {
    pub fn on(&self, side: Side) -> Tree<'a>
        ensures { result ≡ on_side (side_of side) self.now.left self.now.right }
    {
        match side {
            Side::Left => self.left,
            Side::Right => self.right,
        }
    }

    // The stems of the chosen side from a node's stem on: its pivot stands first.
    pub fn stems_from(&self, side: Side, at: StemIdx) -> &'a [f64]
        requires { at.0 < length (on_side (side_of side) self.now.left.stems.now self.now.right.stems.now) }
        ensures value { result.now ≡ drop at.0 (on_side (side_of side) self.now.left.stems.now self.now.right.stems.now) }
        ensures nonzero { 0 < length result.now }
    {
        let i = at.0 as usize;
        match side {
            Side::Left => &self.left.stems[i..],
            Side::Right => &self.right.stems[i..],
        }
    }
}

impl<'a> Tree<'a> {
    // Node 1, over all leaves: one fewer than there are starts.
    pub fn root(&self) -> Cursor
        requires { (1 ≤ length self.now.starts.now) × (length self.now.starts.now ≤ 4097) }
        ensures { node_of result ≡ root_over (length self.now.starts.now - 1) }
    {
        Cursor::root((self.starts.len() - 1) as u32)
    }

    // Where a leaf's places begin; those of the leaf before end there.
    pub fn start_of(&self, leaf: LeafIdx) -> usize
        requires { leaf.0 < length self.now.starts.now }
        ensures { result ≡ get_or self.now.starts.now leaf.0 0 }
    {
        self.starts[leaf.0 as usize] as usize
    }

    // The places under a node.
    pub fn places(&self, node: Cursor) -> Places
        requires { (node.first.0 < length self.now.starts.now) × (node.end.0 < length self.now.starts.now) }
        ensures from { result.from ≡ get_or self.now.starts.now node.first.0 0 }
        ensures to { result.to ≡ get_or self.now.starts.now node.end.0 0 }
    {
        Places {
            from: self.start_of(node.first),
            to: self.start_of(node.end),
        }
    }

    // A node's pivot.
    pub fn pivot(&self, stem: StemIdx) -> f64
        requires { stem.0 < length self.now.stems.now }
        ensures { result ≡ get_or self.now.stems.now stem.0 nan }
    {
        self.stems[stem.0 as usize]
    }

    // Its coordinates alone, which are as many on each axis as it has items.
    pub fn columns(&self) -> Columns<'a>
        ensures number { result.n ≡ length self.now.items.now }
        ensures coords { result.coords ≡ self.now.coords }
    {
        Columns {
            n: self.items.len(),
            coords: self.coords,
        }
    }

    // The tile of axis d.
    pub fn tile(&self, d: usize, tile: Places) -> &'a [f64]
        requires { Column self.now.coords.now (length self.now.items.now) d tile.from tile.to }
        ensures value { result.now ≡ take (tile.to - tile.from) (drop (d * length self.now.items.now + tile.from) self.now.coords.now) }
        ensures len { length result.now ≡ tile.to - tile.from }
    {
        self.columns().tile(d, tile)
    }
}

impl<'a> Columns<'a> {
    // A tile is a part of the lent column itself: at most 32 coordinates of axis d.
    pub fn tile(&self, d: usize, tile: Places) -> &'a [f64]
        requires { Column self.now.coords.now self.now.n d tile.from tile.to }
        ensures value { result.now ≡ take (tile.to - tile.from) (drop (d * self.now.n + tile.from) self.now.coords.now) }
        ensures len { length result.now ≡ tile.to - tile.from }
    {
        let column = d * self.n;
        &self.coords[column + tile.from..column + tile.to]
    }
}

// Where the tile that begins at `start` ends, in a leaf that ends at `end`.
pub fn tile_end(start: usize, end: usize) -> usize
    requires { (start ≤ end) × (end ≤ 65536) }
    ensures { result ≡ start + min 32 (end - start) }
{
    end.min(start + 32)
}
