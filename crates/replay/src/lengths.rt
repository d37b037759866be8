// The lengths at which the eleven buffers of a call are lent.
ghost use Rattle.std.specs.Prelude.{◌≡◌, true};
ghost use Rattle.replay.specs.Fits.{Fits, TreeFits};

use reading::Layout;

// One tree's four buffers.
#[derive(Clone, Copy)]
pub struct TreeLengths {
    pub starts: usize,
    pub stems: usize,
    pub items: usize,
    pub coords: usize,
}

#[derive(Clone, Copy)]
pub struct Lengths {
    pub left: TreeLengths,
    pub right: TreeLengths,
    pub lout: usize,
    pub rout: usize,
    pub dout: usize,
}

// As the job says.
fn tree_own(l: Layout) -> TreeLengths {
    TreeLengths {
        starts: l.starts.len,
        stems: l.stems.len,
        items: l.items.len,
        coords: l.coords.len,
    }
}

// As the job and the room say.
pub fn own(l: Layout, r: Layout, room: usize) -> Lengths {
    Lengths {
        left: tree_own(l),
        right: tree_own(r),
        lout: room,
        rout: room,
        dout: room,
    }
}

// One buffer at another length, by the number that a record has for it. None where the record does not say a change as it must: buffer 0 changes nothing and has no length, and there are eleven. An enum of them would be a second table of the same eleven lines.
pub fn changed(n: Lengths, buffer: u32, lent: usize) -> Option<Lengths> {
    let mut c = n;
    match buffer {
        0 if lent == 0 => {}
        1 => c.left.starts = lent,
        2 => c.left.stems = lent,
        3 => c.left.items = lent,
        4 => c.left.coords = lent,
        5 => c.right.starts = lent,
        6 => c.right.stems = lent,
        7 => c.right.items = lent,
        8 => c.right.coords = lent,
        9 => c.lout = lent,
        10 => c.rout = lent,
        11 => c.dout = lent,
        _ => return None,
    }
    Some(c)
}

// Whether the arrays of one tree hold as much.
fn tree_fits(n: TreeLengths) -> bool
    ensures { result ≡ true → TreeFits n }
{
    n.starts <= 4098 && n.stems <= 2048 && n.items <= 65537 && n.coords <= 2048
}

// Whether the arrays hold as much.
pub fn fits(n: Lengths) -> bool
    ensures { result ≡ true → Fits n }
{
    tree_fits(n.left) && tree_fits(n.right) && n.lout <= 1025 && n.rout <= 1025 && n.dout <= 1025
}
