// What waits: the half that is taken second, with its saved box side and pivot, or a box side to put back (the source's `Frame`). The radius walk takes the far half second, nearest the near one.
ghost use Rattle.std.specs.Prelude.{◌≡◌, ◌+◌, ◌-◌, ◌<◌, length, get_or, set};
ghost use Rattle.steps.specs.Popping.{popped_of, blank};

use crate::nodes::Nodes;
use cursor::Side;

#[derive(Clone, Copy)]
pub enum Waiting {
    Half {
        side: Side,
        axis: usize,
        min: f64,
        max: f64,
        pivot: f64,
        at: Nodes,
    },
    Restore {
        side: Side,
        axis: usize,
        min: f64,
        max: f64,
    },
}

// The place of the top entry of so many; 0 where nothing waits.
pub fn top_of(len: usize) -> usize
    ensures { result ≡ len - 1 }
{
    len.saturating_sub(1)
}

// The top entry, if any waits.
pub fn pop(len: usize, top: Waiting) -> Option<Waiting>
    ensures { result ≡ popped_of len top }
{
    (len != 0).then_some(top)
}

// Entries in an array, since the walk has no heap: a + b + 1 of them wait at most, and a tree has at most 12 levels.
#[derive(Clone, Copy)]
pub struct Stack {
    pub entries: [Waiting; 25],
    pub len: usize,
}

impl Stack {
    pub fn empty() -> Self
        ensures { (result.len ≡ 0) × (length result.entries ≡ 25) }
    {
        let unused = Waiting::Restore {
            side: Side::Left,
            axis: 0,
            min: 0.0,
            max: 0.0,
        };
        Self {
            entries: [unused; 25],
            len: 0,
        }
    }

    pub fn push(&mut self, entry: Waiting)
        requires { (self.old.len < 25) × (length self.old.entries ≡ 25) }
        ensures len { self.new.len ≡ self.old.len + 1 }
        ensures entries { self.new.entries ≡ set self.old.entries self.old.len entry }
    {
        self.entries[self.len] = entry;
        self.len += 1;
    }

    // The last entry, if any waits.
    pub fn pop(&mut self) -> Option<Waiting>
        requires { (self.old.len < 26) × (length self.old.entries ≡ 25) }
        ensures value { result ≡ popped_of self.old.len (get_or self.old.entries (self.old.len - 1) blank) }
        ensures len { self.new.len ≡ self.old.len - 1 }
        ensures entries { self.new.entries ≡ self.old.entries }
    {
        let top = top_of(self.len);
        let entry = pop(self.len, self.entries[top]);
        self.len = top;
        entry
    }
}
