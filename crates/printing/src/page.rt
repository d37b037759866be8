// A page: a lent buffer that is filled from a place on.
ghost use Rattle.std.specs.Prelude.{◌≡◌, ◌+◌, ◌≤◌, length, set};
ghost use Rattle.printing.specs.Puts.{Puts};

// One byte, where there is room.
fn put(out: &mut [u8], at: usize, b: u8)
    ensures { out.new ≡ set out.old at b }
{
    if at < out.len() {
        out[at] = b;
    }
}

// The buffer, and the place after what was written.
#[derive(Drop)]
pub struct Page<'a> {
    pub out: &'a mut [u8],
    pub at: usize,
}

impl Page<'_> {
    // All bytes of s.
    pub fn text(&mut self, s: &[u8])
        requires { self.old.at + length s.now ≤ 4294967296 }
        ensures same_buffer { self.new.out.ghost_name ≡ self.old.out.ghost_name }
        ensures puts { Puts self.old.out.now self.old.at s.now self.new.out.now self.new.at }
    {
        for (i, b) in s.iter().enumerate() {
            put(self.out, self.at + i, *b);
        }
        self.at += s.len();
    }
}
