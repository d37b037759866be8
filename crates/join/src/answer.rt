// What a call answers: what its walk counted, or why it is refused.
ghost use Rattle.std.specs.Prelude.{◌≡◌};
ghost use Rattle.join.specs.Answering.{answer_of, refusal_number, refusal_side, flat_of};

use cursor::Side;
use steps::Tally;
use tree::Rule;

#[derive(Clone, Copy, PartialEq, Eq)]
pub enum Refusal {
    // A tree breaks a rule of the check; the left tree is checked wholly before the right.
    Tree { side: Side, rule: Rule },
    // The output buffers of one call differ in length.
    Rooms,
    // The room is too small. Of pairs this is told after the walk, with what it counted; of nearest beforehand, with nothing.
    Room(Tally),
}

impl Refusal {
    // Its number in the table.
    pub fn number(self) -> u32
        ensures { result ≡ refusal_number self }
    {
        match self {
            Refusal::Tree { rule, .. } => rule.number(),
            Refusal::Rooms => 8,
            Refusal::Room(_) => 9,
        }
    }

    // 1 where it is the right tree's, else 0.
    pub fn side(self) -> u32
        ensures { result ≡ refusal_side self }
    {
        match self {
            Refusal::Tree {
                side: Side::Right,
                ..
            } => 1,
            _ => 0,
        }
    }
}

// The answer as numbers, for callers in C and for records: 0 and 0 where nothing is refused.
#[derive(Clone, Copy, PartialEq, Eq)]
pub struct Answer {
    pub number: u32,
    pub side: u32,
    pub tally: Tally,
}

impl Answer {
    pub fn of(told: Result<Tally, Refusal>) -> Self
        ensures { flat_of result ≡ answer_of told }
    {
        match told {
            Ok(tally) => Self {
                number: 0,
                side: 0,
                tally,
            },
            Err(Refusal::Room(tally)) => Self {
                number: 9,
                side: 0,
                tally,
            },
            Err(refusal) => Self {
                number: refusal.number(),
                side: refusal.side(),
                tally: Tally::none(),
            },
        }
    }
}
