// What a job asks for.
ghost use Rattle.reading.specs.Mode.{Decodes};

use crate::bad_job::BadJob;
use metric::Edge;

// In the order of their numbers; those within a radius say how it is read.
#[derive(Clone, Copy, PartialEq, Eq)]
pub enum Mode {
    Pairs(Edge),
    Counts(Edge),
    Nearest,
}

// By the job's byte.
impl TryFrom<u8> for Mode {
    type Error = BadJob;

    ghost try_from_gives = { Decodes };

    fn try_from(byte: u8) -> Result<Self, BadJob> {
        match byte {
            0 => Ok(Mode::Pairs(Edge::UpTo)),
            1 => Ok(Mode::Pairs(Edge::Under)),
            2 => Ok(Mode::Counts(Edge::UpTo)),
            3 => Ok(Mode::Counts(Edge::Under)),
            4 => Ok(Mode::Nearest),
            _ => Err(BadJob::Mode),
        }
    }
}
