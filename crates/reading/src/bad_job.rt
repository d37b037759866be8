// Why bytes are no job.
ghost use Rattle.std.specs.Prelude.{◌≡◌};
ghost use Rattle.reading.specs.BadJob.{number_of};

#[derive(Clone, Copy, Debug, PartialEq, Eq)]
pub enum BadJob {
    // Under 16 bytes, or above the limit.
    Size,
    // Another mark than KDJ.
    Mark,
    // Another version than 1.
    Version,
    // No mode, a spare byte that is not zero, or nearest with a radius.
    Mode,
    // Another length than the counts say.
    Length,
    // K not 1 to 4.
    Axes,
}

impl BadJob {
    // The number that it is told by.
    pub fn number(self) -> u32
        ensures { result ≡ number_of self }
    {
        match self {
            BadJob::Size => 21,
            BadJob::Mark => 22,
            BadJob::Version => 23,
            BadJob::Mode => 24,
            BadJob::Length => 25,
            BadJob::Axes => 1,
        }
    }
}
