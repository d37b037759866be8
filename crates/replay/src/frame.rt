// The parts of one record.
ghost use Rattle.std.specs.Prelude.{IfSome};
ghost use Rattle.replay.specs.Framed.{Framed};

use reading::{u32_at, u64_at};

// The job, the answer, the pairs and the text, and the input after the record; the room, and the buffer lent at another length.
#[derive(Clone, Copy)]
pub struct Frame<'a> {
    pub job: &'a [u8],
    pub answer: &'a [u8],
    pub pairs: &'a [u8],
    pub text: &'a [u8],
    pub rest: &'a [u8],
    pub room: usize,
    // 0 changes none: as the record has it, read by lengths::changed.
    pub buffer: u32,
    pub lent: usize,
}

// The first record of the input; none where the input ends before its parts do, or they are over the limits. As many pairs are recorded as were found and the room holds.
pub fn framed<'a>(s: &'a [u8]) -> Option<Frame<'a>>
    ensures { IfSome result (λ f. Framed s.now f) }
{
    let (head, after) = s.split_at_checked(20)?;
    let (job, after) = after.split_at_checked(u32_at(head, 0) as usize)?;
    let (answer, after) = after.split_at_checked(48)?;
    let room = u32_at(head, 4) as usize;
    if 1024 < room {
        return None;
    }
    let count = u64_at(answer, 8).min(room as u64) as usize;
    let (pairs, after) = after.split_at_checked(16 * count)?;
    let (text, rest) = after.split_at_checked(u32_at(head, 16) as usize)?;
    Some(Frame {
        job,
        answer,
        pairs,
        text,
        rest,
        room,
        buffer: u32_at(head, 8),
        lent: u32_at(head, 12) as usize,
    })
}
