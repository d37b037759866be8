// From the bytes of a job: little-endian numbers, the header, and the trees that lie in it. Added by the port.
#![tactic(auto)]

mod bad_job;
mod buffers;
mod header;
mod layout;
mod little;
mod mode;

pub use crate::bad_job::BadJob;
pub use crate::buffers::decode;
pub use crate::header::{check_header, mode_at};
pub use crate::layout::{Layout, Part, lay};
pub use crate::little::{byte_at, f64_at, u16_at, u32_at, u64_at};
pub use crate::mode::Mode;
