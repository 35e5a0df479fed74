//! Frames of the Debug Adapter Protocol's base protocol: read from a stream that comes in any pieces, and written.
//!
//! ```
//! use dap_frame::{Decoder, FramingFault, encode};
//! use std::alloc::Global;
//!
//! /// Frames a content, and reads it back: the result is `Some` of the same bytes, if there are at most 1,048,576.
//! fn round_trip(alloc: Global, content: &[u8]) -> Result<Option<Vec<u8>>, FramingFault> {
//!     let mut stream = Vec::new(alloc);
//!     encode(content, &mut stream)?;
//!     let mut decoder = Decoder::new(alloc);
//!     decoder.feed(stream.as_slice())?;
//!     decoder.next_content()
//! }
//! ```
//!
//! The one contract: after any pieces, the stream is the frames of the contents returned so far, followed by the bytes that
//! are left (`Frames` in `specs/Frame.antt`). `None` is returned only where neither a whole frame nor a fault stands at the
//! front, and a fault only where `FaultAt` says so. What [`encode`] appends is read again, whatever follows it.
//!
//! The hard lemma is `located` in `proofs/Located.antt`: where two readings cut the same bytes into lines, one is a prefix
//! of the other. Therefore no rest has both a frame and a fault at its front, or two faults, however it came.
#![tactic(auto)]

mod decoder;
mod encoding;
mod fault;
mod field;
mod front;
mod header;
mod laws;

pub use decoder::Decoder;
pub use encoding::encode;
pub use fault::FramingFault;
pub use front::Front;
pub use laws::{frame_laws, worked_faults};
