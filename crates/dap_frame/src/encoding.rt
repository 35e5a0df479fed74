//! The encoder: it appends the frame of a content.

ghost use Rattle.std.specs.Prelude.{◌≡◌, ◌+◌, ◌<◌, ◌≤◌, ◌++◌, length, drop, decimal, vec_len, vec_capacity, OnOk, OnErr, IfErr};
ghost use Rattle.dap_frame.specs.Frame.{frame_of};
ghost use Rattle.dap_frame.specs.declared.fault.FramingFault.TheVariants.{NoMemory};

use crate::fault::FramingFault;
use itoa::Buffer;
use std::alloc::AllocError;

/// Appends the frame of a content to `out`.
///
/// # Errors
///
/// Only `NoMemory`, which leaves the bytes of `out` as they were.
pub fn encode(content: &[u8], out: &mut Vec<u8>) -> Result<(), FramingFault>
    ensures ok { OnOk result (out.new.items ≡ out.old.items ++ frame_of content.now) }
    ensures err { OnErr result (out.new.items ≡ out.old.items) }
    ensures memory { IfErr result (λ fault. fault ≡ NoMemory) }
    // An error is returned only where `out` has no room for the frame.
    ensures full { OnErr result (vec_capacity out.old < vec_len out.old + length (frame_of content.now)) }
{
    Ok(append_frame(content, out)?)
}

/// Appends the frame. Room for all of it is made first, so that nothing can fail after that.
fn append_frame(content: &[u8], out: &mut Vec<u8>) -> Result<(), AllocError>
    ensures ok { OnOk result (out.new.items ≡ out.old.items ++ frame_of content.now) }
    ensures err { OnErr result (out.new.items ≡ out.old.items) }
    ensures full { OnErr result (vec_capacity out.old < vec_len out.old + length (frame_of content.now)) }
{
    let name = b"Content-Length: ";
    let mut digits = Buffer::new();
    let length = digits.format(content.len()).as_bytes();
    let ends = b"\r\n\r\n";
    out.reserve(name.len() + length.len() + ends.len() + content.len())?;
    out.extend_from_slice(name)?;
    out.extend_from_slice(length)?;
    out.extend_from_slice(ends)?;
    out.extend_from_slice(content)
}
