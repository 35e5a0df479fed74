//! Frames of contents.

use std::alloc::{AllocError, Global};

/// A frame of this content. Fails where memory runs out.
pub fn framed(alloc: Global, content: &[u8]) -> Result<Vec<u8>, AllocError> {
    let length = content.len();
    let header = format!(in alloc; "Content-Length: {length}\r\n\r\n")?;
    let mut frame = Vec::from_slice(alloc, header.as_bytes())?;
    frame.extend_from_slice(content)?;
    Ok(frame)
}
