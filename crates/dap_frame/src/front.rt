//! Where the frame at the front of a stream lies.

ghost use Rattle.std.specs.Prelude.{◌≡◌, ◌≤◌, IfSome, IfNone};
ghost use Rattle.dap_frame.specs.Frame.{IsFront, IsOpen};
ghost use Rattle.dap_frame.specs.Progress.{IsReadOut};

use crate::header::Header;

/// Where the content of the frame at the front lies in the rest of the stream. The frame ends where its content does.
#[derive(Clone, Copy, Debug)]
pub struct Front {
    pub start: usize,
    pub end: usize,
}

/// Returns where the frame at the front lies; `None` where it isn't complete.
pub(crate) fn front_of(rest: &[u8], header: Header) -> Option<Front>
    requires { IsReadOut header rest.now }
    ensures found { IfSome result (λ front. IsFront front rest.now) }
    ensures none { IfNone result (IsOpen rest.now) }
{
    match header {
        Header::Open(_) => None,
        Header::Whole { size, content_len } => {
            let end = size + content_len;
            if rest.len() < end {
                return None;
            }
            Some(Front { start: size, end })
        }
    }
}
