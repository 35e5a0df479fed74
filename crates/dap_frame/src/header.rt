//! The header part of a frame: how far it was read, and reading on.

ghost use Rattle.std.specs.Prelude.{◌≡◌, ◌≢◌, ◌+◌, ◌<◌, ◌≤◌, [], ◌∷◌, ◌++◌, List, length, IfSome, IfNone, IfOk, IfErr};
ghost use Rattle.dap_frame.specs.Header.{Field, IsField, LineFault, FaultAt, field_text};
ghost use Rattle.dap_frame.specs.Progress.{EndsAt, HasNoEnd, IsScanned, IsRead, IsReadOut, Names};

use crate::fault::FramingFault;
use crate::field::{field_of, length_of};
use memchr::memchr;

/// The most bytes of a header part, its empty line included.
const HEADER_LIMIT: usize = 1024;

/// The most bytes of a content.
const CONTENT_LIMIT: usize = 1_048_576;

/// How far a header part was read.
#[derive(Clone, Copy)]
pub enum Header {
    /// Its empty line hasn't come.
    Open(Scan),
    /// It is complete. It takes `size` bytes and gives the length of the content.
    Whole { size: usize, content_len: usize },
}

/// How far an incomplete header part was read.
///
/// Its first `judged` bytes are fields without a fault, and `named` is the length that they give, if they give one. No line
/// ends in the bytes from `judged` to `searched`.
#[derive(Clone, Copy)]
pub struct Scan {
    pub judged: usize,
    pub searched: usize,
    pub named: Option<usize>,
}

impl Header {
    /// Nothing was read yet.
    pub const START: Header = Header::Open(Scan {
        judged: 0,
        searched: 0,
        named: None,
    });
}

/// Reads the header part at the front of `rest`, as far as it has come, from where it was read to before.
///
/// # Errors
///
/// The first fault of the header part.
pub fn read_on(rest: &[u8], header: Header) -> Result<Header, FramingFault>
    requires { IsRead header rest.now }
    ensures ok { IfOk result (λ header. IsReadOut header rest.now) }
    ensures err { IfErr result (FaultAt rest.now) }
{
    match header {
        Header::Open(scan) => scan_lines(rest, scan),
        Header::Whole { .. } => Ok(header),
    }
}

/// Judges each line that is complete, up to the empty line.
fn scan_lines(rest: &[u8], mut scan: Scan) -> Result<Header, FramingFault>
    requires { IsScanned scan rest.now }
    ensures ok { IfOk result (λ header. IsReadOut header rest.now) }
    ensures err { IfErr result (FaultAt rest.now) }
{
    let bytes = &rest[..rest.len().min(HEADER_LIMIT)];
    while let Some(end) = line_end(bytes, scan.judged, scan.searched) {
        let line = &bytes[scan.judged..end];
        if line.is_empty() {
            return match scan.named {
                Some(content_len) => Ok(Header::Whole {
                    size: end + 2,
                    content_len,
                }),
                None => Err(FramingFault::NoLength),
            };
        }
        scan = Scan {
            judged: end + 2,
            searched: end + 2,
            named: judge_field(line, scan.named)?,
        };
    }
    if bytes.len() == HEADER_LIMIT {
        return Err(FramingFault::HeaderTooLong);
    }
    scan.searched = bytes.len();
    Ok(Header::Open(scan))
}

/// Returns where the first CR LF from `judged` on stands. The search begins at `searched`, before which none ends.
fn line_end(bytes: &[u8], judged: usize, searched: usize) -> Option<usize>
    requires in_order { judged ≤ searched }
    requires there { searched ≤ length bytes.now }
    requires no_end { HasNoEnd bytes.now judged searched }
    ensures found { IfSome result (λ end. (judged ≤ end) × (end + 1 < length bytes.now) × EndsAt bytes.now end
        × HasNoEnd bytes.now judged (end + 1)) }
    ensures none { IfNone result (HasNoEnd bytes.now judged (length bytes.now)) }
{
    let mut from = searched;
    while let Some(found) = memchr(b'\n', &bytes[from..]) {
        let feed = from + found;
        if judged < feed && bytes[feed - 1] == b'\r' {
            return Some(feed - 1);
        }
        from = feed + 1;
    }
    None
}

/// Judges a line that isn't empty and stands after fields that give the length `named`, and returns the length after it.
fn judge_field(line: &[u8], named: Option<usize>) -> Result<Option<usize>, FramingFault>
    ensures ok { (fields : List Field) → Names fields named →
        IfOk result (λ next. (field : Field) × IsField field × (line.now ≡ field_text field)
        × Names (fields ++ field ∷ []) next) }
    ensures err { (fields : List Field) → Names fields named → line.now ≢ [] →
        IfErr result (LineFault fields line.now) }
{
    let Some(field) = field_of(line) else {
        return Err(FramingFault::BadField);
    };
    if field.name != b"Content-Length".as_slice() {
        return Ok(named);
    }
    if named.is_some() {
        return Err(FramingFault::TwoLengths);
    }
    match length_of(field.value) {
        None => Err(FramingFault::BadLength),
        Some(length) if length > CONTENT_LIMIT => Err(FramingFault::TooLarge),
        length => Ok(length),
    }
}
