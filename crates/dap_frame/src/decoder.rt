//! The decoder: it takes a stream in pieces and returns the contents of the frames in it.

ghost use Rattle.std.specs.Prelude.{◌≡◌, ◌≢◌, ◌+◌, ◌<◌, ◌≤◌, ◌++◌, ◌∷◌, [], ℕ, List, Option, Some, None, IfOk, IfErr, OnOk, OnErr, MatchOption, length, drop, vec_capacity, vec_len};
ghost use Rattle.std.specs.Bool.{Decides};
ghost use Rattle.dap_frame.specs.Header.{FaultAt};
ghost use Rattle.dap_frame.specs.Frame.{Frames, IsOpen, IsFrameInFront, IsFront, content_at};
ghost use Rattle.dap_frame.specs.Progress.{spare, kept_of, IsBounded, IsRead};

use crate::fault::FramingFault;
use crate::front::{Front, front_of};
use crate::header::{Header, read_on};
use std::alloc::Global;
use std::marker::Model;

/// Bytes of frames already read are kept as long as they are at most this many more than the rest of the
/// stream, so the contents of a piece of at most this length are returned without moving the bytes after them.
const SPARE: usize = 4096;

/// Reads frames from a stream that comes in pieces of any lengths.
///
/// A header part has at most 1,024 bytes, and a content at most 1,048,576. The time taken is linear in the number of bytes
/// that come, however they are cut into pieces: a header part is searched once for the ends of its lines, and at most one
/// byte is moved for each byte of the frames already read. With `n` bytes of later frames, at most `2 * n + 4096` are kept.
#[derive(Drop)]
pub struct Decoder {
    bytes: Vec<u8>,
    // How many of the bytes are of frames already read. The rest of the stream stands after them.
    passed: usize,
    // How far the header part at the front of the rest was read.
    header: Header,
    // The fault that was found, which every later call returns.
    fault: Option<FramingFault>,
}

impl Model for Decoder {
    ghost use Rattle.std.specs.Prelude.{drop, ◌-◌, ◌≤◌, length, vec_capacity, vec_len};
    ghost use Rattle.dap_frame.specs.Stream.{Stream};
    ghost use Rattle.dap_frame.specs.Progress.{kept_of, IsRead, IsBounded};

    ghost Value = { Stream };

    ghost view = { λ decoder. record {
      rest = drop decoder.passed decoder.bytes.items;
      fault = decoder.fault;
      room = vec_capacity decoder.bytes - kept_of decoder.passed (vec_len decoder.bytes);
    } };

    ghost invariant = { λ decoder. (decoder.passed ≤ length decoder.bytes.items)
        × IsRead decoder.header (drop decoder.passed decoder.bytes.items)
        × IsBounded (length decoder.bytes.items) (length (drop decoder.passed decoder.bytes.items)) };
}

impl Decoder {
    ghost use Rattle.dap_frame.specs.declared.fault.FramingFault.{FramingFault};
    ghost use Rattle.dap_frame.specs.declared.fault.FramingFault.TheVariants.{NoMemory};

    /// Returns a decoder at the beginning of a stream. It takes no memory.
    pub fn new(alloc: Global) -> Decoder
        ensures { result ≡ record { rest = []; fault = None; room = 0 } }
    {
        Decoder {
            bytes: Vec::new(alloc),
            passed: 0,
            header: Header::START,
            fault: None,
        }
    }

    /// Takes the next piece of the stream. It looks for no frame and no fault in it.
    ///
    /// # Errors
    ///
    /// The fault that was found before, or `NoMemory`, which an empty piece never gets. The decoder is unchanged then.
    pub fn feed(&mut self, piece: &[u8]) -> Result<(), FramingFault>
        ensures ok { OnOk result ((self.old.fault ≡ None)
            × (self.new ≡ record { rest = self.old.rest ++ piece.now; fault = None; room = self.new.room })) }
        // The piece joins the end of the stream: the contents returned so far stay the same.
        ensures stream { (stream : List ℕ) (contents : List (List ℕ)) → Frames stream contents self.old.rest →
            OnOk result (Frames (stream ++ piece.now) contents self.new.rest) }
        ensures err { IfErr result (λ fault. (self.new ≡ self.old)
            × MatchOption self.old.fault (fault ≡ NoMemory × piece.now ≢ []) (λ first. fault ≡ first)) }
        // Memory is needed only where there is no room for the piece, which takes no more of the room than its length.
        ensures full { self.old.fault ≡ None → OnErr result (self.old.room < length piece.now) }
        ensures room { OnOk result (self.old.room ≤ self.new.room + length piece.now) }
    {
        if let Some(fault) = self.fault {
            return Err(fault);
        }
        self.passed = compact(&mut self.bytes, self.passed, 0);
        self.bytes.reserve(piece.len())?;
        self.bytes.extend_from_slice(piece)?;
        Ok(())
    }

    /// Returns the next content, or `None` where no whole frame has come yet.
    ///
    /// # Errors
    ///
    /// The fault that stands where the next frame should. This call, every later one and `feed` return it. Or `NoMemory`,
    /// which leaves the decoder unchanged, so that the call may be made again.
    pub fn next_content(&mut self) -> Result<Option<Vec<u8>>, FramingFault>
        // The content is that of the next frame.
        ensures content { IfOk result (λ next. MatchOption next
            (IsOpen self.old.rest × (self.new ≡ self.old))
            (λ content. IsFrameInFront self.old.rest content.items self.new.rest × (self.new.fault ≡ None))) }
        // One content more of the stream has been returned, where one is.
        ensures stream { (stream : List ℕ) (contents : List (List ℕ)) → Frames stream contents self.old.rest →
            IfOk result (λ next. MatchOption next
            (Frames stream contents self.new.rest)
            (λ content. Frames stream (contents ++ content.items ∷ []) self.new.rest)) }
        ensures sound { OnOk result (self.old.fault ≡ None) }
        ensures again { (fault : FramingFault) → self.old.fault ≡ Some fault →
            (result ≡ Err fault) × (self.new ≡ self.old) }
        ensures memory { result ≡ Err NoMemory → self.new ≡ self.old }
        // Memory is needed only for a content that isn't empty.
        ensures needed { result ≡ Err NoMemory → self.old.fault ≡ None →
            (content : List ℕ) × (rest : List ℕ) × IsFrameInFront self.old.rest content rest × (content ≢ []) }
        ensures room { self.old.room ≤ self.new.room }
        ensures fault { IfErr result (λ fault. self.old.fault ≡ None → fault ≢ NoMemory →
            FaultAt self.old.rest fault × (self.new ≡ record self.old { fault = Some fault })) }
    {
        let Some(front) = self.front()? else {
            return Ok(None);
        };
        let mut given = Vec::new(*self.bytes.allocator());
        given.extend_from_slice(self.content(front))?;
        self.pass(front);
        Ok(Some(given))
    }

    /// Returns where the next content lies, or `None` where no whole frame has come yet. It may then be read where it stands
    /// ([`Decoder::content`]), and passed after that ([`Decoder::pass`]).
    ///
    /// # Errors
    ///
    /// The fault that stands where the next frame should. This call, every later one and `feed` return it.
    pub fn front(&mut self) -> Result<Option<Front>, FramingFault>
        ensures found { IfOk result (λ found. MatchOption found
            (IsOpen self.old.rest)
            (λ front. IsFront front self.old.rest)) }
        ensures same { OnOk result (self.new ≡ self.old) }
        ensures sound { OnOk result (self.old.fault ≡ None) }
        ensures again { (fault : FramingFault) → self.old.fault ≡ Some fault →
            (result ≡ Err fault) × (self.new ≡ self.old) }
        ensures fault { IfErr result (λ fault. self.old.fault ≡ None →
            FaultAt self.old.rest fault × (self.new ≡ record self.old { fault = Some fault })) }
    {
        if let Some(fault) = self.fault {
            return Err(fault);
        }
        match read_on(&self.bytes.as_slice()[self.passed..], self.header) {
            Ok(header) => self.header = header,
            Err(fault) => {
                self.fault = Some(fault);
                return Err(fault);
            }
        }
        let rest = &self.bytes.as_slice()[self.passed..];
        Ok(front_of(rest, self.header))
    }

    /// Returns the content of the frame at the front, where it stands.
    pub fn content(&self, front: Front) -> &[u8]
        requires { IsFront front self.now.rest }
        ensures { result.now ≡ content_at front self.now.rest }
    {
        let rest = &self.bytes.as_slice()[self.passed..];
        &rest[front.start..front.end]
    }

    /// Passes the frame at the front. What follows it is the rest of the stream then.
    pub fn pass(&mut self, front: Front)
        requires { IsFront front self.old.rest }
        ensures frame { IsFrameInFront self.old.rest (content_at front self.old.rest) self.new.rest }
        ensures fault { self.new.fault ≡ self.old.fault }
        ensures room { self.old.room ≤ self.new.room }
    {
        self.passed = compact(&mut self.bytes, self.passed + front.end, SPARE);
        self.header = Header::START;
    }

    /// Whether the stream, as far as it came, ends with a whole frame: no byte of a further one came.
    pub fn is_between_frames(&self) -> bool
        ensures { Decides result (self.now.rest ≡ []) }
    {
        self.bytes.as_slice()[self.passed..].is_empty()
    }
}

/// Removes the first `passed` bytes if they are more than `extra` and the rest together, so that fewer bytes are moved than
/// are removed. Returns where the rest begins then.
fn compact(bytes: &mut Vec<u8>, passed: usize, extra: usize) -> usize
    requires there { passed ≤ length bytes.old.items }
    requires small { extra ≤ spare }
    ensures there { result ≤ length bytes.new.items }
    ensures rest { drop result bytes.new.items ≡ drop passed bytes.old.items }
    ensures bounded { IsBounded (length bytes.new.items) (length (drop result bytes.new.items)) }
    ensures capacity { vec_capacity bytes.new ≡ vec_capacity bytes.old }
    ensures kept { kept_of result (vec_len bytes.new) ≡ kept_of passed (vec_len bytes.old) }
    ensures removed { extra ≡ 0 → kept_of result (vec_len bytes.new) ≡ vec_len bytes.new }
{
    let left = bytes.len() - passed;
    if passed <= left || passed - left <= extra {
        return passed;
    }
    bytes.copy_within(passed.., 0);
    bytes.truncate(left);
    0
}
