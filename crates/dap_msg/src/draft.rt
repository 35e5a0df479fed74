//! A text that is put together from its parts.

ghost use Rattle.std.specs.Prelude.{◌≡◌, [], ◌++◌, IfOk, OnOk, IsUtf8, string_bytes};
ghost use Rattle.std.specs.Fmt.{decimal, signed_decimal};
ghost use Rattle.serde_json.specs.Written.{comma_if};
ghost use Rattle.json.specs.Print.{escape, quoted};
ghost use Rattle.dap_msg.specs.Writing.{is_plain};

use arrayvec::ArrayString;
use itoa::Buffer;
use json::Writer;
use std::alloc::{AllocError, Global};
use std::marker::Model;

/// How many bytes are put together on the stack before they are appended to the others.
const ROOM: usize = 512;

/// A text that is put together from its parts. Contracts see it as its bytes.
#[derive(Drop)]
pub(crate) struct Draft {
    /// Where further memory comes from.
    alloc: Global,
    /// The first bytes.
    front: String,
    /// The bytes after them.
    back: ArrayString<ROOM>,
}

impl Model for Draft {
    ghost use Rattle.std.specs.Prelude.{ℕ, List, ◌++◌, string_bytes};

    ghost Value = { List ℕ };

    ghost view = { λ draft. string_bytes draft.front ++ draft.back.bytes };
}

impl Draft {
    /// Returns an empty text, which will stand in the memory of `room`.
    pub(crate) fn new(room: Vec<u8>) -> Draft
        requires { room.items ≡ [] }
        ensures { result ≡ [] }
    {
        let alloc = *room.allocator();
        match String::from_utf8(room) {
            Ok(front) => Draft {
                alloc,
                front,
                back: ArrayString::new(),
            },
            Err(_) => unreachable!(),
        }
    }

    /// Appends a text.
    #[inline(always)]
    pub(crate) fn put(&mut self, text: &str) -> Result<(), AllocError>
        ensures { OnOk result (self.new ≡ self.old ++ text.now) }
    {
        match self.back.try_push_str(text) {
            Ok(()) => Ok(()),
            Err(_) => self.put_past(text),
        }
    }

    /// Appends a text for which the array has no room.
    #[inline(never)]
    fn put_past(&mut self, text: &str) -> Result<(), AllocError>
        ensures { OnOk result (self.new ≡ self.old ++ text.now) }
    {
        self.front.push_str(self.back.as_str())?;
        self.back.clear();
        self.front.push_str(text)
    }

    /// Appends a comma where something stands before.
    #[inline(always)]
    pub(crate) fn put_comma_if(&mut self, later: bool) -> Result<(), AllocError>
        ensures { OnOk result (self.new ≡ self.old ++ comma_if later) }
    {
        if later { self.put(",") } else { Ok(()) }
    }

    /// Appends the digits of a number.
    #[inline(always)]
    pub(crate) fn put_whole(&mut self, number: u64) -> Result<(), AllocError>
        ensures { OnOk result (self.new ≡ self.old ++ decimal number) }
    {
        let mut digits = Buffer::new();
        self.put(digits.format(number))
    }

    /// Appends the sign and the digits of a number.
    #[inline(always)]
    pub(crate) fn put_signed(&mut self, number: i64) -> Result<(), AllocError>
        ensures { OnOk result (self.new ≡ self.old ++ signed_decimal number) }
    {
        let mut digits = Buffer::new();
        self.put(digits.format(number))
    }

    /// Appends what stands for a text between quotes: itself, with escapes where it needs them.
    #[inline(always)]
    pub(crate) fn put_escaped(&mut self, text: &str) -> Result<(), AllocError>
        ensures { OnOk result (self.new ≡ self.old ++ escape text.now) }
    {
        if is_plain(text) {
            self.put(text)
        } else {
            self.put_escapes(text)
        }
    }

    /// Appends what stands for a text between quotes: at once where only its last character, a line feed, needs an escape,
    /// as in a log, and else as the library's writer gives it.
    #[inline(never)]
    fn put_escapes(&mut self, text: &str) -> Result<(), AllocError>
        ensures { OnOk result (self.new ≡ self.old ++ escape text.now) }
    {
        if let Some(line) = text.strip_suffix('\n') {
            if is_plain(line) {
                self.put(line)?;
                return self.put("\\n");
            }
        }
        let quoted = quoted_text(self.alloc, text)?;
        match quoted.as_str().strip_prefix('"') {
            Some(begun) => match begun.strip_suffix('"') {
                Some(escaped) => self.put(escaped),
                None => unreachable!(),
            },
            None => unreachable!(),
        }
    }

    /// Returns an empty text in memory of its own.
    pub(crate) fn beside(&self) -> Draft
        ensures { result ≡ [] }
    {
        Draft::new(Vec::new(self.alloc))
    }

    /// Returns the text.
    pub(crate) fn into_text(self) -> Result<String, AllocError>
        ensures { IfOk result (λ text. string_bytes text ≡ self) }
    {
        let Draft {
            mut front,
            back,
            ..
        } = self;
        front.push_str(back.as_str())?;
        Ok(front)
    }

    /// Returns the bytes.
    pub(crate) fn finish(self) -> Result<Vec<u8>, AllocError>
        ensures bytes { IfOk result (λ bytes. bytes.items ≡ self) }
        ensures utf8 { IfOk result (λ bytes. IsUtf8 bytes.items) }
    {
        Ok(self.into_text()?.into_bytes())
    }
}

/// Whether a text stands between quotes as it is: it has no control character, no quote and no backslash.
fn is_plain(text: &str) -> bool
    ensures { result ≡ is_plain text.now }
{
    text.as_bytes()
        .iter()
        .all(|x| 32 <= *x && *x != b'"' && *x != b'\\')
}

/// Returns a text between quotes, with escapes where it needs them, as the library's writer gives it.
fn quoted_text(alloc: Global, text: &str) -> Result<String, AllocError>
    ensures { IfOk result (λ found. string_bytes found ≡ quoted text.now) }
{
    let mut out = Writer::new(Vec::new(alloc));
    out.string(text)?;
    match String::from_utf8(out.into_inner()) {
        Ok(found) => Ok(found),
        Err(_) => unreachable!(),
    }
}
