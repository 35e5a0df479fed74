//! What went through a stream, for proofs alone.

ghost use Rattle.std.specs.Prelude.{◌≡◌, ℕ, List, [], ◌++◌};
ghost use Rattle.std.specs.Borrow.{ftrue};

use std::marker::{Model, PhantomData};

/// The bytes that went through a stream since this log began, in order, and what the stream was then. Only proofs read it:
/// it takes no memory, and its methods do nothing at run time.
#[derive(Drop)]
pub struct ByteLog<T> {
    of: PhantomData<T>,
    pub ghost first: { T },
    pub ghost bytes: { List ℕ },
}

impl<T> Model for ByteLog<T> {
    ghost also_owns = { λ _. ftrue };
}

// It has no value of `T`.
unsafe impl<T> Send for ByteLog<T> {}

impl<T> ByteLog<T> {
    /// Returns a log that begins with the stream as it is.
    pub fn new(first: &T) -> ByteLog<T>
        ensures { (result.first ≡ first.now) × (result.bytes ≡ []) }
    {
        ByteLog { of: PhantomData }
    }

    /// Puts these bytes behind those that are in it.
    pub fn note(&mut self, bytes: &[u8])
        ensures { (self.new.first ≡ self.old.first) × (self.new.bytes ≡ self.old.bytes ++ bytes.now) }
    {}
}
