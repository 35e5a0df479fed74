//! Checking a program text: its listing, or its first fault.

ghost use Rattle.std.specs.Prelude.{◌≡◌, string_bytes, Err, IfOk, IfErr};
ghost use Rattle.pl0_tree.specs.Faults.{IsFirstFault, FaultIs};
ghost use Rattle.adapter.specs.Checking.{IsChecked, IsListingOf};

use crate::listing::listing;
use byte_streams::{Sink, WriteFailed};
use dap_session::{LoadFault, Loader};
use dap_wires::Writes;
use pl0_code::compile;
use pl0_syntax::parse;
use pl0_tree::{FaultKind, Place, SyntaxFault};
use std::alloc::{AllocError, Global};
use std::sync::Wait;

/// Why no listing was written.
#[derive(Clone, Copy)]
pub enum CheckFault {
    /// The file can't be read.
    CannotRead,
    /// The text has this fault first.
    Syntax { kind: FaultKind, place: Place },
    /// The output failed. A prefix of the listing was written, which may be empty.
    WriteFailed,
    /// Memory ran out.
    NoMemory,
}

/// What came of a check.
#[derive(Drop)]
pub(crate) struct Checked {
    /// Whether the listing was written.
    pub outcome: Result<(), CheckFault>,
    /// The text of the file; empty where it can't be read.
    pub text: Vec<u8>,
}

impl Checked {
    /// Nothing was read, for this reason.
    fn unread(alloc: Global, fault: CheckFault) -> Checked
        ensures { result.outcome ≡ Err fault }
    {
        Checked {
            outcome: Err(fault),
            text: Vec::new(alloc),
        }
    }
}

/// Writes the listing of the program text in a file, once. The loader is asked once, for this path.
///
/// # Errors
///
/// `WriteFailed` leaves a prefix of the listing written. After all others nothing was written.
pub fn check<R: Wait + Drop, L: Loader, O: Sink>(
    rt: &R,
    alloc: Global,
    path: &str,
    loader: &mut L,
    output: &mut O,
) -> Result<(), CheckFault>
    ensures checked { IsChecked path.now result (L.loaded loader.old) (L.loaded loader.new)
        (O.output output.old) (O.output output.new) }
    ensures loader { L.origin loader.new ≡ L.origin loader.old }
{
    check_keeping(rt, alloc, path, loader, output).outcome
}

/// Does what [`check`] does, and returns the text of the file besides.
pub(crate) fn check_keeping<R: Writes<O>, L: Loader, O>(
    rights: &R,
    alloc: Global,
    path: &str,
    loader: &mut L,
    output: &mut O,
) -> Checked
    ensures checked { IsChecked path.now result.outcome (L.loaded loader.old) (L.loaded loader.new)
        (R.output output.old) (R.output output.new) }
    ensures loader { L.origin loader.new ≡ L.origin loader.old }
{
    let text = match loader.load(path) {
        Ok(text) => text,
        Err(LoadFault::CannotRead) => return Checked::unread(alloc, CheckFault::CannotRead),
        Err(LoadFault::NoMemory) => return Checked::unread(alloc, CheckFault::NoMemory),
    };
    let listing = match list(alloc, text.as_slice()) {
        Ok(listing) => listing,
        Err(SyntaxFault::InText { kind, place }) => {
            let outcome = Err(CheckFault::Syntax { kind, place });
            return Checked { outcome, text };
        }
        Err(SyntaxFault::NoMemory) => {
            let outcome = Err(CheckFault::NoMemory);
            return Checked { outcome, text };
        }
    };
    let outcome = match rights.write_bytes(output, listing.as_bytes()) {
        Ok(()) => Ok(()),
        Err(WriteFailed) => Err(CheckFault::WriteFailed),
    };
    Checked { outcome, text }
}

/// Returns the listing of a program text.
///
/// # Errors
///
/// The first fault of the text, or `NoMemory`.
fn list(alloc: Global, text: &[u8]) -> Result<String, SyntaxFault>
    ensures ok { IfOk result (λ listing. IsListingOf text.now (string_bytes listing)) }
    ensures err { IfErr result (FaultIs (IsFirstFault text.now)) }
{
    let tree = parse(alloc, text)?;
    let Ok(unit) = compile(alloc, tree) else {
        return Err(SyntaxFault::NoMemory);
    };
    match listing(alloc, &unit) {
        Ok(listing) => Ok(listing),
        Err(AllocError) => Err(SyntaxFault::NoMemory),
    }
}
