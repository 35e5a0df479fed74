//! The arguments of a process, as texts.

ghost use Rattle.std.specs.Prelude.{◌≡◌, IfOk, map, string_bytes};
ghost use Rattle.std.specs.Vec.Iter.{into_iter_items};

use std::alloc::{AllocError, Global};
use std::env::Args;

/// Returns the arguments that a process was given as a list.
///
/// # Errors
///
/// `AllocError`, where an allocation failed.
pub fn collect_arguments(alloc: Global, given: Args) -> Result<Vec<String>, AllocError>
    ensures { IfOk result (λ arguments. arguments.items ≡ into_iter_items given) }
{
    given.collect(alloc)
}

/// Returns texts that are borrowed from these strings.
///
/// # Errors
///
/// `AllocError`, where an allocation failed.
pub fn borrow_texts(alloc: Global, strings: &[String]) -> Result<Vec<&str>, AllocError>
    ensures { IfOk result (λ texts. map (λ text. text.now) texts.items ≡ map string_bytes strings.now) }
{
    strings.iter().map(|string| string.as_str()).collect(alloc)
}
