//! The declarations of the open blocks in their order, and what each word means.

ghost use Rattle.std.specs.Prelude.{◌≡◌, ℕ, ◌+◌, ◌∷◌, List, reverse, IsSome, IsOk, OnOk, OnErr};
ghost use Rattle.std.specs.Map.{update};
ghost use Rattle.std.specs.Str.{bytes_eq};
ghost use Rattle.pl0_names.specs.Logs.{blocks, ends_at, is_at, index_of, IsNested, IsIndexed};

use std::alloc::AllocError;
use std::collections::HashMap;

/// What a word means: what it is declared as, and how many blocks are around the one that declares it.
#[derive(Clone, Copy)]
pub(crate) struct Placed<T: Copy> {
    pub(crate) level: usize,
    pub(crate) meaning: T,
}

/// A declaration: its word, what it means, and what it meant before.
#[derive(Clone, Copy)]
pub(crate) struct Entry<'a, T: Copy> {
    pub(crate) word: &'a str,
    pub(crate) placed: Placed<T>,
    pub(crate) hidden: Option<Placed<T>>,
}

/// Whether the block with `level` blocks around it declares what a word means.
pub(crate) fn is_at<T: Copy>(placed: &Option<Placed<T>>, level: usize) -> bool
    ensures { result ≡ is_at level placed.now }
{
    match placed {
        None => false,
        Some(placed) => placed.level == level,
    }
}

/// Adds a declaration. An error, out of memory, leaves the log as it was.
pub(crate) fn put<'a, T: Copy>(
    log: &mut Vec<Entry<'a, T>>,
    index: &mut HashMap<&'a str, Placed<T>>,
    entry: Entry<'a, T>,
) -> Result<(), AllocError>
    requires indexed { IsIndexed (entry.placed.level + 1) index.old (reverse log.old.items) }
    requires hidden { entry.hidden ≡ index_of index.old entry.word.now }
    ensures indexed { IsIndexed (entry.entry.placed.level + 1) index.new (reverse log.new.items) }
    ensures ok { OnOk result (reverse log.new.items ≡ entry.entry ∷ reverse log.old.items) }
    ensures err { OnErr result (log.new.items ≡ log.old.items) }
{
    let word = entry.word;
    let placed = entry.placed;
    log.push(entry)?;
    match index.insert(word, placed) {
        Ok(_) => Ok(()),
        Err(_) => {
            let _ = log.pop();
            Err(AllocError)
        }
    }
}

/// Removes the declarations of the innermost block, which has `level` blocks around it.
pub(crate) fn cut<'a, T: Copy>(
    log: &mut Vec<Entry<'a, T>>,
    index: &mut HashMap<&'a str, Placed<T>>,
    level: usize,
)
    requires indexed { IsIndexed (level + 1) index.old (reverse log.old.items) }
    requires nested { IsNested (level + 1) (reverse log.old.items) }
    ensures indexed { IsIndexed level index.new (reverse log.new.items) }
    ensures nested { IsNested level (reverse log.new.items) }
    ensures outer { blocks level (reverse log.new.items) ≡ blocks level (reverse log.old.items) }
{
    while ends_at(log, level) {
        if let Some(entry) = log.pop() {
            restore(index, entry);
        }
    }
}

/// Whether the latest declaration is of the block with `level` blocks around it.
fn ends_at<T: Copy>(log: &[Entry<T>], level: usize) -> bool
    ensures { result ≡ ends_at level (reverse log.now) }
{
    match log.last() {
        None => false,
        Some(entry) => entry.placed.level == level,
    }
}

/// Removes a declaration from the index: its word means again what it meant before.
fn restore<'a, T: Copy>(index: &mut HashMap<&'a str, Placed<T>>, entry: Entry<'a, T>)
    requires { IsSome (index_of index.old entry.word.now) }
    ensures { (w : List ℕ) → index_of index.new w
        ≡ update bytes_eq (index_of index.old) entry.entry.word.now entry.entry.hidden w }
{
    let word = entry.word;
    match entry.hidden {
        None => {
            let _ = index.remove(word);
        }
        Some(placed) => {
            let _ = index.insert(word, placed);
        }
    }
}
