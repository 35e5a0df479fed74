//! The words that the open blocks declare.

ghost use Rattle.std.specs.Prelude.{◌≡◌, ◌+◌, ◌<◌, ◌^◌, [], ◌∷◌, IsOk, OnOk, OnErr, drop, length};
ghost use Rattle.pl0_names.specs.Blocks.{blocks_of, found_in, no_names, declared_in};

use crate::log::{Entry, Placed, cut, is_at, put};
use std::alloc::{AllocError, Global};
use std::collections::HashMap;
use std::marker::Model;

/// What a word is declared as, and how many blocks further out than the innermost one.
#[derive(Clone, Copy)]
pub struct Found<T> {
    pub level: usize,
    pub declared: T,
}

/// The words that the open blocks declare, in one table.
#[derive(Drop)]
pub struct OpenBlocks<'a, T: Copy> {
    log: Vec<Entry<'a, T>>,
    index: HashMap<&'a str, Placed<T>>,
    depth: usize,
}

impl<'a, T: Copy> Model for OpenBlocks<'a, T> {
    ghost use Rattle.std.specs.Prelude.{ℕ, List, reverse};

    ghost Value = { List (List (List ℕ × T)) };

    ghost use Rattle.pl0_names.specs.Logs.{blocks, IsTable};

    ghost view = { λ s. blocks s.depth (reverse s.log.items) };

    ghost invariant = { λ s. IsTable s.depth s.index (reverse s.log.items) };
}

impl<'a, T: Copy> OpenBlocks<'a, T> {
    /// Returns a table in which no block is open.
    pub fn new(alloc: Global) -> OpenBlocks<'a, T>
        ensures { blocks_of result ≡ [] }
    {
        OpenBlocks {
            log: Vec::new(alloc),
            index: HashMap::new(alloc),
            depth: 0,
        }
    }

    /// Opens a block in the innermost one.
    ///
    /// # Errors
    ///
    /// More blocks are open than can be counted; all is as it was.
    pub fn enter(&mut self) -> Result<(), AllocError>
        ensures ok { OnOk result (blocks_of self.new ≡ no_names ∷ blocks_of self.old) }
        ensures err { OnErr result (self.new ≡ self.old) }
        ensures room { length self.old + 1 < 2 ^ 64 → IsOk result }
    {
        if self.depth == usize::MAX {
            return Err(AllocError);
        }
        self.depth += 1;
        Ok(())
    }

    /// Declares a word in the innermost open block, if there is one. A word that this block has declared already stays as
    /// it is.
    ///
    /// # Errors
    ///
    /// Out of memory; all is as it was.
    pub fn declare(&mut self, word: &'a str, meaning: T) -> Result<(), AllocError>
        ensures ok { OnOk result (blocks_of self.new ≡ declared_in (blocks_of self.old) word.now meaning) }
        ensures err { OnErr result (self.new ≡ self.old) }
    {
        if self.depth == 0 {
            return Ok(());
        }
        let level = self.depth - 1;
        let hidden = self.index.get(word).copied();
        if is_at(&hidden, level) {
            return Ok(());
        }
        let placed = Placed { level, meaning };
        let entry = Entry {
            word,
            placed,
            hidden,
        };
        put(&mut self.log, &mut self.index, entry)
    }

    /// Returns what a word means: what the nearest open block that declares it declares it as.
    pub fn find(&self, word: &str) -> Option<Found<T>>
        ensures { result ≡ found_in 0 (blocks_of self.now) word.now }
    {
        let placed = *self.index.get(word)?;
        let level = self.depth - (placed.level + 1);
        Some(Found {
            level,
            declared: placed.meaning,
        })
    }

    /// Closes the innermost open block, if there is one.
    pub fn leave(&mut self)
        ensures { blocks_of self.new ≡ drop 1 (blocks_of self.old) }
    {
        if self.depth > 0 {
            self.depth -= 1;
            cut(&mut self.log, &mut self.index, self.depth);
        }
    }
}
