//! Looks names of a program up, from a block outward.

ghost use Rattle.std.specs.Prelude.{ℕ, ◌≡◌, ◌<◌, ◌^◌, length, slice_get, option_map, option_and_then, position, Some, IfOk, string_bytes};
ghost use Rattle.std.specs.Str.{bytes_eq};
ghost use Rattle.pl0_tree.specs.Blocks.{AreNestings};
ghost use Rattle.pl0_tree.specs.Plain.{plain_block};
ghost use Rattle.pl0_tree.specs.Scope.{Path, block_at, first_declaration, home};
ghost use Rattle.pl0_tree.specs.Steps.{blocks};
ghost use Rattle.pl0_tree.specs.declared.tree.Procedure.{out-Procedure};
ghost use Rattle.pl0_names.specs.Homes.{IsHomeAnswer, meaning_of};
ghost use Rattle.pl0_names.specs.Judging.{means, IsTableOf};

use crate::block_table::block;
use crate::open_blocks::OpenBlocks;
use crate::scope::{Declared, Meaning, enter_block, find};
use pl0_tree::{Block, Constant, Name, Nesting, Procedure};
use std::alloc::{AllocError, Global};
use std::marker::Model;

/// The nearest block that declares a name, how many levels further out it is, and what it declares the name as.
#[derive(Clone, Copy)]
pub struct Home<'a> {
    pub block: &'a Block,
    pub level: usize,
    pub meaning: Meaning,
}

/// The names that the blocks of a program declare.
///
/// A look-up goes from a block outward. Where there are tables, it takes one step for each block; where there are none, it
/// walks past all that these blocks declare.
#[derive(Drop)]
pub struct Names<'a> {
    main: &'a Block,
    nestings: &'a [Option<Nesting>],
    // What each block declares, by the block's number.
    tables: Option<Vec<OpenBlocks<'a, Declared>>>,
}

impl<'a> Model for Names<'a> {
    ghost use Rattle.std.specs.Prelude.{option_map};
    ghost use Rattle.pl0_tree.specs.declared.tree.Block.{Block};
    ghost use Rattle.pl0_tree.specs.Plain.{plain_block};
    ghost use Rattle.pl0_tree.specs.contracts.tree.Block as block;
    ghost use Rattle.pl0_names.specs.Judging.{AreNames};
    ghost use Rattle.std.specs.Coded.{codes};

    ghost Value = { Block };

    ghost coded = { Prim.hlevel (codes, block.the_row.coded) };

    ghost view = { λ s. s.main.now };

    ghost invariant = { λ s. AreNames (plain_block s.main.now) s.nestings.now
        (option_map (λ tables. tables.items) s.tables) };
}

impl<'a> Names<'a> {
    /// Returns the names of a program without tables of names, where `nestings` is what `blocks` returned.
    pub fn new(main: &'a Block, nestings: &'a [Option<Nesting>]) -> Names<'a>
        requires { AreNestings (plain_block main.now) nestings.now (blocks (plain_block main.now)) }
        ensures { result ≡ main.now }
    {
        let tables = None;
        Names {
            main,
            nestings,
            tables,
        }
    }

    /// Returns the same as `new`, with a table of names for each block, made in one walk over all declarations.
    ///
    /// # Errors
    ///
    /// Out of memory.
    pub fn with_tables(
        alloc: Global,
        main: &'a Block,
        nestings: &'a [Option<Nesting>],
    ) -> Result<Names<'a>, AllocError>
        requires nestings { AreNestings (plain_block main.now) nestings.now (blocks (plain_block main.now)) }
        requires few { length (blocks (plain_block main.now)) < 2 ^ 32 }
        ensures { IfOk result (λ names. names ≡ main.now) }
    {
        let mut tables = Vec::with_capacity(alloc, nestings.len())?;
        for number in 0..nestings.len() {
            let declaring = block(main, nestings, number as u32);
            let table = table_of(alloc, declaring)?;
            tables.push(table)?;
        }
        Ok(Names {
            main,
            nestings,
            tables: Some(tables),
        })
    }

    /// Returns what the block with this number declares a word as, if it declares it.
    fn declared(&self, number: u32, word: &str) -> Option<Meaning>
        requires { number < length (blocks (plain_block self.now)) }
        ensures { (q : Path) → slice_get (blocks (plain_block self.now)) number ≡ Some q →
            option_map meaning_of result
            ≡ option_map means (option_and_then (first_declaration word.now) (block_at (plain_block self.now) q)) }
    {
        match &self.tables {
            Some(tables) => Some(find(&tables[number as usize], word)?.meaning),
            None => declared_in(block(self.main, self.nestings, number), word),
        }
    }

    /// Returns what a word means in the block with this number: what the nearest block that declares it says, from that one
    /// outward; `None` if no block declares it.
    pub fn find(&self, number: u32, word: &str) -> Option<Home<'a>>
        requires { number < length (blocks (plain_block self.now)) }
        ensures { (q : Path) → slice_get (blocks (plain_block self.now)) number ≡ Some q →
            IsHomeAnswer (plain_block self.now) q (home (plain_block self.now) q word.now) result }
    {
        let mut around = number;
        let mut level = 0;
        loop {
            if let Some(meaning) = self.declared(around, word) {
                let block = block(self.main, self.nestings, around);
                return Some(Home {
                    block,
                    level,
                    meaning,
                });
            }
            let nesting = self.nestings[around as usize]?;
            around = nesting.outer;
            level += 1;
        }
    }
}

/// Returns a table of what a block declares.
fn table_of<'a>(alloc: Global, block: &'a Block) -> Result<OpenBlocks<'a, Declared>, AllocError>
    ensures { IfOk result (IsTableOf (plain_block block.now)) }
{
    let mut table = OpenBlocks::new(alloc);
    enter_block(&mut table, block)?;
    Ok(table)
}

/// Returns what a block declares a word as, if it declares it.
fn declared_in(block: &Block, word: &str) -> Option<Meaning>
    ensures { option_map meaning_of result ≡ option_map means (first_declaration word.now (plain_block block.now)) }
{
    if let Some(index) = constant_in(&block.constants, word) {
        return Some(Meaning::Constant(index));
    }
    if let Some(index) = variable_in(&block.variables, word) {
        return Some(Meaning::Variable(index));
    }
    let index = procedure_in(&block.procedures, word)?;
    Some(Meaning::Procedure(index))
}

/// Returns the index of the constant with this name.
fn constant_in(constants: &[Constant], word: &str) -> Option<usize>
    ensures { result ≡ position (λ c. bytes_eq (string_bytes c.name.text) word.now) constants.now }
{
    constants
        .iter()
        .position(|constant| constant.name.text.as_str() == word)
}

/// Returns the index of the variable with this name.
fn variable_in(variables: &[Name], word: &str) -> Option<usize>
    ensures { result ≡ position (λ x. bytes_eq (string_bytes x.text) word.now) variables.now }
{
    variables.iter().position(|name| name.text.as_str() == word)
}

/// Returns the index of the procedure with this name.
fn procedure_in(procedures: &[Procedure], word: &str) -> Option<usize>
    ensures { result ≡ position (λ p. bytes_eq (string_bytes (out-Procedure p).name.text) word.now) procedures.now }
{
    procedures
        .iter()
        .position(|procedure| procedure.name.text.as_str() == word)
}
