//! What a name is declared as.

use crate::cases::resembles;
use crate::found::{Token, next_token};
use crate::scene::{Past, is_declaring, is_name, nothing_past};

/// What a name is declared as.
#[derive(Clone, Copy, PartialEq, Eq)]
pub enum Kind {
    Constant,
    Variable,
    Procedure,
}

/// The blocks around a place that declare a name as each kind: bit n stands for the one that n blocks enclose.
#[derive(Clone, Copy)]
struct Declared {
    constants: u128,
    variables: u128,
    procedures: u128,
}

/// Returns what a name is declared as, by the nearest block around the end of a text's front; `None` where it isn't yet.
pub(crate) fn kind_of(front: &[u8], name: Token<'_>) -> Option<Kind> {
    let mut declared = Declared {
        constants: 0,
        variables: 0,
        procedures: 0,
    };
    let mut past = nothing_past();
    let mut rest = front;
    while let Some((token, after)) = next_token(rest) {
        declared = declared.within(blocks(past.procedures));
        if is_name(token) && token.bytes == name.bytes {
            declared = declared.with(past);
        }
        past = past.followed_by(token);
        rest = after;
    }
    declared.within(blocks(past.procedures)).nearest()
}

/// Returns the last procedure in a text's front with a constant or a variable of this name.
pub(crate) fn procedure_with<'a>(front: &'a [u8], name: Token<'_>) -> Option<Token<'a>> {
    let mut procedure = None;
    let mut found = None;
    let mut past = nothing_past();
    let mut rest = front;
    while let Some((token, after)) = next_token(rest) {
        if past.last.is("procedure") {
            procedure = Some(token);
        } else if past.opener.is_one_of("const var") && token.bytes == name.bytes {
            found = procedure;
        }
        past = past.followed_by(token);
        rest = after;
    }
    found
}

/// Returns the first name declared in a text's front, and known at its end, that a name resembles.
pub(crate) fn name_nearby<'a>(front: &'a [u8], name: Token<'_>) -> Option<Token<'a>> {
    let mut found = None;
    let mut depth = 0;
    let mut past = nothing_past();
    let mut rest = front;
    while let Some((token, after)) = next_token(rest) {
        if past.procedures < depth {
            found = None;
            depth = 0;
        }
        let declared = is_declaring(past.opener) && is_name(token);
        if declared && found.is_none() && resembles(token, name) {
            found = Some(token);
            depth = block_of(past);
        }
        past = past.followed_by(token);
        rest = after;
    }
    if past.procedures < depth { None } else { found }
}

/// Returns how many procedures enclose the block of a name that is declared behind these tokens.
fn block_of(past: Past<'_>) -> u32 {
    // The name of a procedure belongs to the block around it.
    let inner = past.opener.is("procedure") as u32;
    past.procedures.saturating_sub(inner)
}

/// Whether a name stands behind `procedure` anywhere in bytes.
pub(crate) fn is_procedure_in(bytes: &[u8], name: Token<'_>) -> bool {
    let mut behind = false;
    let mut rest = bytes;
    while let Some((token, after)) = next_token(rest) {
        if behind && token.bytes == name.bytes {
            return true;
        }
        behind = token.is("procedure");
        rest = after;
    }
    false
}

/// How many blocks around a place are told apart. A `u128` has one bit more, so that not all are shifted out at once.
const BLOCKS: u32 = 127;

/// Returns the bits of the blocks around a place that this many procedures enclose.
fn blocks(procedures: u32) -> u128 {
    !((u128::MAX << (procedures % BLOCKS)) << 1)
}

impl Declared {
    /// Returns what these blocks declare.
    fn within(self, blocks: u128) -> Declared {
        Declared {
            constants: self.constants & blocks,
            variables: self.variables & blocks,
            procedures: self.procedures & blocks,
        }
    }

    /// Returns what is declared with the name at a place with these tokens before it, where it declares one.
    fn with(self, past: Past<'_>) -> Declared {
        let here = 1 << (past.procedures % BLOCKS);
        let mut declared = self;
        if past.opener.is("const") {
            declared.constants |= here;
        } else if past.opener.is("var") {
            declared.variables |= here;
        } else if past.opener.is("procedure") {
            declared.procedures |= here >> 1;
        }
        declared
    }

    /// Returns the kind that the innermost block declares.
    fn nearest(self) -> Option<Kind> {
        let others = self.constants.max(self.variables).max(self.procedures);
        if others == 0 {
            None
        } else if others == self.constants {
            Some(Kind::Constant)
        } else if others == self.variables {
            Some(Kind::Variable)
        } else {
            Some(Kind::Procedure)
        }
    }
}
