//! What a language gives a debugger besides: its texts, and what is shown.

ghost use Rattle.std.specs.Prelude.{◌≡◌, IfOk, IfSome, map, string_bytes};
ghost use Rattle.debuggee.specs.Shown.{IsPage, page_of, plain_frame, plain_loaded, plain_variable};

use crate::debuggee::Debuggee;
use std::alloc::{AllocError, Global};

/// A place where a breakpoint can be set.
#[derive(Clone, Copy)]
pub struct Location {
    /// The place, as [`Debuggee::place`] returns it.
    pub place: usize,
    /// Its line, counted from 1.
    pub line: u64,
}

/// A frame. Lines and columns are counted from 1.
#[derive(Drop)]
pub struct Frame {
    pub name: String,
    pub line: u64,
    pub column: u64,
}

/// A variable, its value's text, and the number, less than 2^30 - 1, by which the variables inside it are asked for, if
/// it has some.
#[derive(Drop)]
pub struct Variable {
    pub name: String,
    pub value: String,
    pub inside: Option<usize>,
}

/// Which variables of a list are asked for: so many of them, or all that there are, from this one on. The first is 0.
#[derive(Clone, Copy)]
pub struct Page {
    pub start: usize,
    pub count: usize,
}

impl Page {
    /// Returns those that are asked for of all.
    ///
    /// # Errors
    ///
    /// An allocation failed.
    pub fn of(self, all: Vec<Variable>) -> Result<Vec<Variable>, AllocError>
        ensures { IfOk result (λ shown. map plain_variable shown.items ≡ page_of self (map plain_variable all.items)) }
    {
        let mut all = all;
        if all.len() <= self.start {
            all.clear();
            return Ok(all);
        }
        let mut shown = all.split_off(self.start)?;
        shown.truncate(self.count);
        Ok(shown)
    }
}

/// A language. Its programs are debugged.
pub trait Language: Debuggee + Drop {
    ghost use Rattle.std.specs.Prelude.{◌≡◌, ◌<◌, IfOk, IfSome, map, string_bytes};
    ghost use Rattle.debuggee.specs.Shown.{IsPage, Shows, nothing_shown, plain_frame, plain_loaded, plain_variable};

    /// What a text is, and what is shown of a program. A language promises nothing of what it leaves out here.
    ghost shows: { Shows Self } = { nothing_shown };

    /// Reads a program. It stands before its first step. The JSON text of the arguments of the `launch` comes with it, for
    /// arguments of the language's own. An `Err` in the value is the mistake, as the user is told.
    ///
    /// # Errors
    ///
    /// An allocation failed.
    fn load(alloc: Global, text: &str, arguments: &str) -> Result<Result<Self, String>, AllocError>
        ensures { IfOk result (λ loaded. shows.reads_as text.now arguments.now (plain_loaded loaded)) };

    /// Returns the first place at or after a line, which is counted from 1; `None` where there is none.
    fn place_for(&self, line: u64) -> Option<Location>
        ensures { shows.first_place self.now line result };

    /// Returns the mistake in a condition at a place, as the user is told, if it has one: no breakpoint is set with it. By
    /// default none has.
    ///
    /// # Errors
    ///
    /// An allocation failed.
    fn mistake_in(
        &self,
        _alloc: Global,
        _place: usize,
        _condition: &str,
    ) -> Result<Option<String>, AllocError>
        ensures { IfOk result (λ mistake. IfSome mistake (λ why.
            shows.mistake_of self.now _place _condition.now (string_bytes why))) }
    {
        Ok(None)
    }

    /// Returns a frame that is alive, of which the newest is 0.
    ///
    /// # Errors
    ///
    /// An allocation failed.
    fn frame(&self, alloc: Global, index: usize) -> Result<Frame, AllocError>
        requires { index < Self.sees.depth_of self.now }
        ensures { IfOk result (λ frame. shows.frame_of self.now index (plain_frame frame)) };

    /// Returns the names of the scopes of a frame that is alive. The first 16 are shown.
    ///
    /// # Errors
    ///
    /// An allocation failed.
    fn scopes(&self, alloc: Global, frame: usize) -> Result<Vec<String>, AllocError>
        requires { frame < Self.sees.depth_of self.now }
        ensures { IfOk result (λ names. shows.scopes_of self.now frame (map string_bytes names.items)) };

    /// Returns variables of a scope of a frame that is alive. The first scope is 0.
    ///
    /// # Errors
    ///
    /// An allocation failed.
    fn variables(
        &self,
        alloc: Global,
        frame: usize,
        scope: usize,
        page: Page,
    ) -> Result<Vec<Variable>, AllocError>
        requires { frame < Self.sees.depth_of self.now }
        ensures { IfOk result (λ shown. IsPage (shows.variables_of self.now frame scope) page
            (map plain_variable shown.items)) };

    /// Returns variables inside a variable, by the number that it has; `None` where there are none, as by default.
    ///
    /// # Errors
    ///
    /// An allocation failed.
    fn inside(
        &self,
        _alloc: Global,
        _number: usize,
        _page: Page,
    ) -> Result<Option<Vec<Variable>>, AllocError>
        ensures { IfOk result (λ found. IfSome found (λ shown.
            IsPage (shows.inside_of self.now _number) _page (map plain_variable shown.items))) }
    {
        Ok(None)
    }
}
