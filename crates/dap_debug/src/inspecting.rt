//! Questions about the program where it stands.

ghost use Rattle.std.specs.Prelude.{◌≡◌, ◌<◌, ◌≤◌, ◌^◌, ◌-◌, codes, length, None, Some, IfOk, map, option_map, string_bytes};
ghost use Rattle.serde_json.specs.View.{view};
ghost use Rattle.dap_bodies.specs.Bodies.{plain_shown_frame, plain_shown_scope, plain_shown_variable};
ghost use Rattle.dap_server.specs.Messages.{plain_reply};
ghost use Rattle.dap_bodies.specs.Arguments.{text_at};
ghost use Rattle.debuggee.specs.Shown.{plain_variable};
ghost use Rattle.dap_debug.specs.Standings.{standing};
ghost use Rattle.dap_debug.specs.Inspecting.{Inspects, AnswersQuestion, ShowsFrame, ShowsInside, ShowsScopes, ShowsStack, ShowsVariables, Evaluates, Explains, frame_asked, frame_count, frame_limit, frame_of_reference, frame_to_evaluate, frame_with, first_frame, index_of_reference, number_of_reference, page_asked, page_count, reference_asked, reference_inside, scope_limit, shown_scope, shown_scopes, shown_variable, variables_reply};

use crate::command::Question;
use crate::state::{Counting, Phase, State};
use dap_bodies::{StackFrame, evaluated, exception_info, shown_text, text, whole};
use dap_server::Reply;
use debuggee::{Evaluated, Frame, Language, Page, Variable};
use serde_json::Value;
use std::alloc::{AllocError, Global};

/// How many scopes of a frame are shown at most.
const SCOPE_LIMIT: usize = 16;

/// Scopes are shown of this many frames at most, so that a reference is less than 2^31.
const FRAME_LIMIT: usize = 67_108_864;

/// The references after this one are of variables inside others, by their numbers.
const INSIDE_BASE: u64 = 1_073_741_824;

/// A variable with this number, or a later one, is shown as if nothing were inside, so that a reference is less than 2^31.
const NUMBER_LIMIT: usize = 1_073_741_823;

/// How many variables are shown at once at most.
const PAGE_LIMIT: u64 = 1024;

/// What is told where nothing has the reference that is asked for.
const NO_VARIABLES: &str = "no variables have this reference";

impl<L: Language> State<L> {
    /// Answers a question, if the program is stopped.
    ///
    /// # Errors
    ///
    /// An allocation failed.
    pub fn inspect(
        &self,
        alloc: Global,
        question: Question,
        arguments: Option<&Value>,
    ) -> Result<Reply, AllocError>
        ensures { IfOk result (λ reply. Inspects L.sees L.shows question
            (option_map (λ v. view v.now) arguments.entry) (standing self.now) (plain_reply reply)) }
    {
        match &self.phase {
            Phase::Stopped(program) => {
                let path = self.path.as_str();
                show(alloc, program, question, arguments, self.counting, path)
            }
            _ => Reply::refused(alloc, "the program isn't stopped"),
        }
    }

    /// Tells why the next step can't be taken, if the program has stopped at a fault.
    ///
    /// # Errors
    ///
    /// An allocation failed.
    pub fn explain(&self, alloc: Global) -> Result<Reply, AllocError>
        ensures { IfOk result (λ reply. Explains (standing self.now) (plain_reply reply)) }
    {
        match (&self.phase, &self.fault) {
            (Phase::Stopped(_), Some(fault)) => {
                let body = exception_info(alloc, fault.name.as_str(), fault.text.as_str())?;
                Ok(Reply::with_body(alloc, body))
            }
            _ => Reply::refused(alloc, "the program hasn't stopped at a fault"),
        }
    }
}

/// Answers a question about a program that is stopped.
fn show<L: Language>(
    alloc: Global,
    program: &L,
    question: Question,
    arguments: Option<&Value>,
    counting: Counting,
    path: &str,
) -> Result<Reply, AllocError>
    ensures { IfOk result (λ reply. AnswersQuestion L.sees L.shows question
        (option_map (λ v. view v.now) arguments.entry) counting path.now program.now (plain_reply reply)) }
{
    match question {
        Question::StackTrace => stack_trace(alloc, program, arguments, counting, path),
        Question::Scopes => {
            let many = program.depth().min(FRAME_LIMIT);
            match frame_asked(many, arguments) {
                Some(frame) => scopes(alloc, program, frame),
                None => Reply::refused(alloc, "no such frame is alive"),
            }
        }
        Question::Variables => variables(alloc, program, arguments),
        Question::Evaluate => evaluate(alloc, program, arguments),
    }
}

/// Shows the frames that are asked for.
fn stack_trace<L: Language>(
    alloc: Global,
    program: &L,
    arguments: Option<&Value>,
    counting: Counting,
    path: &str,
) -> Result<Reply, AllocError>
    ensures { IfOk result (λ reply. ShowsStack L.sees L.shows.frame_of counting path.now
        (option_map (λ v. view v.now) arguments.entry) program.now (plain_reply reply)) }
{
    let depth = program.depth();
    let first = first_frame(arguments, depth);
    let count = frame_count(arguments, depth - first);
    let mut frames = Vec::new(alloc);
    for index in first..first + count {
        frames.push(frame(alloc, program, index, counting, path)?)?;
    }
    Ok(Reply::with_body(alloc, dap_bodies::stack_trace(alloc, frames, depth as u64)?))
}

/// Returns the first of so many frames that is asked for; how many there are, where none is.
fn first_frame(arguments: Option<&Value>, many: usize) -> usize
    ensures first { result ≡ first_frame (option_map (λ v. view v.now) arguments.entry) many }
    ensures some { result ≤ many }
{
    let first = whole(arguments, "startFrame").unwrap_or(0);
    first.min(many as u64) as usize
}

/// Returns how many of so many frames are shown.
fn frame_count(arguments: Option<&Value>, many: usize) -> usize
    ensures count { result ≡ frame_count (option_map (λ v. view v.now) arguments.entry) many }
    ensures few { result ≤ many }
{
    let asked = whole(arguments, "levels").unwrap_or(0);
    page_count(asked).min(many as u64) as usize
}

/// Returns how many are shown at once of so many that are asked for; 0 asks for all.
fn page_count(asked: u64) -> u64
    ensures { result ≡ page_count asked }
{
    match asked {
        0 => PAGE_LIMIT,
        count => count.min(PAGE_LIMIT),
    }
}

/// Shows a frame, with its line and column as the client counts.
fn frame<L: Language>(
    alloc: Global,
    program: &L,
    index: usize,
    counting: Counting,
    path: &str,
) -> Result<StackFrame, AllocError>
    requires alive { index < L.sees.depth_of program.now }
    requires fits { index < 2 ^ 64 - 1 }
    ensures { IfOk result (λ shown. ShowsFrame L.shows.frame_of counting path.now program.now index
        (plain_shown_frame shown)) }
{
    let Frame { name, line, column } = program.frame(alloc, index)?;
    Ok(StackFrame {
        id: index as u64 + 1,
        name,
        path: String::from_str(alloc, path)?,
        line: line.saturating_sub(counting.line_offset()),
        column: column.saturating_sub(counting.column_offset()),
    })
}

/// Returns the frame with this identifier, if it is one of so many.
fn frame_with(many: usize, id: u64) -> Option<usize>
    ensures { result ≡ frame_with many id }
{
    if 1 <= id && id <= many as u64 {
        Some(id as usize - 1)
    } else {
        None
    }
}

/// Returns the frame that is asked for, if it is one of so many.
fn frame_asked(many: usize, arguments: Option<&Value>) -> Option<usize>
    ensures { result ≡ frame_asked many (option_map (λ v. view v.now) arguments.entry) }
{
    frame_with(many, whole(arguments, "frameId")?)
}

/// Shows the scopes of a frame.
fn scopes<L: Language>(alloc: Global, program: &L, frame: usize) -> Result<Reply, AllocError>
    requires alive { frame < L.sees.depth_of program.now }
    requires near { frame < frame_limit }
    ensures { IfOk result (λ reply. ShowsScopes L.shows (Some frame) program.now (plain_reply reply)) }
{
    let mut names = program.scopes(alloc, frame)?;
    names.truncate(SCOPE_LIMIT);
    let body = dap_bodies::scopes(alloc, all_scopes(alloc, frame, names)?)?;
    Ok(Reply::with_body(alloc, body))
}

/// Shows scopes.
fn all_scopes(
    alloc: Global,
    frame: usize,
    names: Vec<String>,
) -> Result<Vec<dap_bodies::Scope>, AllocError>
    requires near { frame < frame_limit }
    requires few { length names.items ≤ scope_limit }
    ensures { IfOk result (λ shown. map plain_shown_scope shown.items ≡
        shown_scopes frame 0 (map string_bytes names.items)) }
{
    let mut shown = Vec::new(alloc);
    let mut index = 0;
    for one in names {
        shown.push(scope(frame, index, one))?;
        index += 1;
    }
    Ok(shown)
}

/// Shows a scope.
fn scope(frame: usize, index: usize, name: String) -> dap_bodies::Scope
    requires near { frame < frame_limit }
    requires few { index < scope_limit }
    ensures { plain_shown_scope result ≡ shown_scope frame index (string_bytes name) }
{
    dap_bodies::Scope {
        name,
        reference: frame as u64 * SCOPE_LIMIT as u64 + index as u64 + 1,
    }
}

/// Shows variables of the scope, or inside the variable, that is asked for.
fn variables<L: Language>(
    alloc: Global,
    program: &L,
    arguments: Option<&Value>,
) -> Result<Reply, AllocError>
    ensures { IfOk result (λ reply. ShowsVariables L.shows
        (number_of_reference (reference_asked (option_map (λ v. view v.now) arguments.entry)))
        (frame_of_reference (L.sees.depth_of program.now)
        (reference_asked (option_map (λ v. view v.now) arguments.entry)))
        (index_of_reference (reference_asked (option_map (λ v. view v.now) arguments.entry)))
        (page_asked (option_map (λ v. view v.now) arguments.entry)) program.now (plain_reply reply)) }
{
    let reference = whole(arguments, "variablesReference").unwrap_or(0);
    let page = page_asked(arguments);
    match number_of_reference(reference) {
        Some(number) => variables_inside(alloc, program, number, page),
        None => match frame_of_reference(program.depth(), reference) {
            Some(frame) => {
                variables_of_frame(alloc, program, frame, index_of_reference(reference), page)
            }
            None => Reply::refused(alloc, NO_VARIABLES),
        },
    }
}

/// Returns which variables are asked for.
fn page_asked(arguments: Option<&Value>) -> Page
    ensures { result ≡ page_asked (option_map (λ v. view v.now) arguments.entry) }
{
    let asked = whole(arguments, "count").unwrap_or(0);
    Page {
        start: index_of(whole(arguments, "start").unwrap_or(0)),
        count: page_count(asked) as usize,
    }
}

/// Returns a number as an index; the largest one where `usize` is too narrow, which is an index of nothing.
fn index_of(number: u64) -> usize
    ensures { result ≡ number }
{
    number.min(usize::MAX as u64) as usize
}

/// Shows variables inside the one with this number.
fn variables_inside<L: Language>(
    alloc: Global,
    program: &L,
    number: usize,
    page: Page,
) -> Result<Reply, AllocError>
    ensures { IfOk result (λ reply. ShowsInside (L.shows.inside_of program.now number) page (plain_reply reply)) }
{
    match program.inside(alloc, number, page)? {
        Some(variables) => reply_with_variables(alloc, variables),
        None => Reply::refused(alloc, NO_VARIABLES),
    }
}

/// Shows variables of the scope with this index of a frame.
fn variables_of_frame<L: Language>(
    alloc: Global,
    program: &L,
    frame: usize,
    index: usize,
    page: Page,
) -> Result<Reply, AllocError>
    requires { frame < L.sees.depth_of program.now }
    ensures { IfOk result (λ reply. ShowsVariables L.shows None (Some frame) index page program.now
        (plain_reply reply)) }
{
    let names = program.scopes(alloc, frame)?;
    if index < names.len() {
        reply_with_variables(alloc, program.variables(alloc, frame, index, page)?)
    } else {
        Reply::refused(alloc, NO_VARIABLES)
    }
}

/// Returns the number of the variable whose inside has a reference, if it is one of these.
fn number_of_reference(reference: u64) -> Option<usize>
    ensures { result ≡ number_of_reference reference }
{
    if INSIDE_BASE < reference {
        Some(index_of(reference - INSIDE_BASE - 1))
    } else {
        None
    }
}

/// Returns the frame of the scope with a reference, if it is one of so many.
fn frame_of_reference(many: usize, reference: u64) -> Option<usize>
    ensures { result ≡ frame_of_reference many reference }
{
    if reference == 0 {
        None
    } else {
        frame_with(many, (reference - 1) / SCOPE_LIMIT as u64 + 1)
    }
}

/// Returns the index of the scope with a reference.
fn index_of_reference(reference: u64) -> usize
    ensures { result ≡ index_of_reference reference }
{
    (reference.saturating_sub(1) % SCOPE_LIMIT as u64) as usize
}

/// Returns the reply that shows these variables.
fn reply_with_variables(alloc: Global, variables: Vec<Variable>) -> Result<Reply, AllocError>
    ensures { IfOk result (λ reply. plain_reply reply ≡ variables_reply (map plain_variable variables.items)) }
{
    let body = dap_bodies::variables(alloc, all_variables(alloc, variables)?)?;
    Ok(Reply::with_body(alloc, body))
}

/// Shows variables.
fn all_variables(
    alloc: Global,
    variables: Vec<Variable>,
) -> Result<Vec<dap_bodies::Variable>, AllocError>
    ensures { IfOk result (λ shown. map plain_shown_variable shown.items ≡
        map shown_variable (map plain_variable variables.items)) }
{
    let mut shown = Vec::new(alloc);
    for variable in variables {
        shown.push(shown_variable(variable))?;
    }
    Ok(shown)
}

/// Shows a variable.
fn shown_variable(variable: Variable) -> dap_bodies::Variable
    ensures { plain_shown_variable result ≡ shown_variable (plain_variable variable) }
{
    dap_bodies::Variable {
        name: variable.name,
        value: variable.value,
        reference: reference_inside(variable.inside),
    }
}

/// Returns the reference of what is inside a variable with this number; 0 where there is none.
fn reference_inside(number: Option<usize>) -> u64
    ensures { result ≡ reference_inside number }
{
    match number {
        Some(number) if number < NUMBER_LIMIT => INSIDE_BASE + 1 + number as u64,
        _ => 0,
    }
}

/// Shows the value of an expression.
fn evaluate<L: Language>(
    alloc: Global,
    program: &L,
    arguments: Option<&Value>,
) -> Result<Reply, AllocError>
    ensures { IfOk result (λ reply. Evaluates L.sees
        (text_at (codes "expression") (option_map (λ v. view v.now) arguments.entry))
        (frame_to_evaluate (L.sees.depth_of program.now) (option_map (λ v. view v.now) arguments.entry))
        program.now (plain_reply reply)) }
{
    let Some(expression) = text(arguments, "expression") else {
        return Reply::refused(alloc, "`expression` is missing");
    };
    let id = whole(arguments, "frameId").unwrap_or(1);
    let Some(frame) = frame_with(program.depth(), id) else {
        return Reply::refused(alloc, "no such frame is alive");
    };
    match program.evaluate(alloc, frame, expression)? {
        Evaluated::Value(value, _) => Ok(Reply::with_body(alloc, evaluated(alloc, value, 0)?)),
        Evaluated::NoValue(why) => Reply::refused(alloc, shown_text(why)?.as_str()),
    }
}
