//! Setting breakpoints.

ghost use Rattle.std.specs.Prelude.{◌≡◌, ◌≢◌, ℕ, Option, ◌++◌, ◌∷◌, [], codes, decimal, None, Some, IfNone, IfOk, IfSome, OnOk, map, option_map, string_bytes};
ghost use Rattle.std.specs.Bool.{Decides};
ghost use Rattle.std.specs.Option.{option_to_list};
ghost use Rattle.serde_json.specs.View.{items_view, view};
ghost use Rattle.dap_bodies.specs.Bodies.{Refused, plain_shown_breakpoint};
ghost use Rattle.dap_server.specs.Messages.{plain_reply};
ghost use Rattle.debuggee.specs.Plain.{Text, Expression, plain_breakpoint, plain_part};
ghost use Rattle.dap_debug.specs.Standings.{standing};
ghost use Rattle.dap_debug.specs.Breakpoints.{AreParts, AreSet, AreUnset, HasExpression, HasMistake, IsAnswered, IsCount, IsMessage, IsUnclosed, IsRule, IsSet, Sets, SetsIn, answers_reply, counted_at, source_asked, text_of, unless_empty};

use crate::state::State;
use dap_bodies::{list, member, text, whole};
use dap_server::Reply;
use debuggee::{Breakpoint, Language, Location, Part, Rule};
use serde_json::Value;
use std::alloc::{AllocError, Global};

/// How many bytes a message has at most.
const MESSAGE_LIMIT: usize = 65_536;

/// A breakpoint, if it is set, and what is answered.
#[derive(Drop)]
pub struct Answered {
    pub breakpoint: Option<Breakpoint>,
    pub answer: dap_bodies::Breakpoint,
}

/// Breakpoints that are set, and what is answered.
#[derive(Drop)]
pub struct AllAnswered {
    pub breakpoints: Vec<Breakpoint>,
    pub answers: Vec<dap_bodies::Breakpoint>,
}

impl<L: Language> State<L> {
    /// Sets the breakpoints of the program, also while it runs: from its next step on they count.
    ///
    /// # Errors
    ///
    /// An allocation failed. The breakpoints are those from before, or those that were asked for.
    pub fn set_breakpoints(
        &mut self,
        alloc: Global,
        arguments: Option<&Value>,
    ) -> Result<Reply, AllocError>
        ensures { IfOk result (λ reply. Sets L.shows (option_map (λ v. view v.now) arguments.entry)
            (standing self.old) (plain_reply reply) (standing self.new)) }
    {
        match self.phase.program() {
            Some(program) => {
                let path = self.path.as_str();
                let less = self.counting.line_offset();
                set_in(alloc, program, path, less, arguments, &mut self.breakpoints)
            }
            None => Reply::refused(alloc, "no program is loaded"),
        }
    }
}

/// Sets the breakpoints of a program with this path, if they are those that are asked for. The client's lines are so much
/// less than those counted from 1.
fn set_in<L: Language>(
    alloc: Global,
    program: &L,
    path: &str,
    less: u64,
    arguments: Option<&Value>,
    breakpoints: &mut Vec<Breakpoint>,
) -> Result<Reply, AllocError>
    ensures { IfOk result (λ reply. SetsIn L.shows less (option_map (λ v. view v.now) arguments.entry) program.now
        path.now (map plain_breakpoint breakpoints.old.items) (plain_reply reply)
        (map plain_breakpoint breakpoints.new.items)) }
{
    let asked = list(arguments, "breakpoints");
    if is_source(arguments, path) {
        let set = set_all(alloc, program, less, asked)?;
        *breakpoints = set.breakpoints;
        reply_with(alloc, set.answers)
    } else {
        let answers = refuse_all(alloc, asked)?;
        reply_with(alloc, answers)
    }
}

/// Whether breakpoints of the source at this path are asked for.
fn is_source(arguments: Option<&Value>, path: &str) -> bool
    ensures { Decides result (source_asked (option_map (λ v. view v.now) arguments.entry) ≡ Some path.now) }
{
    match text(member(arguments, "source"), "path") {
        Some(asked) => asked == path,
        None => false,
    }
}

/// Returns the reply that gives these answers.
fn reply_with(alloc: Global, answers: Vec<dap_bodies::Breakpoint>) -> Result<Reply, AllocError>
    ensures { IfOk result (λ reply. plain_reply reply ≡ answers_reply (map plain_shown_breakpoint answers.items)) }
{
    Ok(Reply::with_body(alloc, dap_bodies::breakpoints(alloc, answers)?))
}

/// Answers that none of these breakpoints is set.
fn refuse_all(alloc: Global, asked: &[Value]) -> Result<Vec<dap_bodies::Breakpoint>, AllocError>
    ensures { IfOk result (λ answers. AreUnset (items_view asked.now) (map plain_shown_breakpoint answers.items)) }
{
    let mut answers = Vec::new(alloc);
    for _ in asked {
        answers.push(refused(alloc, "this isn't the program's source")?)?;
    }
    Ok(answers)
}

/// Sets breakpoints.
fn set_all<L: Language>(
    alloc: Global,
    program: &L,
    less: u64,
    asked: &[Value],
) -> Result<AllAnswered, AllocError>
    ensures { IfOk result (λ set. AreSet L.shows less program.now (items_view asked.now)
        (map plain_shown_breakpoint set.answers.items) (map plain_breakpoint set.breakpoints.items)) }
{
    let mut breakpoints = Vec::new(alloc);
    let mut answers = Vec::new(alloc);
    for one in asked {
        let Answered { breakpoint, answer } = set_one(alloc, program, less, one)?;
        keep(&mut breakpoints, breakpoint)?;
        answers.push(answer)?;
    }
    Ok(AllAnswered {
        breakpoints,
        answers,
    })
}

/// Adds a breakpoint, if there is one.
fn keep(breakpoints: &mut Vec<Breakpoint>, breakpoint: Option<Breakpoint>) -> Result<(), AllocError>
    ensures { OnOk result (map plain_breakpoint breakpoints.new.items ≡
        map plain_breakpoint breakpoints.old.items ++ option_to_list (option_map plain_breakpoint breakpoint)) }
{
    if let Some(breakpoint) = breakpoint {
        breakpoints.push(breakpoint)?;
    }
    Ok(())
}

/// Sets a breakpoint.
fn set_one<L: Language>(
    alloc: Global,
    program: &L,
    less: u64,
    asked: &Value,
) -> Result<Answered, AllocError>
    ensures { IfOk result (λ set. IsSet L.shows less program.now (view asked.now) (plain_shown_breakpoint set.answer)
        (option_map plain_breakpoint set.breakpoint)) }
{
    match whole(Some(asked), "line") {
        Some(line) => {
            let first = program.place_for(line.saturating_add(less));
            set_at(alloc, program, asked, counted_at(less, first))
        }
        None => refuse(alloc, "`line` is missing"),
    }
}

/// Returns a place, if there is one, with its line as the client counts.
fn counted_at(less: u64, first: Option<Location>) -> Option<Location>
    ensures { result ≡ option_map (counted_at less) first }
{
    let Location { place, line } = first?;
    Some(Location {
        place,
        line: line.saturating_sub(less),
    })
}

/// Sets a breakpoint where the first place for its line is this one, with its line as the client counts, unless its rule,
/// message or condition is wrong.
fn set_at<L: Language>(
    alloc: Global,
    program: &L,
    asked: &Value,
    first: Option<Location>,
) -> Result<Answered, AllocError>
    ensures { IfOk result (λ set. IsAnswered L.shows program.now (view asked.now) first
        (plain_shown_breakpoint set.answer) (option_map plain_breakpoint set.breakpoint)) }
{
    let Some(location) = first else {
        return refuse(alloc, "no place is at this line or after it");
    };
    let Some(rule) = rule_of(text_of(asked, "hitCondition")) else {
        return refuse(alloc, "a hit condition is N, =N or %N");
    };
    if MESSAGE_LIMIT < text_of(asked, "logMessage").len() {
        return refuse(alloc, "a message has at most 65,536 bytes");
    }
    let condition = unless_empty(alloc, text_of(asked, "condition"))?;
    match mistake_in(alloc, program, location.place, &condition)? {
        Some(why) => refuse(alloc, why.as_str()),
        None => Ok(Answered {
            breakpoint: Some(Breakpoint {
                place: location.place,
                condition,
                rule,
                arrivals: 0,
                message: message_of(alloc, text_of(asked, "logMessage"))?,
            }),
            answer: dap_bodies::Breakpoint::SetAt(location.line),
        }),
    }
}

/// Returns the mistake in a condition, if there is one and it has one.
fn mistake_in<L: Language>(
    alloc: Global,
    program: &L,
    place: usize,
    condition: &Option<String>,
) -> Result<Option<String>, AllocError>
    ensures { IfOk result (λ mistake. IfSome mistake (λ why.
        HasMistake L.shows program.now place (option_map string_bytes condition.now) (string_bytes why))) }
{
    match condition {
        Some(condition) => program.mistake_in(alloc, place, condition.as_str()),
        None => Ok(None),
    }
}

/// Answers that a breakpoint isn't set, and why.
fn refuse(alloc: Global, why: &str) -> Result<Answered, AllocError>
    ensures { IfOk result (λ set. (set.breakpoint ≡ None) × (plain_shown_breakpoint set.answer ≡ Refused why.now)) }
{
    Ok(Answered {
        breakpoint: None,
        answer: refused(alloc, why)?,
    })
}

/// Returns the answer that a breakpoint isn't set, and why.
fn refused(alloc: Global, why: &str) -> Result<dap_bodies::Breakpoint, AllocError>
    ensures { IfOk result (λ answer. plain_shown_breakpoint answer ≡ Refused why.now) }
{
    Ok(dap_bodies::Breakpoint::Refused(String::from_str(alloc, why)?))
}

/// Returns a text of a breakpoint that is asked for; an absent one is empty.
fn text_of<'v>(asked: &'v Value, key: &str) -> &'v str
    ensures { result.now ≡ text_of key.now (view asked.now) }
{
    text(Some(asked), key).unwrap_or("")
}

/// Returns a text that isn't empty.
fn unless_empty(alloc: Global, text: &str) -> Result<Option<String>, AllocError>
    ensures { IfOk result (λ kept. option_map string_bytes kept ≡ unless_empty text.now) }
{
    if text.is_empty() {
        Ok(None)
    } else {
        Ok(Some(String::from_str(alloc, text)?))
    }
}

/// Returns the rule that a hit condition is; `None` where it is none.
fn rule_of(text: &str) -> Option<Option<Rule>>
    ensures rule { IfSome result (IsRule text.now) }
    ensures none { IfNone result ((rule : Option Rule) → ¬ IsRule text.now rule) }
{
    if text.is_empty() {
        return Some(None);
    }
    let rule = if let Some(divisor) = text.strip_prefix('%') {
        Rule::Every(number(divisor)?)
    } else if let Some(only) = text.strip_prefix('=') {
        Rule::Exactly(number(only)?)
    } else {
        Rule::From(number(text)?)
    };
    Some(Some(rule))
}

/// Returns the number, but 0, that a text is in decimal, without a sign or a leading zero.
fn number(text: &str) -> Option<u64>
    ensures number { IfSome result (λ n. (text.now ≡ decimal n) × IsCount n) }
    ensures none { IfNone result ((n : ℕ) → IsCount n → text.now ≢ decimal n) }
{
    // `parse` takes these too.
    if text.starts_with('0') || text.starts_with('+') {
        return None;
    }
    match text.parse::<u64>() {
        Ok(number) => Some(number),
        Err(_) => None,
    }
}

/// Returns the parts of a message, if there is one.
fn message_of(alloc: Global, message: &str) -> Result<Option<Vec<Part>>, AllocError>
    ensures { IfOk result (λ parts. IsMessage message.now (option_map (λ p. map plain_part p.items) parts)) }
{
    if message.is_empty() {
        Ok(None)
    } else {
        Ok(Some(parts_of(alloc, message)?))
    }
}

/// Returns the parts of a message, from the left.
fn parts_of(alloc: Global, message: &str) -> Result<Vec<Part>, AllocError>
    ensures { IfOk result (λ parts. AreParts message.now (map plain_part parts.items)) }
{
    let mut parts = Vec::new(alloc);
    let mut rest = message;
    while let Some((before, inner, later)) = split_expression(rest) {
        push_parts(alloc, &mut parts, before, inner)?;
        rest = later;
    }
    push_end(alloc, &mut parts, rest)?;
    Ok(parts)
}

/// Adds what follows the last expression, and the end of the line.
fn push_end(alloc: Global, parts: &mut Vec<Part>, rest: &str) -> Result<(), AllocError>
    ensures { OnOk result (map plain_part parts.new.items ≡ map plain_part parts.old.items
        ++ (Text rest.now ∷ (Text (codes "\n") ∷ []))) }
{
    parts.push(Part::Text(String::from_str(alloc, rest)?))?;
    parts.push(Part::Text(String::from_str(alloc, "\n")?))?;
    Ok(())
}

/// Returns what stands before the first expression of a text, the expression, and what follows.
fn split_expression<'t>(text: &'t str) -> Option<(&'t str, &'t str, &'t str)>
    ensures some { IfSome result (λ parts. HasExpression text.now parts.0.now parts.1.now parts.2.now) }
    ensures none { IfNone result (IsUnclosed text.now) }
{
    match text.split_once('{') {
        Some((before, opened)) => match opened.split_once('}') {
            Some((inner, rest)) => Some((before, inner, rest)),
            None => None,
        },
        None => None,
    }
}

/// Adds what stands before an expression, and the expression.
fn push_parts(
    alloc: Global,
    parts: &mut Vec<Part>,
    before: &str,
    inner: &str,
) -> Result<(), AllocError>
    ensures { OnOk result (map plain_part parts.new.items ≡ map plain_part parts.old.items
        ++ (Text before.now ∷ (Expression inner.now ∷ []))) }
{
    parts.push(Part::Text(String::from_str(alloc, before)?))?;
    parts.push(Part::Expression(String::from_str(alloc, inner)?))?;
    Ok(())
}
