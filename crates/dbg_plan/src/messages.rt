//! Reads the messages of log points.

ghost use Rattle.std.specs.Prelude.{◌≡◌, ◌<◌, ◌++◌, [], ◌∷◌, List, length, IfOk, IfErr, OnOk};
ghost use Rattle.pl0_tree.specs.Faults.{IsExpressionOf};
ghost use Rattle.pl0_tree.specs.Plain.{plain_expression};
ghost use Rattle.pl0_tree.specs.Steps.{steps, step_path};
ghost use Rattle.pl0_tree.specs.Scope.{Path};
ghost use Rattle.pl0_tree.specs.Tree.{Block, Expression as PlainExpression};
ghost use Rattle.pl0_machine.specs.Machine.{program_of};
ghost use Rattle.dbg_plan.specs.Bound.{IsExpressionBound, ArePartsBound};
ghost use Rattle.dbg_plan.specs.Messages.{Part as PlainPart, Text, Value, IsMessageOf, plain_parts};
ghost use Rattle.dbg_plan.specs.Resolutions.{HasMessageAt};
ghost use Rattle.dbg_plan.specs.Resolving.{IsBoundMessageOf};
ghost use Rattle.dbg_plan.specs.MessageFaults.{UnlessNoMemory};

use crate::binding::bind_expression;
use crate::message::{BoundExpression, EXPRESSION_LIMIT, LogMessage, Part};
use pl0_syntax::{Names, editor_laws, parse_expression};
use pl0_tree::{StepNumber, SyntaxFault};
use pl0_unit::Unit;
use std::alloc::{AllocError, AllocFailed, Global};

/// Why a text is not read as a message.
#[derive(Clone, Copy)]
pub enum MessageFault {
    /// The text reads as no message.
    Bad,
    /// Out of memory: nothing is known of the text.
    NoMemory,
}

impl From<AllocError> for MessageFault {
    ghost use Rattle.std.specs.Prelude.{◌≡◌};
    ghost use Rattle.dbg_plan.specs.declared.messages.MessageFault.TheVariants.{NoMemory};

    ghost from_gives = { λ _ fault. fault ≡ NoMemory };

    fn from(_error: AllocError) -> Self {
        MessageFault::NoMemory
    }
}

impl<T: Drop> From<AllocFailed<T>> for MessageFault {
    ghost use Rattle.std.specs.Prelude.{◌≡◌};
    ghost use Rattle.dbg_plan.specs.declared.messages.MessageFault.TheVariants.{NoMemory};

    ghost from_gives = { λ _ fault. fault ≡ NoMemory };

    fn from(_error: AllocFailed<T>) -> Self {
        MessageFault::NoMemory
    }
}

/// Reads the message of a text, bound to the names that a step can use; `None` if the text is empty.
///
/// # Errors
///
/// `Bad` if the text reads as no message, or `NoMemory`.
pub fn read_message(
    alloc: Global,
    unit: &Unit,
    names: &Names,
    text: &str,
    step: StepNumber,
) -> Result<Option<LogMessage>, MessageFault>
    requires names { names.now ≡ unit.now.tree.program }
    requires within { step < length (steps (program_of unit.now)) }
    ensures message { IfOk result (IsBoundMessageOf (program_of unit.now) step text.now) }
    ensures bad { IfErr result (UnlessNoMemory (¬ HasMessageAt (program_of unit.now) step text.now)) }
{
    if text.is_empty() {
        return Ok(None);
    }
    let parts = read_parts(alloc, unit, names, text, step)?;
    let text = String::from_str(alloc, text)?;
    Ok(Some(LogMessage { text, parts }))
}

/// Reads the parts of a text, from the left.
fn read_parts(
    alloc: Global,
    unit: &Unit,
    names: &Names,
    text: &str,
    step: StepNumber,
) -> Result<Vec<Part>, MessageFault>
    requires names { names.now ≡ unit.now.tree.program }
    requires within { step < length (steps (program_of unit.now)) }
    ensures parts { IfOk result (λ parts. IsMessageOf (program_of unit.now) (step_path (program_of unit.now) step)
        text.now (plain_parts parts.items)) }
    ensures bound { IfOk result (λ parts. ArePartsBound (program_of unit.now) (step_path (program_of unit.now) step)
        parts.items) }
    ensures bad { IfErr result (UnlessNoMemory ((parts : List PlainPart) →
        ¬ IsMessageOf (program_of unit.now) (step_path (program_of unit.now) step) text.now parts)) }
{
    let mut parts = Vec::new(alloc);
    let mut values = 0;
    let mut rest = text;
    while let Some((before, after)) = rest.split_once('{') {
        if values == EXPRESSION_LIMIT {
            return Err(MessageFault::Bad);
        }
        let Some((inner, after)) = after.split_once('}') else {
            return Err(MessageFault::Bad);
        };
        let expression = match read_expression(alloc, unit, names, inner, step) {
            Ok(expression) => expression,
            Err(fault) => return Err(fault),
        };
        push_value(alloc, &mut parts, before, expression)?;
        values += 1;
        rest = after;
    }
    let rest = String::from_str(alloc, rest)?;
    parts.push(Part::Text(rest))?;
    Ok(parts)
}

/// Appends what stands before an expression, which may be empty, and the expression.
fn push_value(
    alloc: Global,
    parts: &mut Vec<Part>,
    before: &str,
    expression: BoundExpression,
) -> Result<(), AllocError>
    ensures parts { OnOk result (plain_parts parts.new.items ≡ plain_parts parts.old.items
        ++ Text before.now ∷ Value (plain_expression expression.expression) ∷ []) }
    ensures bound { OnOk result ((main : Block) (q : Path) → ArePartsBound main q parts.old.items →
        IsExpressionBound main q (plain_expression expression.expression) expression.located →
        ArePartsBound main q parts.new.items) }
{
    let before = String::from_str(alloc, before)?;
    parts.push(Part::Text(before))?;
    parts.push(Part::Value(expression))?;
    Ok(())
}

/// Reads the expression of a text, bound to the names that a step can use.
fn read_expression(
    alloc: Global,
    unit: &Unit,
    names: &Names,
    text: &str,
    step: StepNumber,
) -> Result<BoundExpression, MessageFault>
    requires names { names.now ≡ unit.now.tree.program }
    requires within { step < length (steps (program_of unit.now)) }
    ensures expression { IfOk result (λ e. IsExpressionOf (program_of unit.now) (step_path (program_of unit.now) step)
        text.now (plain_expression e.expression)) }
    ensures bound { IfOk result (λ e. IsExpressionBound (program_of unit.now) (step_path (program_of unit.now) step)
        (plain_expression e.expression) e.located) }
    ensures bad { IfErr result (UnlessNoMemory ((e : PlainExpression) →
        ¬ IsExpressionOf (program_of unit.now) (step_path (program_of unit.now) step) text.now e)) }
{
    editor_laws();
    let expression = match parse_expression(alloc, text.as_bytes(), names, &unit.steps, step) {
        Ok(expression) => expression,
        Err(SyntaxFault::NoMemory) => return Err(MessageFault::NoMemory),
        Err(SyntaxFault::InText { .. }) => return Err(MessageFault::Bad),
    };
    let number = unit.steps[step].block;
    match bind_expression(alloc, names, number, &expression) {
        Ok(located) => Ok(BoundExpression {
            expression,
            located,
        }),
        Err(_) => Err(MessageFault::NoMemory),
    }
}
