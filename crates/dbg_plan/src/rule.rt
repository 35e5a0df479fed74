//! Reads the rules of hit conditions.

ghost use Rattle.std.specs.Prelude.{◌≡◌, ◌≢◌, ℕ, ◌<◌, ◌^◌, decimal, IfSome, IfNone, IfOk, OnErr};
ghost use Rattle.dbg_plan.specs.Resolutions.{ReadsRule, HasRule};

use crate::breakpoint::Rule;

/// The greatest number of a rule, 2^31 - 1.
const GREATEST: u32 = 2_147_483_647;

/// The fault of a hit condition whose text is no rule.
#[derive(Drop)]
pub struct BadHitCondition;

/// Returns the rule of a hit condition's text; `None` if the text is empty.
///
/// # Errors
///
/// The text is neither empty nor `k` or `%k`, with k from 1 to 2^31 - 1 in decimal.
pub fn read_rule(text: &str) -> Result<Option<Rule>, BadHitCondition>
    ensures rule { IfOk result (ReadsRule text.now) }
    ensures bad { OnErr result (¬ HasRule text.now) }
{
    if text.is_empty() {
        return Ok(None);
    }
    match text.strip_prefix('%') {
        Some(divisor) => match number(divisor) {
            Some(k) => Ok(Some(Rule::Every(k))),
            None => Err(BadHitCondition),
        },
        None => match number(text) {
            Some(k) => Ok(Some(Rule::From(k))),
            None => Err(BadHitCondition),
        },
    }
}

/// Returns the number of a rule, from 1 to 2^31 - 1, that a text is in decimal without a sign or a leading zero.
fn number(text: &str) -> Option<u32>
    ensures number { IfSome result (λ k. (text.now ≡ decimal k) × (0 < k) × (k < 2 ^ 31)) }
    ensures none { IfNone result ((k : ℕ) → 0 < k → k < 2 ^ 31 → text.now ≢ decimal k) }
{
    // `parse` takes these too.
    if text.starts_with('0') || text.starts_with('+') {
        return None;
    }
    match text.parse::<u32>() {
        Ok(k) if k <= GREATEST => Some(k),
        _ => None,
    }
}
