//! Texts that are cut.

ghost use Rattle.std.specs.Prelude.{◌≡◌, ◌≤◌, ◌<◌, IfNone, IfOk, IfSome, drop, length, string_bytes, take};
ghost use Rattle.dap_bodies.specs.Sizes.{fit_of, shown_text, text_limit};

use std::alloc::AllocError;

/// How many bytes of a text are shown at most.
const TEXT_LIMIT: usize = 65_536;

/// What a text ends in that is cut.
const DOTS: &str = "...";

/// Returns a text as it is shown: one of more than 65,536 bytes is cut, and ends in three dots.
///
/// # Errors
///
/// An allocation failed.
pub fn shown_text(mut text: String) -> Result<String, AllocError>
    ensures text { IfOk result (λ shown. string_bytes shown ≡ shown_text (string_bytes text)) }
    ensures short { IfOk result (λ shown. length (string_bytes shown) ≤ text_limit) }
{
    if text.len() <= TEXT_LIMIT {
        return Ok(text);
    }
    let end = text.as_str().floor_char_boundary(TEXT_LIMIT - DOTS.len());
    text.truncate(end);
    text.push_str(DOTS)?;
    Ok(text)
}

/// Returns as many characters of a text as have 65,536 bytes at most, and what is left, unless all fit.
pub fn split_text<'t>(text: &'t str) -> Option<(&'t str, &'t str)>
    ensures long { IfSome result (λ parts. text_limit < length text.now) }
    ensures front { IfSome result (λ parts. parts.0.now ≡ take (fit_of text.now) text.now) }
    ensures left { IfSome result (λ parts. parts.1.now ≡ drop (fit_of text.now) text.now) }
    ensures less { IfSome result (λ parts. length parts.1.now < length text.now) }
    ensures none { IfNone result (length text.now ≤ text_limit) }
{
    if text.len() <= TEXT_LIMIT {
        return None;
    }
    let (front, left) = text.split_at(text.floor_char_boundary(TEXT_LIMIT));
    Some((front, left))
}
