//! Members of arguments.

ghost use Rattle.std.specs.Prelude.{◌≡◌, option_map, unwrap_or};
ghost use Rattle.serde_json.specs.View.{view, items_view};
ghost use Rattle.dap_bodies.specs.Arguments.{list_at, member_at, text_at, truth_at, truth_or, whole_at};

use serde_json::Value;

/// Returns the member at a key of arguments, or of a value among them; `None` where there is none.
pub fn member<'v>(arguments: Option<&'v Value>, key: &str) -> Option<&'v Value>
    ensures { option_map (λ v. view v.now) result ≡ member_at key.now (option_map (λ v. view v.now) arguments.entry) }
{
    arguments?.get(key)
}

/// Returns the text at a key; `None` where there is none.
pub fn text<'v>(arguments: Option<&'v Value>, key: &str) -> Option<&'v str>
    ensures { option_map (λ s. s.now) result ≡ text_at key.now (option_map (λ v. view v.now) arguments.entry) }
{
    member(arguments, key)?.as_str()
}

/// Returns the whole number at a key; `None` where there is none.
pub fn whole(arguments: Option<&Value>, key: &str) -> Option<u64>
    ensures { result ≡ whole_at key.now (option_map (λ v. view v.now) arguments.entry) }
{
    member(arguments, key)?.as_u64()
}

/// Returns the truth value at a key; `false` where there is none.
pub fn truth(arguments: Option<&Value>, key: &str) -> bool
    ensures { result ≡ truth_at key.now (option_map (λ v. view v.now) arguments.entry) }
{
    truth_or(arguments, key, false)
}

/// Returns the truth value at a key; `none` where there is none.
pub fn truth_or(arguments: Option<&Value>, key: &str, none: bool) -> bool
    ensures { result ≡ truth_or none key.now (option_map (λ v. view v.now) arguments.entry) }
{
    member(arguments, key)
        .and_then(Value::as_bool)
        .unwrap_or(none)
}

/// Returns the list at a key; an empty one where there is none.
pub fn list<'v>(arguments: Option<&'v Value>, key: &str) -> &'v [Value]
    ensures { items_view result.now ≡ list_at key.now (option_map (λ v. view v.now) arguments.entry) }
{
    match member(arguments, key).and_then(Value::as_array) {
        Some(items) => items.as_slice(),
        None => &[],
    }
}
