//! Fields of a header part: a line cut into name and value, and the value read as a length.

ghost use Rattle.std.specs.Prelude.{◌≡◌, ℕ, IfSome, IfNone};
ghost use Rattle.std.specs.List.{list_all};
ghost use Rattle.dap_frame.specs.Header.{Field, IsField, IsLength, field_text, is_name_byte, is_value_byte};

use memchr::memchr;

/// The name and the value of a field, as slices of its line.
#[derive(Drop)]
pub struct FieldParts<'a> {
    pub name: &'a [u8],
    pub value: &'a [u8],
}

/// Cuts a line into name and value; `None` where it isn't a field.
pub fn field_of(line: &[u8]) -> Option<FieldParts<'_>>
    ensures found { IfSome result (λ f. IsField (record { name = f.name.now; value = f.value.now })
        × (line.now ≡ field_text (record { name = f.name.now; value = f.value.now }))) }
    ensures none { IfNone result ((f : Field) → IsField f → line.now ≡ field_text f → ⊥) }
{
    let (name, rest) = line.split_at(memchr(b':', line)?);
    let value = rest.strip_prefix(b": ".as_slice())?;
    if !name.is_empty() && is_name(name) && is_value(value) {
        Some(FieldParts { name, value })
    } else {
        None
    }
}

/// Whether each byte is an ASCII letter, a digit or `-`.
fn is_name(name: &[u8]) -> bool
    ensures { result ≡ list_all is_name_byte name.now }
{
    name.iter().all(|x| x.is_ascii_alphanumeric() || *x == b'-')
}

/// Whether each byte is a printable ASCII character, from 0x20 to 0x7E.
fn is_value(value: &[u8]) -> bool
    ensures { result ≡ list_all is_value_byte value.now }
{
    value.iter().all(|x| b' ' <= *x && *x <= b'~')
}

/// Returns the number that a value spells in 1 to 7 digits without a leading zero; `None` for any other value.
pub fn length_of(value: &[u8]) -> Option<usize>
    ensures found { IfSome result (λ n. IsLength value.now n) }
    ensures none { IfNone result ((n : ℕ) → IsLength value.now n → ⊥) }
{
    if value.is_empty() || value.len() > 7 || (value.len() > 1 && value[0] == b'0') {
        return None;
    }
    let mut n = 0usize;
    for x in value {
        if !x.is_ascii_digit() {
            return None;
        }
        n = n * 10 + (*x - b'0') as usize;
    }
    Some(n)
}
