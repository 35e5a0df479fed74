//! The bytes of words, of numbers, and of white space.

ghost use Rattle.std.specs.Prelude.{◌≡◌, length, take_while};
ghost use Rattle.std.specs.Char.{is_ascii_digit};
ghost use Rattle.pl0_tree.specs.Tokens.{is_space, is_word_byte};

/// Whether a byte is white space.
pub fn is_space(b: u8) -> bool
    ensures { result ≡ is_space b }
{
    b == b' ' || b == b'\t' || b == b'\r' || b == b'\n'
}

/// Returns how many bytes at the front belong to a word.
pub fn word_len(bytes: &[u8]) -> usize
    ensures { result ≡ length (take_while is_word_byte bytes.now) }
{
    bytes.iter().take_while(|b| is_word_byte(**b)).count()
}

/// Whether a byte may stand in a word.
fn is_word_byte(b: u8) -> bool
    ensures { result ≡ is_word_byte b }
{
    b.is_ascii_alphabetic() || b.is_ascii_digit()
}

/// Returns how many digits are at the front.
pub fn digits_len(bytes: &[u8]) -> usize
    ensures { result ≡ length (take_while is_ascii_digit bytes.now) }
{
    bytes.iter().take_while(|b| b.is_ascii_digit()).count()
}
