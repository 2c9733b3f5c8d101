// What single bytes of a question are.
ghost use Rattle.std.specs.Prelude.{◌≡◌};
ghost use Rattle.language_questions.specs.Characters.{is_code, is_further, is_letter, is_mark, is_name_part};

pub fn is_letter(byte: u8) -> bool
    ensures { result ≡ is_letter byte }
{
    byte.is_ascii_alphabetic() || byte == b'_'
}

/// Whether the byte may stand in a name after its first letter.
pub fn is_name_part(byte: u8) -> bool
    ensures { result ≡ is_name_part byte }
{
    is_letter(byte) || byte.is_ascii_digit()
}

/// Whether the byte stands before a comment.
pub fn is_code(byte: u8) -> bool
    ensures { result ≡ is_code byte }
{
    byte != b'#'
}

/// Whether the byte is `#` or `!`, which are the signs of a question together.
pub fn is_mark(byte: u8) -> bool
    ensures { result ≡ is_mark byte }
{
    byte == b'#' || byte == b'!'
}

/// Whether the byte is one of a character, and not its first.
pub fn is_further(byte: u8) -> bool
    ensures { result ≡ is_further byte }
{
    128 <= byte && byte < 192
}
