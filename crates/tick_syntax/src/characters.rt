// What single bytes of a text are.
ghost use Rattle.std.specs.Prelude.{◌≡◌};
ghost use Rattle.tick_syntax.specs.Characters.{is_letter, is_name_part, is_lone_sign, may_precede_equals};

pub fn is_letter(byte: u8) -> bool
    ensures { result ≡ is_letter byte }
{
    byte.is_ascii_alphabetic() || byte == b'_'
}

/// Whether the byte may stand in a name after its first letter.
pub fn is_name_part(byte: u8) -> bool
    ensures { result ≡ is_name_part byte }
{
    is_letter(byte) || byte.is_ascii_digit()
}

/// Whether the byte alone is a sign.
pub fn is_lone_sign(byte: u8) -> bool
    ensures { result ≡ is_lone_sign byte }
{
    matches!(
        byte,
        b';' | b'=' | b'(' | b')' | b'{' | b'}' | b',' | b'+' | b'-' | b'*' | b'/' | b'%' | b'<'
    )
}

/// Whether the byte and a `=` after it are a sign.
pub fn may_precede_equals(byte: u8) -> bool
    ensures { result ≡ may_precede_equals byte }
{
    matches!(byte, b'<' | b'=' | b'!')
}
