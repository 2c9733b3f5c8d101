ghost use Rattle.std.specs.Prelude.{◌≡◌, ◌++◌, OnOk, decimal, option_map, string_bytes};
ghost use Rattle.base.specs.Number.{capped, number_of};

use itoa::Buffer;
use std::alloc::AllocError;

/// What every greater number is read as. No number that is compared here reaches it.
const CAP: u64 = 1 << 32;

/// The number that a text of digits spells, up to 4,294,967,296, and `None` for any other text.
pub fn number(text: &[u8]) -> Option<u64>
    ensures { result ≡ option_map capped (number_of text.now) }
{
    if text.is_empty() {
        return None;
    }
    let mut value = 0;
    for byte in text {
        if !byte.is_ascii_digit() {
            return None;
        }
        value = (10 * value + u64::from(byte - b'0')).min(CAP);
    }
    Some(value)
}

/// Adds the digits of a number to a text, without the formatter.
pub fn push_number(text: &mut String, value: u64) -> Result<(), AllocError>
    ensures { OnOk result (string_bytes text.new ≡ string_bytes text.old ++ decimal value) }
{
    // Most numbers of a report have one digit.
    if value < 10 {
        return text.push(char::from(b'0' + value as u8));
    }
    text.push_str(Buffer::new().format(value))
}
