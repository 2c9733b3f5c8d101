// Adds texts and numbers to a picture.
ghost use Rattle.std.specs.Prelude.{◌≡◌, ◌++◌, OnOk, length};
ghost use Rattle.std.specs.Fmt.{decimal};
ghost use Rattle.std.specs.List.{flat_map};
ghost use Rattle.ticklab_draw.specs.Escapes.{escaped, escaped_byte};
ghost use Rattle.ticklab_draw.specs.Writing.{one_number, two_numbers};

use itoa::{Buffer, Integer};
use std::alloc::AllocError;

// How bytes stand in markup that it has a use for.
const AMPERSAND: &str = "&amp;";

pub const LESS_THAN: &str = "&lt;";

const GREATER_THAN: &str = "&gt;";

const QUOTE: &str = "&quot;";

const APOSTROPHE: &str = "&#39;";

/// It was added to the picture, or memory was refused.
pub type Added = Result<(), AllocError>;

/// Adds a text that is markup.
pub fn push(out: &mut Vec<u8>, text: &str) -> Added
    ensures { OnOk result (out.new.items ≡ out.old.items ++ text.now) }
{
    out.extend_from_slice(text.as_bytes())
}

/// Adds the digits of a number.
pub fn push_number<N: Integer>(out: &mut Vec<u8>, number: N) -> Added
    ensures { OnOk result (out.new.items ≡ out.old.items ++ N.text number) }
{
    push(out, Buffer::new().format(number))
}

/// Adds markup and the digits of a number.
pub fn push_numbered<N: Integer>(out: &mut Vec<u8>, before: &str, number: N) -> Added
    ensures { OnOk result (out.new.items ≡ out.old.items ++ before.now ++ N.text number) }
{
    push(out, before)?;
    push_number(out, number)
}

/// How many digits a number has.
pub fn digits(number: u64) -> usize
    ensures { result ≡ length (decimal number) }
{
    Buffer::new().format(number).len()
}

/// Adds a number with markup before and after it.
#[tactic(auto, unfolding(crate::specs::Writing::one_number))]
pub fn push_one(out: &mut Vec<u8>, before: &str, number: u128, after: &str) -> Added
    ensures { OnOk result (out.new.items ≡ out.old.items ++ one_number before.now number after.now) }
{
    push_numbered(out, before, number)?;
    push(out, after)
}

/// Adds two numbers with markup before, between and after them.
#[tactic(auto, unfolding(crate::specs::Writing::two_numbers))]
pub fn push_two(
    out: &mut Vec<u8>,
    before: &str,
    first: u64,
    between: &str,
    second: u128,
    after: &str,
) -> Added
    ensures { OnOk result (out.new.items ≡ out.old.items ++ two_numbers before.now first between.now second after.now) }
{
    push_numbered(out, before, first)?;
    push_numbered(out, between, second)?;
    push(out, after)
}

/// Adds a text that is no markup.
pub fn push_escaped(out: &mut Vec<u8>, text: &str) -> Added
    ensures { OnOk result (out.new.items ≡ out.old.items ++ escaped text.now) }
{
    push_escaped_bytes(out, text.as_bytes())
}

/// Adds bytes of such a text.
pub fn push_escaped_bytes(out: &mut Vec<u8>, bytes: &[u8]) -> Added
    ensures { OnOk result (out.new.items ≡ out.old.items ++ flat_map escaped_byte bytes.now) }
{
    for byte in bytes {
        push_byte(out, *byte)?;
    }
    Ok(())
}

fn push_byte(out: &mut Vec<u8>, byte: u8) -> Added
    ensures { OnOk result (out.new.items ≡ out.old.items ++ escaped_byte byte) }
{
    match byte {
        b'&' => push(out, AMPERSAND),
        b'<' => push(out, LESS_THAN),
        b'>' => push(out, GREATER_THAN),
        b'"' => push(out, QUOTE),
        b'\'' => push(out, APOSTROPHE),
        0..=31 | 127 => push(out, "?"),
        _ => out.extend_from_slice(&[byte]),
    }
}
