// Adds texts and numbers to a report.
ghost use Rattle.std.specs.Prelude.{◌≡◌, ◌∷◌, ◌++◌, [], OnOk, replicate, string_bytes};
ghost use Rattle.std.specs.Fmt.{decimal};
ghost use Rattle.ticklab_explain.specs.Pieces.{joined, joined_now};

use itoa::Buffer;
use std::alloc::AllocError;

/// It was added to the report, or memory was refused.
pub type Added = Result<(), AllocError>;

/// Adds a text.
pub fn push(out: &mut Vec<u8>, text: &str) -> Added
    ensures { OnOk result (out.new.items ≡ out.old.items ++ text.now) }
{
    out.extend_from_slice(text.as_bytes())
}

/// Adds the digits of a number.
pub fn push_decimal(out: &mut Vec<u8>, number: usize) -> Added
    ensures { OnOk result (out.new.items ≡ out.old.items ++ decimal number) }
{
    push(out, Buffer::new().format(number))
}

/// Adds a byte so many times.
pub fn push_often(out: &mut Vec<u8>, byte: u8, count: usize) -> Added
    ensures { OnOk result (out.new.items ≡ out.old.items ++ replicate count byte) }
{
    'times: for _ in 0..count {
        out.push(byte)?;
    }
    Ok(())
}

/// Adds pieces one after another.
pub fn push_all(text: &mut String, pieces: &[&str]) -> Added
    ensures { OnOk result (string_bytes text.new ≡ string_bytes text.old ++ joined_now pieces.now) }
{
    for piece in pieces {
        text.push_str(piece)?;
    }
    Ok(())
}

/// Adds a number between two pieces.
pub fn push_number(text: &mut String, before: &str, number: usize, after: &str) -> Added
    ensures { OnOk result (string_bytes text.new ≡ string_bytes text.old ++ joined (before.now ∷ decimal number ∷ after.now ∷ [])) }
{
    push_all(text, &[before, Buffer::new().format(number), after])
}
