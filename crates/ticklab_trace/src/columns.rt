//! The columns of a line.

ghost use Rattle.std.specs.Prelude.{◌≡◌, ◌<◌, ◌++◌, OnOk, replicate, string_bytes};
ghost use Rattle.ticklab_trace.specs.TraceText.{head, left, place_text, right, where_text, words_end, words_text};

use itoa::Buffer;
use std::alloc::AllocError;

// How wide the columns are of a step's number, of a line, of the column in it, and of words.
const NUMBER: usize = 4;

const COLUMN: usize = 3;

const WORDS: usize = 32;

/// Begins the line of step `number` from 0, which process `p` made.
pub fn push_head(text: &mut String, number: usize, p: u8) -> Result<(), AllocError>
    requires { number < 18446744073709551615 }
    ensures { OnOk result (string_bytes text.new ≡ string_bytes text.old ++ head number p) }
{
    push_right(text, number + 1)?;
    text.push_str("  P")?;
    text.push_str(Buffer::new().format(p))?;
    text.push_str("  ")
}

/// A line and the column in it.
pub fn push_where(text: &mut String, line: usize, column: usize) -> Result<(), AllocError>
    ensures { OnOk result (string_bytes text.new ≡ string_bytes text.old ++ where_text line column) }
{
    push_right(text, line)?;
    text.push_str(":")?;
    push_left(text, Buffer::new().format(column), COLUMN)?;
    text.push_str("  ")
}

/// Blanks as wide as a line and a column.
pub fn push_nowhere(text: &mut String) -> Result<(), AllocError>
    ensures { OnOk result (string_bytes text.new ≡ string_bytes text.old ++ replicate 10 32) }
{
    push_blanks(text, 10)
}

/// The place of an instruction.
pub fn push_place(text: &mut String, place: u16) -> Result<(), AllocError>
    ensures { OnOk result (string_bytes text.new ≡ string_bytes text.old ++ place_text place) }
{
    push_right(text, usize::from(place))?;
    text.push_str("  ")
}

/// Words before what a step showed.
pub fn push_words(text: &mut String, words: &str) -> Result<(), AllocError>
    ensures { OnOk result (string_bytes text.new ≡ string_bytes text.old ++ words_text words.now) }
{
    text.push_str(words)?;
    end_words(text, words.len())
}

/// What comes between words of so many bytes and what a step showed.
pub fn end_words(text: &mut String, count: usize) -> Result<(), AllocError>
    ensures { OnOk result (string_bytes text.new ≡ string_bytes text.old ++ words_end count) }
{
    push_blanks(text, WORDS.saturating_sub(count))?;
    text.push_str(" | ")
}

fn push_right(text: &mut String, number: usize) -> Result<(), AllocError>
    ensures { OnOk result (string_bytes text.new ≡ string_bytes text.old ++ right number) }
{
    let mut buffer = Buffer::new();
    let digits = buffer.format(number);
    push_blanks(text, NUMBER.saturating_sub(digits.len()))?;
    text.push_str(digits)
}

fn push_left(text: &mut String, words: &str, width: usize) -> Result<(), AllocError>
    ensures { OnOk result (string_bytes text.new ≡ string_bytes text.old ++ left words.now width) }
{
    text.push_str(words)?;
    push_blanks(text, width.saturating_sub(words.len()))
}

fn push_blanks(text: &mut String, count: usize) -> Result<(), AllocError>
    ensures { OnOk result (string_bytes text.new ≡ string_bytes text.old ++ replicate count 32) }
{
    'times: for _ in 0..count {
        text.push_str(" ")?;
    }
    Ok(())
}
