// Where a gap, a word, a number and a sign of a text end. Places are byte offsets.
ghost use Rattle.std.specs.Prelude.{◌≡◌, ◌+◌, ◌<◌, ◌≤◌, length, drop, MatchOption, true};
ghost use Rattle.std.specs.Str.Parse.{digits_value};
ghost use Rattle.tick_syntax.specs.prover.Extents.{takes, taken_length, word_length, number_length, sign_length};
ghost use Rattle.tick_syntax.specs.Spelling.{gap_length, is_number};

use crate::characters::{is_lone_sign, is_name_part, may_precede_equals};
use base::{is_blank, number};

const NUMBER_LIMIT: u64 = 4_294_967_295;

/// The end of the blanks and comments at a place.
pub fn gap_end(bytes: &[u8], from: usize) -> usize
    requires { from ≤ length bytes.now }
    ensures within { result ≤ length bytes.now }
    ensures end { result ≡ from + gap_length (drop from bytes.now) }
{
    let mut end = from;
    let mut in_comment = false;
    while end < bytes.len() {
        let byte = bytes[end];
        if in_comment {
            in_comment = byte != b'\n';
        } else if byte == b'#' {
            in_comment = true;
        } else if !is_blank(byte) {
            return end;
        }
        end += 1;
    }
    end
}

/// What a word and a number are made of.
#[derive(Clone, Copy)]
pub enum Extent {
    /// Letters and digits.
    Word,
    /// Digits.
    Number,
}

impl Extent {
    // Whether the byte is part of it.
    fn takes(self, byte: u8) -> bool
        ensures { result ≡ takes self byte }
    {
        match self {
            Extent::Word => is_name_part(byte),
            Extent::Number => byte.is_ascii_digit(),
        }
    }

    // The end of the bytes at a place that are part of it.
    fn end(self, bytes: &[u8], from: usize) -> usize
        requires { from ≤ length bytes.now }
        ensures within { result ≤ length bytes.now }
        ensures end { result ≡ from + taken_length self (drop from bytes.now) }
    {
        let mut end = from;
        while end < bytes.len() && self.takes(bytes[end]) {
            end += 1;
        }
        end
    }
}

/// The end of the letters and digits at a place.
pub fn word_end(bytes: &[u8], from: usize) -> usize
    requires { from ≤ length bytes.now }
    ensures within { result ≤ length bytes.now }
    ensures end { result ≡ from + word_length (drop from bytes.now) }
{
    Extent::Word.end(bytes, from)
}

/// The end of the digits at a place.
pub fn number_end(bytes: &[u8], from: usize) -> usize
    requires { from ≤ length bytes.now }
    ensures within { result ≤ length bytes.now }
    ensures end { result ≡ from + number_length (drop from bytes.now) }
{
    Extent::Number.end(bytes, from)
}

/// The end of the longest sign at a place, which is the place itself where no sign begins there.
pub fn sign_end(bytes: &[u8], from: usize) -> usize
    requires { from < length bytes.now }
    ensures within { result ≤ length bytes.now }
    ensures end { result ≡ from + sign_length (drop from bytes.now) }
{
    let first = bytes[from];
    if may_precede_equals(first) && from + 1 < bytes.len() && bytes[from + 1] == b'=' {
        from + 2
    } else if is_lone_sign(first) {
        from + 1
    } else {
        from
    }
}

/// The number that one or more digits write, where it is at most 4294967295.
pub fn number_value(digits: &[u8]) -> Option<u32>
    requires { is_number digits.now ≡ true }
    ensures { MatchOption result (4294967295 < digits_value 10 digits.now) (λ value. (value ≡ digits_value 10 digits.now) × (value ≤ 4294967295)) }
{
    let value = number(digits)?;
    if value > NUMBER_LIMIT {
        None
    } else {
        Some(value as u32)
    }
}
