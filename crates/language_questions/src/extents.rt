// Where parts of a text end. Places are byte offsets.
ghost use Rattle.std.specs.Prelude.{◌≡◌, ◌≤◌, length};
ghost use Rattle.language_questions.specs.Extents.{end_of, takes};

use crate::characters::{is_code, is_further, is_name_part};
use base::is_blank;

/// What a part of a text is made of.
#[derive(Clone, Copy)]
pub enum Extent {
    /// What stands before a comment.
    Code,
    Blanks,
    /// Letters and digits.
    Word,
    Digits,
    /// The bytes of a character after its first.
    Further,
}

impl Extent {
    // Whether the byte is part of it.
    fn takes(self, byte: u8) -> bool
        ensures { result ≡ takes self byte }
    {
        match self {
            Extent::Code => is_code(byte),
            Extent::Blanks => is_blank(byte),
            Extent::Word => is_name_part(byte),
            Extent::Digits => byte.is_ascii_digit(),
            Extent::Further => is_further(byte),
        }
    }

    /// The end of the bytes from a place on that are part of it.
    pub fn end(self, bytes: &[u8], from: usize) -> usize
        ensures within { from ≤ length bytes.now → result ≤ length bytes.now }
        ensures end { result ≡ end_of self bytes.now from }
    {
        let mut end = from;
        while end < bytes.len() && self.takes(bytes[end]) {
            end += 1;
        }
        end
    }
}
