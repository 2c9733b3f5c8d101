ghost use Rattle.std.specs.Prelude.{◌≡◌};
ghost use Rattle.base.specs.Blanks.{is_blank};

/// Whether the byte separates what stands beside it: a space, a tab, a carriage return or a line feed.
pub fn is_blank(byte: u8) -> bool
    ensures { result ≡ is_blank byte }
{
    matches!(byte, b' ' | b'\t' | b'\r' | b'\n')
}
