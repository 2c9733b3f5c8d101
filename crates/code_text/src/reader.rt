ghost use Rattle.std.specs.Prelude.{◌≡◌, ◌<◌, ◌^◌, drop};
ghost use Rattle.code_text.specs.prover.Guess.{word, leading};

/// What remains of a text.
#[derive(Drop)]
pub struct Reader<'a> {
    pub rest: &'a [u8],
}

impl<'a> Reader<'a> {
    /// The bytes before the next space or line feed.
    pub fn word(&mut self) -> &'a [u8]
        ensures word { result.now ≡ (word self.old.rest.now).0 }
        ensures rest { self.new.rest.now ≡ (word self.old.rest.now).1 }
    {
        let all = self.rest;
        for at in 0..all.len() {
            if all[at] == b' ' || all[at] == b'\n' {
                self.rest = &all[at..];
                return &all[..at];
            }
        }
        self.rest = &all[all.len()..];
        all
    }

    /// The number that the next digits spell. One above 4294967295 is told as another, which is
    /// spelled otherwise.
    pub fn number(&mut self) -> u32
        ensures number { result ≡ (leading 0 self.old.rest.now).0 }
        ensures rest { self.new.rest.now ≡ (leading 0 self.old.rest.now).1 }
    {
        let all = self.rest;
        let mut value: u64 = 0;
        for at in 0..all.len() {
            if !all[at].is_ascii_digit() {
                self.rest = &all[at..];
                return value as u32;
            }
            value = (10 * value + u64::from(all[at] - 48)) % 4294967296;
        }
        self.rest = &all[all.len()..];
        value as u32
    }

    /// Leaves out so many bytes, or all that remain.
    pub fn skip(&mut self, count: usize)
        ensures { self.new.rest.now ≡ drop count self.old.rest.now }
    {
        let all = self.rest;
        self.rest = &all[count.min(all.len())..];
    }
}
