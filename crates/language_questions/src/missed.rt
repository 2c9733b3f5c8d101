// Comments that look as if they asked something.
ghost use Rattle.std.specs.Prelude.{◌≡◌, ◌≤◌, length};
ghost use Rattle.language_questions.specs.Missed.{asks_at, missed_from};

use crate::characters::is_mark;
use crate::reader::Reader;
use crate::spelled::directive_of;
use base::span::Span;

impl Reader<'_> {
    /// The first word of questions behind a `#` or `!`, from a place on.
    #[tactic(auto, unfolding(crate::specs::Missed::missed_from))]
    pub fn missed(&self, from: usize) -> Option<Span>
        ensures { result ≡ missed_from self.now.text.now from }
    {
        let mut place = from;
        while place < self.text.len() {
            if is_mark(self.text[place]) && self.asks(place + 1) {
                return Some(self.word_span(place + 1));
            }
            place += 1;
        }
        None
    }

    // Whether a word of questions stands at a place, after blanks.
    fn asks(&self, at: usize) -> bool
        requires { at ≤ length self.now.text.now }
        ensures { result ≡ asks_at self.now.text.now at }
    {
        let span = self.word_span(at);
        directive_of(&self.text[span.start..span.end]).is_some()
    }
}
