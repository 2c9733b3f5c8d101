ghost use Rattle.std.specs.Prelude.{◌≡◌, length};
ghost use Rattle.word_core.specs.Order.{label_ranks};
ghost use Rattle.base.specs.Observables.{told_ranks};

use label_core::MOST_LABELS;
use word_core::LabelWord;

/// For each process how many it is above, and 0 past the last process.
pub fn ranks_of(word: &LabelWord) -> [u8; MOST_LABELS]
    ensures { result ≡ told_ranks (length word.now) (label_ranks word.now) }
{
    word.ranks()
}
