//! What holds of a word that is changed by stamps and clears alone.

ghost use Rattle.ticket_word.specs.Laws.{ChangesLaw, TellingLaw};

/// Whatever stamps and clears make of the empty word, each of the word before it, stands for the
/// whole-number tickets that they make. What its labels tell, who is older, who holds a ticket and each
/// rank, these tickets tell.
pub fn law_header()
    ensures changes { ChangesLaw }
    ensures tells { TellingLaw }
{}
