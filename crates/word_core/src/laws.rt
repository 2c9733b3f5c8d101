//! What holds of all labels, all stamps and all clears.

ghost use Rattle.word_core.specs.HistoryLaws.{HistoryStandsLaw, WordStandsLaw, BeginningLaw, NextStepLaw, OneStepLaw, RowsLaw};
ghost use Rattle.word_core.specs.Laws.{AgreementLaw, MovesLaw, DistinctLaw};

/// Labels that agree with whole-number tickets are ordered by these: their ranks, which is older and
/// who holds one are the tickets', and no two processes that are present have one label. The start
/// agrees, and each stamp and each clear of any process keeps it, for every number of processes.
pub fn law_agreement()
    ensures { AgreementLaw }
{}

/// After any stamps and clears of any number of processes the labels stand for the whole-number
/// tickets.
pub fn law_moves()
    ensures { MovesLaw }
{}

/// Two lists of labels of one number of processes, at most six, with the same word are the same list:
/// with more of them a label would need more than a byte.
pub fn law_words()
    ensures { DistinctLaw }
{}

/// Over every history of steps on shared words: its labels stand for its tickets, also where those of
/// at most six processes are read off a word that has come back; a beginning of a legal one is legal; one more step is legal
/// exactly where it can come next, and adds what it says.
pub fn law_histories()
    ensures stands { HistoryStandsLaw }
    ensures words { WordStandsLaw }
    ensures begins { BeginningLaw }
    ensures follows { NextStepLaw }
    ensures adds { OneStepLaw }
    ensures rows { RowsLaw }
{}
