ghost use Rattle.std.specs.Prelude.{◌≡◌, ◌<◌, ◌≤◌, ℕ, List, length, OnOk, IfOk, IfErr};
ghost use Rattle.ticket_word.specs.Standing.{IsCount};
ghost use Rattle.ticket_word.specs.Faults.{AreProcesses, Tells};
ghost use Rattle.ticket_word.specs.prover.Asked.{AreAskedRanks, IsAsked, fault_number};

use word_core::LabelWord;

/// What stands against a call.
#[derive(Clone, Copy)]
pub enum Fault {
    /// There are not one to six processes.
    Count,
    /// A process is none of them.
    Process,
    /// The number is no word that stands for tickets.
    Word,
}

impl Fault {
    /// The number that stands for it outside.
    pub fn number(self) -> u8
        ensures { result ≡ fault_number self }
    {
        match self {
            Fault::Count => 1,
            Fault::Process => 2,
            Fault::Word => 3,
        }
    }
}

/// Whether there are one to six processes, and these are of them; else what stands against it.
pub fn within(n: u8, processes: &[u8]) -> Result<(), Fault>
    ensures ok { OnOk result (IsCount n × AreProcesses n processes.now) }
    ensures err { IfErr result (λ fault. (bits : ℕ) → Tells n bits processes.now (fault_number fault)) }
{
    if n < 1 || 6 < n {
        return Err(Fault::Count);
    }
    if !processes.iter().all(|&process| process < n) {
        return Err(Fault::Process);
    }
    Ok(())
}

/// The labels of a word of `n` processes, of which these are some.
#[inline(always)]
pub fn asked(n: u8, bits: u64, processes: &[u8]) -> Result<LabelWord, Fault>
    ensures ok { IfOk result (λ labels. IsAsked n bits processes.now labels) }
    ensures err { IfErr result (λ fault. Tells n bits processes.now (fault_number fault)) }
{
    within(n, processes)?;
    match LabelWord::read_ordered(n, bits) {
        Some(labels) => Ok(labels),
        None => Err(Fault::Word),
    }
}

/// The ranks of the labels of a word of `n` processes, of which these are some, and 0 past the last.
#[inline(always)]
pub fn asked_ranks(n: u8, bits: u64, processes: &[u8]) -> Result<[u8; 6], Fault>
    ensures ok { IfOk result (λ ranks. AreAskedRanks n bits processes.now ranks) }
    ensures err { IfErr result (λ fault. Tells n bits processes.now (fault_number fault)) }
{
    within(n, processes)?;
    match LabelWord::read_ranks(n, bits) {
        Some(ranks) => Ok(ranks),
        None => Err(Fault::Word),
    }
}
