use base::Act;
use code_core::Instr;
use ticket_core::Tickets;
use word_core::LabelWord;

/// A variable that a step wrote.
#[derive(Clone, Copy)]
pub struct Written {
    /// Its number, in the order in which variables are declared.
    pub variable: u8,
    /// Its new value.
    pub value: u32,
}

/// A scan that a step took or copied.
#[derive(Clone, Copy)]
pub struct Scanned {
    /// Its number, in the order in which scans are declared.
    pub scan: u8,
    /// Of which scan it is now a copy; `None` where it has what all processes hold.
    pub of: Option<u8>,
}

/// A step of a program on whole-number tickets. A step of a process that had stopped has neither a
/// number nor an act.
#[derive(Clone, Copy)]
pub struct StatementStep {
    pub process: u8,
    /// Of the statement that it did, from 0 on in the order of the text; `None` where the process had
    /// stopped or has ended with this step.
    pub number: Option<usize>,
    /// What others see of it.
    pub act: Option<Act>,
    /// What it wrote of the process's own variables.
    pub written: Option<Written>,
    /// Which of the process's own scans it took or copied.
    pub scanned: Option<Scanned>,
    /// The tickets of all processes after a stamp or a clear.
    pub tickets: Option<Tickets>,
}

/// A step of a code on bounded labels.
#[derive(Clone, Copy)]
pub struct InstructionStep {
    pub process: u8,
    /// Where its instruction stands; of a process that had stopped, where its last stands.
    pub place: u16,
    /// `None` where the process had stopped.
    pub instruction: Option<Instr>,
    /// What others see of it.
    pub act: Option<Act>,
    /// The labels of all processes that an exchange found which was lost.
    pub lost: Option<LabelWord>,
    /// The labels of all processes after a stamp or a clear.
    pub labels: Option<LabelWord>,
}
