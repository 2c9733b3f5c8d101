//! The state of a program's run, as all can see it.
ghost use Rattle.std.specs.Coded.{codes};
ghost use Rattle.std.specs.Prelude.{◌≡◌, length};
ghost use Rattle.base.specs.prover.Coding.{resolved_blocks};

use base::Status;
use language_properties::Visible;
use tick_source::SourceMachine;
use ticklab_trace::ticket_of;

/// The state of a machine that has so many processes and register rows.
#[derive(Clone, Copy)]
pub struct VisibleState<'s, 'a> {
    pub machine: &'s SourceMachine<'a>,
    pub processes: u8,
    pub rows: u8,
    ghost fits: { (processes ≡ length machine.now.processes) × (rows ≡ length machine.now.rows) } by { Prim.hlevel (codes, resolved_blocks) },
}

impl<'s, 'a> Visible for VisibleState<'s, 'a> {
    ghost use Rattle.language_properties.specs.Seen.{seen_of};

    ghost seen = { λ seen. seen_of seen.machine.now };

    fn processes(&self) -> u8 {
        self.processes
    }

    fn register(&self, row: usize, process: u8) -> u32 {
        if row < usize::from(self.rows) {
            self.machine.register(row as u8, process)
        } else {
            0
        }
    }

    fn holds(&self, process: u8) -> bool {
        0 < ticket_of(&self.machine.tickets(), process)
    }

    fn is_older(&self, first: u8, second: u8) -> bool {
        let tickets = self.machine.tickets();
        ticket_of(&tickets, first) < ticket_of(&tickets, second)
    }

    fn status(&self, process: u8) -> Status {
        self.machine.status(process)
    }
}
