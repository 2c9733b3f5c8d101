//! `ticketc` answers one command line from standard input to standard output, and ends with a status.
//!
//! `ended` of `ticketc_answers` does everything, but for a run on threads, which `run_ended` does. What runs a code on
//! threads is made for that alone. Here is only what touches the host, and what tells a terminal which command says more
//! about a refusal.
//! Start with `ticketc_answers`.
#![tactic(auto)]

use std::env::args;
use std::io::IsTerminal;
use std::process::ExitCode;
use tick_run::OnThreads;
use ticketc_answers::{Heard, advice, ended, run_ended};
use ticketc_io::HostEnd;

fn main(rt: HostRuntime) -> ExitCode {
    let mut input = HostEnd::new(rt.stdin());
    let mut output = HostEnd::new(rt.stdout());
    let status = match ended(rt.alloc(), args(&rt), &mut input, &mut output) {
        Heard::Served(status) => status,
        Heard::Run(turns) => {
            let one = OnThreads::new(&rt);
            run_ended(rt.alloc(), one, turns, &mut input, &mut output)
        }
    };
    advise(&rt, status);
    status
}

// Tells on standard error, where that is a terminal, what may help after a refusal.
fn advise(rt: &HostRuntime, status: ExitCode) {
    if !rt.stderr().is_terminal() {
        return;
    }
    if let Ok(Some(advice)) = advice(rt.alloc(), args(rt), status) {
        // Advice that can't be written is no fault of the answer.
        let _written = eprintln!(rt; "{advice}");
    }
}
