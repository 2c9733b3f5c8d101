//! `ticklab` shows what a ticket program does: under every schedule, under random ones, and step by step.
//!
//! `main` calls `ended` of `ticklab_answers`, which does everything else. Here is only what touches the host: its files,
//! its colours, the line that tells how far a search is, and the threads and the clock of `check`; and the version.
//! Start with `ended` of `ticklab_answers`.
#![tactic(auto)]

mod at_work;
mod checking;
mod colours;
mod files;
mod progress;
mod search;
mod searching;
mod version;

use crate::checking::SideBySide;
use crate::colours::colours_of;
use crate::files::HostFiles;
use crate::progress::HostProgress;
use crate::version::VERSION;
use searches_parallel::OnProcessors;
use std::env::args;
use std::process::ExitCode;
use tick_run::OnThreads;
use ticklab_answers::{Host, ended};

fn main(rt: HostRuntime) -> ExitCode {
    ended(
        rt.alloc(),
        &mut Host {
            version: VERSION,
            files: HostFiles::new(&rt),
            out: rt.stdout(),
            err: rt.stderr(),
            colours: colours_of(&rt),
        },
        &mut OnThreads::new(&rt),
        &OnProcessors::new(&rt),
        &SideBySide::new(&rt, &rt),
        &mut HostProgress::new(&rt),
        args(&rt),
    )
}
