//! Schedules of 1,000,000 bytes, which are longer than a word that the host gives a program.
use crate::commands::answering::says;
use std::test::Fail;
use tests_shared::repeated;

const SEVENS: &[u8] = b"processes 2; begin while 1 { out 7; } end";

const STILL: &str = "status 0 running\nstatus 1 running\n";

// Both processes in turn. A turn of the loop is two steps of the program and five of its code.
#[test]
fn long_schedules(rt: HostRuntime) -> Result<(), Fail> {
    let schedule = repeated(rt.alloc(), "", "0 1 ", 250_000, "")?;
    let sevens = "0 out 7\n1 out 7\n";
    let report = repeated(rt.alloc(), "", sevens, 125_000, STILL)?;
    let source = ["ticketc", "source", schedule.as_str()];
    says(&rt, &source, SEVENS, report.as_str())?;
    let report = repeated(rt.alloc(), "", sevens, 50_000, STILL)?;
    let code = ["ticketc", "code", schedule.as_str()];
    says(&rt, &code, SEVENS, report.as_str())
}

const IDLE: &[u8] = b"processes 2; begin while 1 { } end";

// A test is two steps of the code, and after the first one there is the jump back before it.
#[test]
fn long_maps(rt: HostRuntime) -> Result<(), Fail> {
    let schedule = repeated(rt.alloc(), "0 1", " 0 1", 249_999, "\n")?;
    let lifted = repeated(rt.alloc(), "0*2 1*2", " 0*3 1*3", 249_999, "\n")?;
    let lift = ["ticketc", "lift", schedule.as_str()];
    says(&rt, &lift, IDLE, lifted.as_str())?;
    let back = ["ticketc", "drop", lifted.as_str()];
    says(&rt, &back, IDLE, schedule.as_str())
}
