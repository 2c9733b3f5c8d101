//! How long the search of a file took, by the stopwatch that is handed over, and who hears of files.

use searches_explore::Limits;
use std::alloc::Global;
use std::cell::Cell;
use std::io::{Error, ErrorKind};
use std::str;
use std::test::Fail;
use tests_shared::is_same;
use ticklab_check::{CheckFault, InTurn, Listener, Source, Stopwatch, Timed, check, file_lines};

/// Between two looks at it 12.34 seconds go by.
#[derive(Drop)]
struct Ticking {
    hundredths: Cell<u64>,
}

impl Stopwatch for Ticking {
    fn hundredths(&self) -> u64 {
        let now = self.hundredths.get();
        self.hundredths.set(now.saturating_add(1234));
        now
    }
}

/// Keeps what is told of files, of so many at most.
#[derive(Drop)]
struct Kept {
    text: Vec<u8>,
    most: u32,
}

impl Listener for Kept {
    ghost hears = { λ before source timed after. Unit {0} };

    ghost refuses = { Unit {0} };

    fn hear(&mut self, alloc: Global, source: &Source, timed: &Timed) -> Result<(), CheckFault> {
        if self.most == 0 {
            return Err(CheckFault::Unheard(Error::from(ErrorKind::BrokenPipe)));
        }
        self.most -= 1;
        let mut lines = file_lines(alloc, source, timed)?;
        self.text.append(&mut lines)?;
        Ok(())
    }
}

fn source(alloc: Global, name: &str, text: &str) -> Result<Source, Fail> {
    Ok(Source {
        name: String::from_str(alloc, name)?,
        bytes: Vec::from_slice(alloc, text.as_bytes())?,
    })
}

// Two files: how many are heard of at most, what is told, and how often the stopwatch was looked at.
fn told(alloc: Global, most: u32) -> Result<(Vec<u8>, u64), Fail> {
    let stopwatch = Ticking {
        hundredths: Cell::new(5),
    };
    let in_turn = InTurn {
        stopwatch: &stopwatch,
    };
    let mut sources = Vec::new(alloc);
    sources.push(source(alloc, "out", "processes 1; begin out 7; end")?)?;
    sources.push(source(alloc, "none", "processes")?)?;
    let mut kept = Kept {
        text: Vec::new(alloc),
        most,
    };
    let limits = Limits::of_states(4);
    match check(alloc, &in_turn, &sources, limits, &mut kept) {
        Ok(findings) => {
            let mut last = findings.last_line(alloc)?;
            kept.text.append(&mut last)?;
        }
        Err(CheckFault::Unheard(_)) => kept.text.extend_from_slice(b"unheard\n")?,
        Err(CheckFault::NoMemory) => kept.text.extend_from_slice(b"no memory\n")?,
    }
    Ok((kept.text, stopwatch.hundredths.get() / 1234))
}

const FIRST: &str = "out: safe, 2 merged states, no line asked, 12.34 s\n";

const SECOND: &str = "none: refused
none:1:10: error: expected a number, found the end of the text
  |
1 | processes
  |          ^
hint: a program begins with `processes 2;`
ticketc: refused 5 Unexpected 9 9
";

#[test]
fn each_file_is_heard_of(rt: HostRuntime) -> Result<(), Fail> {
    let alloc = rt.alloc();
    let (text, looks) = told(alloc, 2)?;
    let wanted = format!(in alloc; "{FIRST}{SECOND}1 as expected, 1 not, 0 at the limit\n")?;
    is_same(&str::from_utf8(&text), &Ok(wanted.as_str()))?;
    is_same(&looks, &4)
}

#[test]
fn nothing_is_searched_that_nobody_hears_of(rt: HostRuntime) -> Result<(), Fail> {
    let alloc = rt.alloc();
    let (text, looks) = told(alloc, 0)?;
    is_same(&str::from_utf8(&text), &Ok("unheard\n"))?;
    is_same(&looks, &2)
}
