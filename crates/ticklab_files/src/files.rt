//! What the program reads: files by their names, and standard input.
ghost use Rattle.std.specs.Prelude.{◌≡◌, IfErr, IfOk, MatchOption, None, Some, string_bytes};
ghost use Rattle.ticklab_files.specs.Faults.{IsOfFile, IsOfSchedule, IsUnread};
ghost use Rattle.ticklab_files.specs.Reading.{AreTexts, IsRead, IsSchedule, is_input, reads_input, schedule_file};
ghost use Rattle.ticklab_files.specs.Ways.{held};

use crate::answers::texts_in;
use crate::fault::{LabFault, ReadFault};
use crate::host::Files;
use crate::ways::{ScheduleTexts, alone};
use std::alloc::Global;

/// A file has fewer bytes: more than any program, code or schedule has.
pub const MOST_BYTES: u64 = 64 * 1024 * 1024;

/// The bytes of a file, or of standard input where the name is `-`.
pub fn bytes_of<F: Files>(alloc: Global, files: &mut F, name: &str) -> Result<Vec<u8>, LabFault>
    ensures ok { IfOk result (λ bytes. IsRead F.Reads F.ReadsInput files.old name.now bytes.items files.new) }
    ensures err { IfErr result (IsOfFile (IsUnread F.Reads F.ReadsInput F.Lists F.Fails) name.now) }
{
    let read = if is_input(name) {
        files.input(alloc, MOST_BYTES)
    } else {
        files.file(alloc, name, MOST_BYTES)
    };
    let bytes = match read {
        Ok(bytes) => bytes,
        Err(error) => return Err(LabFault::of_call(alloc, name, error)),
    };
    if bytes.len() as u64 >= MOST_BYTES {
        return Err(LabFault::of_file(alloc, name, ReadFault::TooLong));
    }
    Ok(bytes)
}

/// The texts of a way, and where they are from: a schedule itself is given, or the file that has them, which may be an
/// answer. Standard input is not read again.
pub fn texts_of<'a, F: Files>(
    alloc: Global,
    files: &mut F,
    given: &'a str,
    is_input_read: bool,
) -> Result<(&'a str, ScheduleTexts), LabFault>
    ensures ok { IfOk result (λ place. AreTexts F.Reads F.ReadsInput is_input_read files.old files.new given.entry.now place.0.now (held place.1)) }
    ensures err { IfErr result (IsOfSchedule (IsUnread F.Reads F.ReadsInput F.Lists F.Fails) given.entry.now) }
{
    let Some(name) = schedule_file(given) else {
        return Ok(("SCHEDULE", alone(alloc, String::from_str(alloc, given)?)));
    };
    if is_input_read && is_input(name) {
        return Err(LabFault::of_file(alloc, name, ReadFault::ReadAlready));
    }
    let bytes = bytes_of(alloc, files, name)?;
    match String::from_utf8(bytes) {
        Ok(text) => Ok((name, texts_in(alloc, text)?)),
        Err(_) => Err(LabFault::of_file(alloc, name, ReadFault::NoText)),
    }
}

/// The schedule alone, and where it is from.
pub fn text_of<'a, F: Files>(
    alloc: Global,
    files: &mut F,
    given: &'a str,
    is_input_read: bool,
) -> Result<(&'a str, String), LabFault>
    ensures ok { IfOk result (λ place. IsSchedule F.Reads F.ReadsInput is_input_read files.old files.new given.entry.now place.0.now (string_bytes place.1)) }
    ensures err { IfErr result (IsOfSchedule (IsUnread F.Reads F.ReadsInput F.Lists F.Fails) given.entry.now) }
{
    let (from, texts) = texts_of(alloc, files, given, is_input_read)?;
    Ok((from, texts.schedule))
}

/// Whether a file of this name is standard input.
pub fn is_input(name: &str) -> bool
    ensures { result ≡ is_input name.now }
{
    name == "-"
}

/// Whether standard input is read for this schedule.
pub fn reads_input(given: &str) -> bool
    ensures { result ≡ reads_input given.now }
{
    match schedule_file(given) {
        Some(name) => is_input(name),
        None => false,
    }
}

// The file that has the schedule, where it is not given itself.
fn schedule_file(given: &str) -> Option<&str>
    ensures { MatchOption result (schedule_file given.now ≡ None) (λ name. schedule_file given.now ≡ Some name.now) }
{
    if is_input(given) {
        return Some(given);
    }
    given.strip_prefix("@")
}
