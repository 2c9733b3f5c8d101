//! `ticklab check`: which files are meant, and what is answered once they were searched.
ghost use Rattle.std.specs.Prelude.{◌≡◌, ◌∷◌, ℕ, List, [], IfErr, IfOk, length, map, option_map, string_bytes};
ghost use Rattle.std.specs.List.{filter};
ghost use Rattle.ticklab_files.specs.Asking.{texts_of};
ghost use Rattle.ticklab_check.specs.Wording.{status_of};
ghost use Rattle.ticklab_answers.specs.Checks.{AreIn, AreNamed, AreRead, ChecksAll, IsAmong, IsNamed, IsUnderOne, findings_in, name_in, slash_after};
ghost use Rattle.ticklab_answers.specs.Hearing.{IsOfCheck, IsToldOf, IsUnwritten, WritesAll};
ghost use Rattle.ticklab_files.specs.Responses.{Gives};
ghost use Rattle.ticklab_files.specs.Reading.{is_tick};
ghost use Rattle.ticklab_files.specs.Faults.{HasNoTicks, IsOfFile, IsOfFileThat, IsUnread};

use crate::hearing::fault_of;
use crate::host::Host;
use base::NoMemory;
use searches_explore::Limits;
use std::alloc::{AllocError, Global};
use std::io::Write;
use ticklab_check::{Checks, Findings, Listener, Source, Unheard, check};
use ticklab_files::{Files, Form, LabFault, ReadFault, Response, bytes_of, is_input, output};
use ticklab_json::findings_object;

/// Whether each of these files, and of the `.tick` files in these folders, is as it says, as far as these limits let the
/// searches go. All are read before the first is searched. They are searched by `checks`. For people, the lines of each file
/// are written as soon as they are known, and the answer is the last line.
pub fn checked<F: Files, O: Write, T, C: Checks>(
    alloc: Global,
    host: &mut Host<F, O, T>,
    checks: &C,
    paths: &[&str],
    limits: Limits,
    form: Form,
) -> Result<Response, LabFault>
    ensures ok { IfOk result (λ response. (written : List (List ℕ))
        × ChecksAll F.Reads F.ReadsInput F.Lists host.old.files host.new.files (texts_of paths.now) limits (C.most checks.now) form written response
        × WritesAll O.contents host.old host.new written) }
    ensures err { IfErr result (IsOfCheck (IsUnread F.Reads F.ReadsInput F.Lists F.Fails) (IsUnderOne (texts_of paths.now)) form) }
{
    let names = names_of(alloc, &mut host.files, paths)?;
    let sources = sources_of(alloc, &mut host.files, names)?;
    match form {
        Form::Text => heard(alloc, checks, &sources, limits, form, host),
        Form::Json => heard(alloc, checks, &sources, limits, form, &mut Unheard),
    }
}

// The answer about these files, of which a listener hears.
fn heard<C: Checks, L: Listener>(
    alloc: Global,
    checks: &C,
    sources: &[Source],
    limits: Limits,
    form: Form,
    listener: &mut L,
) -> Result<Response, LabFault>
    ensures ok { IfOk result (IsToldOf L.hears listener.old listener.new (C.most checks.now) sources.now limits form) }
    ensures err { IfErr result (IsUnwritten L.refuses) }
{
    match check(alloc, checks, sources, limits, listener) {
        Ok(findings) => Ok(findings_told(alloc, sources, &findings, form)?),
        Err(fault) => Err(fault_of(fault)),
    }
}

fn findings_told(
    alloc: Global,
    sources: &[Source],
    findings: &Findings,
    form: Form,
) -> Result<Response, NoMemory>
    requires { length sources.now ≡ length findings.now.files.items }
    ensures { IfOk result (Gives (status_of findings.now.tally) (λ out. out ≡ findings_in form sources.now findings.now)) }
{
    let out = match form {
        Form::Text => findings.last_line(alloc)?,
        Form::Json => findings_object(alloc, sources, findings)?.into_bytes(),
    };
    Ok(output(alloc, findings.tally.status(), out))
}

// The files that these paths stand for.
fn names_of<F: Files>(alloc: Global, files: &mut F, paths: &[&str]) -> Result<Vec<String>, LabFault>
    ensures ok { IfOk result (λ names. AreNamed F.Lists files.old (texts_of paths.now) (map string_bytes names.items) files.new) }
    ensures err { IfErr result (IsOfFileThat (IsUnread F.Reads F.ReadsInput F.Lists F.Fails) (IsUnderOne (texts_of paths.now))) }
{
    let mut names = Vec::new(alloc);
    for path in paths {
        let mut more = names_at(alloc, files, path)?;
        names.append(&mut more)?;
    }
    Ok(names)
}

// The files that a path stands for.
fn names_at<F: Files>(alloc: Global, files: &mut F, path: &str) -> Result<Vec<String>, LabFault>
    ensures ok { IfOk result (λ names. IsNamed F.Lists files.old path.now (map string_bytes names.items) files.new) }
    ensures err { IfErr result (IsOfFile (IsUnread F.Reads F.ReadsInput F.Lists F.Fails) path.now) }
{
    if is_input(path) {
        return Ok(itself(alloc, path)?);
    }
    match entries_of(alloc, files, path)? {
        None => Ok(itself(alloc, path)?),
        Some(entries) => names_among(alloc, path, entries),
    }
}

fn itself(alloc: Global, path: &str) -> Result<Vec<String>, AllocError>
    ensures { IfOk result (λ names. map string_bytes names.items ≡ path.now ∷ []) }
{
    let mut names = Vec::new(alloc);
    names.push(String::from_str(alloc, path)?)?;
    Ok(names)
}

// What is in the folder of this name, unless it is none.
fn entries_of<F: Files>(
    alloc: Global,
    files: &mut F,
    path: &str,
) -> Result<Option<Vec<String>>, LabFault>
    ensures ok { IfOk result (λ entries. F.Lists files.old path.now (option_map (λ names. names.items) entries) files.new) }
    ensures err { IfErr result (IsOfFile (IsUnread F.Reads F.ReadsInput F.Lists F.Fails) path.now) }
{
    match files.folder(alloc, path) {
        Ok(entries) => Ok(entries),
        Err(error) => Err(LabFault::of_call(alloc, path, error)),
    }
}

// The `.tick` files among what is in a folder.
fn names_among(alloc: Global, folder: &str, entries: Vec<String>) -> Result<Vec<String>, LabFault>
    ensures ok { IfOk result (λ names. AreIn folder.now entries.items (map string_bytes names.items)) }
    ensures err { IfErr result (IsOfFile (λ _ cause. (cause ≡ ReadFault.NoTicks) × HasNoTicks entries.items) folder.now) }
{
    let mut ticks = ticks_among(alloc, entries)?;
    if ticks.is_empty() {
        return Err(LabFault::of_file(alloc, folder, ReadFault::NoTicks));
    }
    ticks.sort()?;
    Ok(names_in(alloc, folder, &ticks)?)
}

fn ticks_among(alloc: Global, entries: Vec<String>) -> Result<Vec<String>, AllocError>
    ensures { IfOk result (λ ticks. ticks.items ≡ filter (λ entry. is_tick (string_bytes entry)) entries.items) }
{
    let mut ticks = Vec::new(alloc);
    for entry in entries {
        if is_tick(&entry) {
            ticks.push(entry)?;
        }
    }
    Ok(ticks)
}

fn is_tick(name: &str) -> bool
    ensures { result ≡ is_tick name.now }
{
    name.as_bytes().ends_with(b".tick")
}

fn names_in(alloc: Global, folder: &str, ticks: &[String]) -> Result<Vec<String>, AllocError>
    ensures { IfOk result (λ names. map string_bytes names.items ≡ map (λ file. name_in folder.now (string_bytes file)) ticks.now) }
{
    let mut names = Vec::new(alloc);
    for file in ticks {
        names.push(name_in(alloc, folder, file)?)?;
    }
    Ok(names)
}

fn name_in(alloc: Global, folder: &str, file: &str) -> Result<String, AllocError>
    ensures { IfOk result (λ name. string_bytes name ≡ name_in folder.now file.now) }
{
    let mut name = String::from_str(alloc, folder)?;
    name.push_str(slash_after(folder))?;
    name.push_str(file)?;
    Ok(name)
}

fn slash_after(folder: &str) -> &'static str
    ensures { result.now ≡ slash_after folder.now }
{
    if folder.as_bytes().ends_with(b"/") {
        ""
    } else {
        "/"
    }
}

// The files of these names, which are read in turn.
fn sources_of<F: Files>(
    alloc: Global,
    files: &mut F,
    names: Vec<String>,
) -> Result<Vec<Source>, LabFault>
    ensures ok { IfOk result (λ sources. AreRead F.Reads F.ReadsInput files.old (map string_bytes names.items) sources.items files.new) }
    ensures err { IfErr result (IsOfFileThat (IsUnread F.Reads F.ReadsInput F.Lists F.Fails) (IsAmong (map string_bytes names.items))) }
{
    let mut sources = Vec::new(alloc);
    for name in names {
        let bytes = bytes_of(alloc, files, name.as_str())?;
        sources.reserve(1)?;
        sources.push_reserved(Source { name, bytes });
    }
    Ok(sources)
}
