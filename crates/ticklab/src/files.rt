//! The files and folders of the host, and standard input.
ghost use Rattle.std.specs.Prelude.{◌≡◌, IfOk, IfSome, take};

use std::alloc::Global;
use std::fs::File;
use std::io::Read;
use std::{fs, io};
use ticklab_files::Files;

/// Files by their names, as the host has them.
#[derive(Drop)]
pub struct HostFiles<'a> {
    rt: &'a HostRuntime,
}

impl<'a> HostFiles<'a> {
    pub fn new(rt: &'a HostRuntime) -> HostFiles<'a>
        ensures { result.rt ≡ rt.entry }
    {
        HostFiles { rt }
    }
}

impl<'a> Files for HostFiles<'a> {
    // What a file has only the host knows.
    ghost Reads = { λ _ _ _ _ _. Unit {0} };

    ghost ReadsInput = { λ _ _ _ _. Unit {0} };

    ghost Lists = { λ _ _ _ _. Unit {0} };

    ghost Fails = { λ _ _ _ _. Unit {0} };

    fn file(&mut self, alloc: Global, name: &str, most: u64) -> io::Result<Vec<u8>> {
        first_bytes(alloc, File::open(self.rt, name)?, most)
    }

    fn input(&mut self, alloc: Global, most: u64) -> io::Result<Vec<u8>> {
        first_bytes(alloc, self.rt.stdin(), most)
    }

    fn folder(&mut self, alloc: Global, name: &str) -> io::Result<Option<Vec<String>>> {
        if !fs::metadata(self.rt, name)?.is_dir() {
            return Ok(None);
        }
        let mut names = Vec::new(alloc);
        for entry in fs::read_dir(self.rt, name)? {
            let entry = entry?;
            names.push(String::from_str(alloc, entry.file_name())?)?;
        }
        Ok(Some(names))
    }
}

/// What a reader gives, at most its first `most` bytes.
pub fn first_bytes<R: Read + Drop>(alloc: Global, reader: R, most: u64) -> io::Result<Vec<u8>>
    ensures { IfOk result (λ bytes. IfSome (R.remaining reader) (λ known. bytes.items ≡ take most known)) }
{
    let mut bytes = Vec::new(alloc);
    reader.take(most).read_to_end(&mut bytes)?;
    Ok(bytes)
}
