//! Files that are scripted.
use std::alloc::Global;
use std::io;
use std::io::{Error, ErrorKind};
use ticklab_files::Files;

/// One file. There is no other, and no standard input.
#[derive(Drop)]
pub struct OneFile<'a> {
    pub name: &'a str,
    pub bytes: &'a [u8],
}

impl<'a> Files for OneFile<'a> {
    ghost Reads = { λ _ _ _ _ _. Unit {0} };

    ghost ReadsInput = { λ _ _ _ _. Unit {0} };

    ghost Lists = { λ _ _ _ _. Unit {0} };

    ghost Fails = { λ _ _ _ _. Unit {0} };

    fn file(&mut self, alloc: Global, name: &str, most: u64) -> io::Result<Vec<u8>> {
        if name != self.name {
            return Err(Error::from(ErrorKind::NotFound));
        }
        first_of(alloc, self.bytes, most)
    }

    fn input(&mut self, _alloc: Global, _most: u64) -> io::Result<Vec<u8>> {
        Err(Error::from(ErrorKind::NotFound))
    }

    fn folder(&mut self, _alloc: Global, _name: &str) -> io::Result<Option<Vec<String>>> {
        Ok(None)
    }
}

pub fn first_of(alloc: Global, bytes: &[u8], most: u64) -> io::Result<Vec<u8>> {
    let mut first = Vec::new(alloc);
    for byte in bytes {
        if (first.len() as u64) < most {
            first.push(*byte)?;
        }
    }
    Ok(first)
}
