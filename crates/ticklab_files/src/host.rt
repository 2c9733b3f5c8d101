ghost use Rattle.std.specs.Prelude.{ℕ, List, IfErr, IfOk, Option, String, codes, option_map};
ghost use Rattle.std.specs.Global.{Global};
ghost use Rattle.std.specs.declared.io.Error.{Error};

use std::alloc::Global;
use std::io;

/// Where the program reads its files.
pub trait Files {
    // What they are before a file of this name is read, how many of its bytes are read at most, those that
    // are read, and what they are after it.
    ghost Reads: { Self → List ℕ → ℕ → List ℕ → Self → Type 0 };

    // The same of standard input.
    ghost ReadsInput: { Self → ℕ → List ℕ → Self → Type 0 };

    // What they are before a folder of this name is listed, the names of what is in it, unless it is no folder, and
    // what they are after it.
    ghost Lists: { Self → List ℕ → Option (List (String Global)) → Self → Type 0 };

    // What they are before a call for a file or a folder of this name fails, or for standard input, whose name is `-`;
    // what the host says of it, and what they are after it.
    ghost Fails: { Self → List ℕ → Error → Self → Type 0 };

    /// The bytes of the file of this name, at most the first `most`.
    fn file(&mut self, alloc: Global, name: &str, most: u64) -> io::Result<Vec<u8>>
        ensures ok { IfOk result (λ bytes. Self.Reads self.old name.now most bytes.items self.new) }
        ensures err { IfErr result (λ error. Self.Fails self.old name.now error self.new) };

    /// The bytes of standard input, at most the first `most`.
    fn input(&mut self, alloc: Global, most: u64) -> io::Result<Vec<u8>>
        ensures ok { IfOk result (λ bytes. Self.ReadsInput self.old most bytes.items self.new) }
        ensures err { IfErr result (λ error. Self.Fails self.old (codes "-") error self.new) };

    /// The names of what is in the folder of this name, in any order; nothing where a file of another kind has it.
    fn folder(&mut self, alloc: Global, name: &str) -> io::Result<Option<Vec<String>>>
        ensures ok { IfOk result (λ names. Self.Lists self.old name.now (option_map (λ names. names.items) names) self.new) }
        ensures err { IfErr result (λ error. Self.Fails self.old name.now error self.new) };
}
