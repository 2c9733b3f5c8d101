ghost use Rattle.std.specs.Prelude.{◌≡◌, OnOk, OnErr, IfOk};
ghost use Rattle.std.specs.Option.{option_map};
ghost use Rattle.tick_kinds.specs.Resolved.{resolved_block, resolved_statement};
ghost use Rattle.tick_source.specs.prover.Remaining.{first_of, after_first};
ghost use Rattle.base.specs.Plain.{nil, onto};

use base::NoMemory;
use std::alloc::Global;
use std::marker::Model;
use tick_kinds::resolved::Statement;

/// The statements that remain of a program: of each block that is open, what is still to be done,
/// the innermost block last. A block that is done is not kept.
#[derive(Drop)]
pub struct Remaining<'a> {
    blocks: Vec<&'a [Statement]>,
}

impl<'a> Model for Remaining<'a> {
    ghost use Rattle.std.specs.Prelude.{ℕ};
    ghost use Rattle.base.specs.Plain.{Block};
    ghost use Rattle.base.specs.prover.Coding.{resolved_blocks};
    ghost use Rattle.tick_source.specs.prover.Remaining.{joined, IsUndone};

    ghost Value = { Block ℕ };

    ghost coded = { resolved_blocks };

    ghost view = { λ r. joined r.blocks.items };

    ghost invariant = { λ r. IsUndone r.blocks.items };
}

impl<'a> Remaining<'a> {
    /// All of this block.
    pub fn new(alloc: Global, block: &'a [Statement]) -> Result<Remaining<'a>, NoMemory>
        ensures { IfOk result (λ r. r ≡ resolved_block block.now) }
    {
        let mut rest = Remaining {
            blocks: Vec::new(alloc),
        };
        rest.enter(block)?;
        Ok(rest)
    }

    /// The statement that is done next.
    pub fn first(&self) -> Option<&'a Statement>
        ensures { option_map (λ s. resolved_statement s.now) result ≡ first_of self.now }
    {
        let block = self.blocks.last()?;
        block.first()
    }

    /// Leaves out the next statement.
    pub fn advance(&mut self)
        ensures { self.new ≡ after_first self.old }
    {
        let Some(last) = self.blocks.len().checked_sub(1) else {
            return;
        };
        let block = self.blocks[last];
        if block.len() > 1 {
            self.blocks[last] = &block[1..];
        } else {
            self.blocks.truncate(last);
        }
    }

    /// Puts a block before all that remains.
    pub fn enter(&mut self, block: &'a [Statement]) -> Result<(), NoMemory>
        ensures ok { OnOk result (self.new ≡ onto (resolved_block block.now) self.old) }
        ensures err { OnErr result (self.new ≡ self.old) }
    {
        if !block.is_empty() {
            self.blocks.push(block)?;
        }
        Ok(())
    }

    /// Puts a block in the place of the next statement.
    pub fn instead(&mut self, block: &'a [Statement]) -> Result<(), NoMemory>
        ensures ok { OnOk result (self.new ≡ onto (resolved_block block.now) (after_first self.old)) }
        ensures err { OnErr result (self.new ≡ self.old) }
    {
        let Some(last) = self.blocks.len().checked_sub(1) else {
            return self.enter(block);
        };
        let open = self.blocks[last];
        if block.is_empty() {
            self.advance();
        } else if open.len() > 1 {
            self.blocks.push(block)?;
            self.blocks[last] = &open[1..];
        } else {
            self.blocks[last] = block;
        }
        Ok(())
    }
}
