//! `Program`: an accepted program. `check` accepts a tree, or gives it back with its first fault.
ghost use Rattle.std.specs.Prelude.{◌≡◌, ◌≢◌, ◌≤◌, Some, length, map, IfOk, OnOk, IfErr};
ghost use Rattle.base.specs.Plain.{tree_of, name_of};
ghost use Rattle.tick_kinds.specs.Accepted.{IsAccepted};
ghost use Rattle.tick_kinds.specs.prover.Checked.{Gives, checked_program};
ghost use Rattle.tick_kinds.specs.Declarations.{declarations, numbered, slot_in};
ghost use Rattle.tick_kinds.specs.Refusals.{first_refusal};
ghost use Rattle.tick_kinds.specs.Resolution.{resolved};
ghost use Rattle.tick_kinds.specs.Resolved.{resolved_block};
ghost use Rattle.tick_kinds.specs.Uses.{IsWithin};

use crate::fault::KindFault;
use crate::kind::Kind;
use crate::names::Names;
use crate::resolved::Statement;
use base::tree::{Named, Tree};
use std::alloc::Global;
use std::marker::Model;

/// An accepted program: its tree, and its body with names replaced by numbers.
#[derive(Drop)]
pub struct Program {
    tree: Tree,
    body: Vec<Statement>,
}

impl Model for Program {
    ghost use Rattle.std.specs.Prelude.{◌≡◌, Ok};
    ghost use Rattle.std.specs.Coded.{codes};
    ghost use Rattle.base.specs.Plain.{Name, WholeProgram, tree_of};
    ghost use Rattle.tick_kinds.specs.prover.Checked.{checked_program};
    ghost use Rattle.base.specs.prover.Coding.{written_blocks};
    ghost use Rattle.tick_kinds.specs.Resolved.{resolved_block};

    ghost Value = { WholeProgram Name };

    ghost coded = { Prim.hlevel (codes, written_blocks) };

    ghost view = { λ a. tree_of a.tree };

    ghost invariant = { λ a. checked_program (tree_of a.tree) ≡ Ok (resolved_block a.body.items) };
}

#[tactic(auto, unfolding(crate::specs::prover::Checked::checked_program))]
fn resolve(alloc: Global, tree: &Tree) -> Result<Vec<Statement>, KindFault>
    ensures { Gives (λ b. resolved_block b.items) result (checked_program (tree_of tree.now)) }
{
    if tree.processes < 1 || tree.processes > 6 {
        return Err(KindFault::Processes(tree.processes_span));
    }
    Names::of(alloc, tree)?.block(&tree.body)
}

/// Accepts a program, or gives its tree back with the first fault in order of the text, or with
/// `NoMemory`.
pub fn check(alloc: Global, tree: Tree) -> Result<Program, (Tree, KindFault)>
    ensures program { IfOk result (λ p. p ≡ tree_of tree) }
    ensures accepted { OnOk result (IsAccepted (tree_of tree)) }
    ensures refused { IfErr result (λ e. e.1 ≢ KindFault.NoMemory → first_refusal (tree_of tree) ≡ Some e.1) }
    ensures accepts { IsAccepted (tree_of tree) → IfErr result (λ e. e.1 ≡ KindFault.NoMemory) }
    ensures unchanged { IfErr result (λ e. e.0 ≡ tree) }
{
    match resolve(alloc, &tree) {
        Ok(body) => Ok(Program { tree, body }),
        Err(fault) => Err((tree, fault)),
    }
}

impl Program {
    /// The program as it was written.
    pub fn tree(&self) -> &Tree
        ensures tree { tree_of result.now ≡ self.now }
        ensures accepted { IsAccepted self.now }
    {
        &self.tree
    }

    /// The statements, with names by number.
    pub fn body(&self) -> &[Statement]
        ensures resolved { resolved_block result.now ≡ (resolved self.now).body }
        ensures within { IsWithin (length self.now.variables) (length self.now.scans) (length self.now.registers) (resolved_block result.now) }
    {
        &self.body
    }

    /// How many processes run it, 1 to 6.
    pub fn processes(&self) -> u8
        ensures count { result ≡ self.now.processes }
        ensures some { 1 ≤ result }
        ensures most { result ≤ 6 }
    {
        self.tree.processes as u8
    }

    /// How many variables each process has, at most 64.
    pub fn variables(&self) -> u8
        ensures count { result ≡ length self.now.variables }
        ensures resolved { result ≡ length (resolved self.now).variables }
        ensures most { result ≤ 64 }
    {
        self.tree.variables.len() as u8
    }

    /// How many scans each process has, at most 16.
    pub fn scans(&self) -> u8
        ensures count { result ≡ length self.now.scans }
        ensures resolved { result ≡ length (resolved self.now).scans }
        ensures most { result ≤ 16 }
    {
        self.tree.scans.len() as u8
    }

    /// How many register rows there are, at most 8.
    pub fn registers(&self) -> u8
        ensures count { result ≡ length self.now.registers }
        ensures resolved { result ≡ length (resolved self.now).registers }
        ensures most { result ≤ 8 }
    {
        self.tree.registers.len() as u8
    }

    /// What a name is declared as, and its number in that section; `None` for a name that is not
    /// declared.
    pub fn kind(&self, name: &str) -> Option<(Kind, u8)>
        ensures { result ≡ slot_in (declarations self.now) name.now }
    {
        if let Some(slot) = slot_of(Kind::Variable, &self.tree.variables, name) {
            return Some(slot);
        }
        if let Some(slot) = slot_of(Kind::Scan, &self.tree.scans, name) {
            return Some(slot);
        }
        slot_of(Kind::Register, &self.tree.registers, name)
    }
}

// The slot of a name among those of one section.
fn slot_of(kind: Kind, section: &[Named], name: &str) -> Option<(Kind, u8)>
    requires { length section.now ≤ 64 }
    ensures { result ≡ slot_in (numbered kind (map name_of section.now) 0) name.now }
{
    for (number, named) in section.iter().enumerate() {
        if named.name.as_str() == name {
            return Some((kind, number as u8));
        }
    }
    None
}
