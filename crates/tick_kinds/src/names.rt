//! `Names`: what the declared names of a program stand for, and its statements with numbers in their place.
ghost use Rattle.base.specs.Plain.{tree_of, name_of, expression_of, statement_of, block_of};
ghost use Rattle.tick_kinds.specs.Resolved.{resolved_expression, resolved_statement, resolved_block};
ghost use Rattle.tick_kinds.specs.prover.Table.{slot_at};
ghost use Rattle.tick_kinds.specs.prover.Checked.{Gives, checked_name, checked_expression, checked_valued, checked_asked, checked_copy, checked_older, checked_statement, checked_block, checked_declaration, checked_declarations};
ghost use Rattle.tick_kinds.specs.Declarations.{limit, numbered, declarations};
ghost use Rattle.std.specs.Prelude.{◌≡◌, None, map};

use crate::fault::KindFault;
use crate::kind::Kind;
use crate::resolved::{Expression, Statement};
use base::tree::{Expr, Named, Stmt, Tree};
use indexmap::IndexMap;
use std::alloc::Global;

// How many names of a kind there may be.
fn limit_of(kind: Kind) -> usize
    ensures { result ≡ limit kind }
{
    match kind {
        Kind::Variable => 64,
        Kind::Scan => 16,
        Kind::Register => 8,
    }
}

// What the declared names stand for.
#[derive(Drop)]
pub struct Names<'a> {
    pub alloc: Global,
    pub slots: IndexMap<&'a str, (Kind, u8)>,
}

impl<'a> Names<'a> {
    /// The names that a program declares.
    pub fn of(alloc: Global, tree: &'a Tree) -> Result<Names<'a>, KindFault>
        ensures { Gives (λ n. slot_at n.slots) result (checked_declarations (declarations (tree_of tree.now)) (λ _. None)) }
    {
        let mut names = Names {
            alloc,
            slots: IndexMap::new(alloc),
        };
        names.declare_all(Kind::Variable, &tree.variables)?;
        names.declare_all(Kind::Scan, &tree.scans)?;
        names.declare_all(Kind::Register, &tree.registers)?;
        Ok(names)
    }

    fn declare_all(&mut self, kind: Kind, section: &'a [Named]) -> Result<(), KindFault>
        ensures { Gives (λ _. slot_at self.new.slots) result (checked_declarations (numbered kind (map name_of section.now) 0) (slot_at self.old.slots)) }
    {
        for (number, named) in section.iter().enumerate() {
            self.declare(kind, number, named)?;
        }
        Ok(())
    }

    #[tactic(auto, unfolding(crate::specs::prover::Checked::checked_declaration))]
    fn declare(&mut self, kind: Kind, number: usize, named: &'a Named) -> Result<(), KindFault>
        ensures { Gives (λ _. slot_at self.new.slots) result (checked_declaration (record { name = name_of named.now; slot = (kind, number) }) (slot_at self.old.slots)) }
    {
        let letters = named.name.as_str();
        if self.slots.contains_key(letters) {
            return Err(KindFault::Twice(named.span));
        }
        if number >= limit_of(kind) {
            return Err(KindFault::TooMany(named.span));
        }
        self.slots.insert(letters, (kind, number as u8))?;
        Ok(())
    }

    #[tactic(auto, unfolding(crate::specs::prover::Checked::checked_name))]
    fn number(&self, wanted: Kind, named: &Named) -> Result<u8, KindFault>
        ensures { Gives (λ x. x) result (checked_name (slot_at self.now.slots) wanted (name_of named.now)) }
    {
        match self.slots.get(named.name.as_str()) {
            None => Err(KindFault::Unknown(named.span)),
            Some((found, number)) if *found == wanted => Ok(*number),
            Some((found, _)) => Err(KindFault::WrongKind {
                span: named.span,
                wanted,
                found: *found,
            }),
        }
    }

    #[tactic(auto, unfolding(crate::specs::prover::Checked::checked_expression))]
    fn expression(&self, value: &Expr) -> Result<Expression, KindFault>
        ensures { Gives resolved_expression result (checked_expression (slot_at self.now.slots) (expression_of value.now)) }
    {
        match value {
            Expr::Num(number) => Ok(Expression::Number(*number)),
            Expr::Name(named) => Ok(Expression::Variable(self.number(Kind::Variable, named)?)),
            Expr::Me => Ok(Expression::Me),
            Expr::Count => Ok(Expression::Count),
            Expr::Bin(left, op, right) => {
                let left = Box::new(self.alloc, self.expression(left)?)?;
                let right = Box::new(self.alloc, self.expression(right)?)?;
                Ok(Expression::Binary(left, *op, right))
            }
        }
    }

    // A name of this kind, and an expression.
    #[tactic(auto, unfolding(crate::specs::prover::Checked::checked_valued))]
    fn valued(
        &self,
        wanted: Kind,
        named: &Named,
        value: &Expr,
    ) -> Result<(u8, Expression), KindFault>
        ensures { Gives (λ r. (r.0, resolved_expression r.1)) result (checked_valued (slot_at self.now.slots) wanted (name_of named.now) (expression_of value.now)) }
    {
        let number = self.number(wanted, named)?;
        Ok((number, self.expression(value)?))
    }

    // A variable, a name of this kind, and an expression.
    #[tactic(auto, unfolding(crate::specs::prover::Checked::checked_asked))]
    fn asked(
        &self,
        wanted: Kind,
        target: &Named,
        named: &Named,
        process: &Expr,
    ) -> Result<(u8, u8, Expression), KindFault>
        ensures { Gives (λ r. (r.0, r.1, resolved_expression r.2)) result (checked_asked (slot_at self.now.slots) wanted (name_of target.now) (name_of named.now) (expression_of process.now)) }
    {
        let target = self.number(Kind::Variable, target)?;
        let number = self.number(wanted, named)?;
        Ok((target, number, self.expression(process)?))
    }

    #[tactic(auto, unfolding(crate::specs::prover::Checked::checked_copy))]
    fn copy(&self, target: &Named, source: &Named) -> Result<Statement, KindFault>
        ensures { Gives resolved_statement result (checked_copy (slot_at self.now.slots) (name_of target.now) (name_of source.now)) }
    {
        let target = self.number(Kind::Scan, target)?;
        Ok(Statement::Copy(target, self.number(Kind::Scan, source)?))
    }

    #[tactic(auto, unfolding(crate::specs::prover::Checked::checked_older))]
    fn older(
        &self,
        target: &Named,
        scan: &Named,
        first: &Expr,
        second: &Expr,
    ) -> Result<Statement, KindFault>
        ensures { Gives resolved_statement result (checked_older (slot_at self.now.slots) (name_of target.now) (name_of scan.now) (expression_of first.now) (expression_of second.now)) }
    {
        let target = self.number(Kind::Variable, target)?;
        let scan = self.number(Kind::Scan, scan)?;
        let first = self.expression(first)?;
        let second = self.expression(second)?;
        Ok(Statement::Older(target, scan, first, second))
    }

    #[cycle(statement)]
    fn statement(&self, statement: &Stmt) -> Result<Statement, KindFault>
        ensures { Gives resolved_statement result (checked_statement (slot_at self.now.slots) (statement_of statement.now)) }
    {
        match statement {
            Stmt::Assign(target, value) => {
                let (target, value) = self.valued(Kind::Variable, target, value)?;
                Ok(Statement::Assign(target, value))
            }
            Stmt::Get(target, row, process) => {
                let (target, row, process) = self.asked(Kind::Register, target, row, process)?;
                Ok(Statement::Get(target, row, process))
            }
            Stmt::Put(row, value) => {
                let (row, value) = self.valued(Kind::Register, row, value)?;
                Ok(Statement::Put(row, value))
            }
            Stmt::Stamp => Ok(Statement::Stamp),
            Stmt::Clear => Ok(Statement::Clear),
            Stmt::Scan(target) => Ok(Statement::Scan(self.number(Kind::Scan, target)?)),
            Stmt::Copy(target, source) => self.copy(target, source),
            Stmt::Older(target, scan, first, second) => self.older(target, scan, first, second),
            Stmt::Held(target, scan, process) => {
                let (target, scan, process) = self.asked(Kind::Scan, target, scan, process)?;
                Ok(Statement::Held(target, scan, process))
            }
            Stmt::Out(value) => Ok(Statement::Out(self.expression(value)?)),
            Stmt::If(test, first, second) => {
                let test = self.expression(test)?;
                let first = self.block(first)?;
                Ok(Statement::If(test, first, self.block(second)?))
            }
            Stmt::While(test, body) => {
                let test = self.expression(test)?;
                Ok(Statement::While(test, self.block(body)?))
            }
        }
    }

    #[cycle(statement)]
    pub fn block(&self, statements: &[Stmt]) -> Result<Vec<Statement>, KindFault>
        ensures { Gives (λ b. resolved_block b.items) result (checked_block (slot_at self.now.slots) (block_of statements.now)) }
    {
        let mut resolved = Vec::new(self.alloc);
        for statement in statements {
            resolved.push(self.statement(statement)?)?;
        }
        Ok(resolved)
    }
}
