// From the tokens of a text to its tree: a descent by the grammar, one method for each of its rules.
ghost use Rattle.std.specs.Prelude.{◌≡◌, ◌≢◌, ◌<◌, ◌≤◌, ◌⊎◌, ℕ, List, [], length, drop, map, IfOk, IfErr, IsOkUnless, MatchResult};
ghost use Rattle.tick_syntax.specs.prover.Reading.{Gives, GivesAlways, GivesWhole, IsOkUnlessMemory, next_at, terminal_at, brace_at, operator_at, name_at, number_at, pair_at, brackets_at, expression_at, last_at, ended_at, named_last_at, copy_at, older_at, plain_at, right_at, assignment_at, out_at, branch_at, repeat_at, block_at, statement_by, statement_at, statements_at, names_at, section_at, body_at, sections_at, headed_at, whole_at, program_at};
ghost use Rattle.tick_syntax.specs.Grammar.{nesting};
ghost use Rattle.base.specs.Plain.{Name, WholeProgram, get, put, held, name_of, expression_of, statement_of, block_of, tree_of};
ghost use Rattle.tick_syntax.specs.declared.fault.TextFault.TheVariants.{NoMemory, TextTooLong, Unexpected, TooDeep};
ghost use Rattle.tick_syntax.specs.Refusal.{IsTextRefused};
ghost use Rattle.tick_syntax.specs.declared.fault.TextFault.{TextFault};
ghost use Rattle.tick_syntax.specs.RoundTrip.{IsTextOf};
ghost use Rattle.tick_syntax.specs.Decided.{IsWithinLimits};
ghost use Rattle.tick_syntax.specs.Spelling.{HasToken, Spells, StandInOrder};
ghost use Rattle.tick_syntax.specs.prover.ValuedTokens.{AreValues};
ghost use Rattle.base.specs.declared.span.Span.{Span};

use crate::fault::TextFault;
use crate::lexer::{plain_tokens, valued_tokens};
use crate::terminals::Terminal;
use crate::token::Token;
use crate::valued_token::{Ending, Meaning, Section, ValuedToken};
use base::span::Span;
use base::tree::{Expr, Named, Op, Stmt, Tree};
use std::alloc::Global;

/// The tree of a text, which is the only one that it has; else the first refusal of the text: its
/// length, the first fault of its tokens, or where the tokens stop being a program within the
/// limits. A text has at most 1,000,000 bytes, and at most 64 brackets are open in it at once.
/// Memory is wanted only for a text that has a token.
pub fn parse(alloc: Global, text: &str) -> Result<Tree, TextFault>
    ensures tree { IfOk result (λ tree. IsTextOf text.now (tree_of tree)) }
    ensures limits { IfOk result (λ tree. (length text.now ≤ 1000000) × (nesting (tree_of tree) ≤ 64)) }
    ensures accepted { (p : WholeProgram Name) → length text.now ≤ 1000000 → IsTextOf text.now p → nesting p ≤ 64 → MatchResult result (λ tree. p ≡ tree_of tree) (λ fault. fault ≡ NoMemory) }
    ensures long { 1000000 < length text.now → result ≡ Err TextTooLong }
    ensures memory { result ≡ Err NoMemory → (length text.now ≤ 1000000) × HasToken text.now }
    ensures refused { IfErr result (λ fault. fault ≢ NoMemory → IsTextRefused text.now fault) }
    ensures first { (first : TextFault) → IsTextRefused text.now first → MatchResult result (λ tree. ⊥) (λ fault. (fault ≡ first) ⊎ (fault ≡ NoMemory)) }
{
    let tokens = valued_tokens(alloc, text)?;
    read_tree(alloc, text, &tokens)
}

/// The tree of a text, as `parse` gives it, and with it the tokens of the text, in its order. Both are of
/// one reading of the text.
pub fn parse_with_tokens(alloc: Global, text: &str) -> Result<(Tree, Vec<Token>), TextFault>
    ensures tree { IfOk result (λ read. IsTextOf text.now (tree_of read.0)) }
    ensures limits { IfOk result (λ read. (length text.now ≤ 1000000) × (nesting (tree_of read.0) ≤ 64)) }
    ensures tokens { IfOk result (λ read. Spells text.now read.1.items) }
    ensures order { IfOk result (λ read. StandInOrder text.now 0 read.1.items) }
    ensures accepted { (p : WholeProgram Name) → length text.now ≤ 1000000 → IsTextOf text.now p → nesting p ≤ 64 → MatchResult result (λ read. p ≡ tree_of read.0) (λ fault. fault ≡ NoMemory) }
    ensures long { 1000000 < length text.now → result ≡ Err TextTooLong }
    ensures memory { result ≡ Err NoMemory → (length text.now ≤ 1000000) × HasToken text.now }
    ensures refused { IfErr result (λ fault. fault ≢ NoMemory → IsTextRefused text.now fault) }
    ensures first { (first : TextFault) → IsTextRefused text.now first → MatchResult result (λ read. ⊥) (λ fault. (fault ≡ first) ⊎ (fault ≡ NoMemory)) }
{
    let valued = valued_tokens(alloc, text)?;
    let tree = read_tree(alloc, text, &valued)?;
    let tokens = plain_tokens(alloc, &valued)?;
    Ok((tree, tokens))
}

// The tree of a text that these tokens spell.
fn read_tree(alloc: Global, text: &str, tokens: &[ValuedToken]) -> Result<Tree, TextFault>
    requires short { length text.now ≤ 1000000 }
    requires values { AreValues text.now tokens.now }
    ensures within { IfOk result (λ tree. IsWithinLimits text.now (tree_of tree)) }
    ensures refused { IfErr result (λ fault. fault ≢ NoMemory → IsTextRefused text.now fault) }
    ensures memory { result ≡ Err NoMemory → HasToken text.now }
{
    let parser = Parser {
        alloc,
        tokens,
        end: text.len(),
    };
    parser.program()
}

/// What was read, and the place of the token after it.
type Read<T> = Result<(T, usize), TextFault>;

/// Parses a program from a list of tokens. `at` is the place of the next token,
/// and `room` is how many brackets may still be opened.
#[derive(Clone, Copy)]
pub struct Parser<'a> {
    pub alloc: Global,
    pub tokens: &'a [ValuedToken<'a>],
    /// How many bytes the text has.
    pub end: usize,
}

impl Parser<'_> {
    #[tactic(auto, unfolding(crate::specs::prover::Reading::next_at))]
    fn next(&self, at: usize) -> Read<ValuedToken<'_>>
        ensures { GivesAlways (λ x. x) self.now.tokens.now result (next_at self.now.end (drop at self.now.tokens.now)) }
    {
        if at < self.tokens.len() {
            Ok((self.tokens[at], at + 1))
        } else {
            Err(TextFault::Unexpected(Span {
                start: self.end,
                end: self.end,
            }))
        }
    }

    // This terminal, of those that a rule has alone.
    #[tactic(auto, unfolding(crate::specs::prover::Reading::terminal_at))]
    fn terminal(&self, terminal: Terminal, at: usize) -> Read<()>
        ensures { GivesAlways (λ x. x) self.now.tokens.now result (terminal_at self.now.end terminal (drop at self.now.tokens.now)) }
    {
        let (token, at) = self.next(at)?;
        match (terminal, token.meaning) {
            (Terminal::Processes, Meaning::Terminal(Terminal::Processes))
            | (Terminal::Begin, Meaning::Terminal(Terminal::Begin))
            | (Terminal::Else, Meaning::Terminal(Terminal::Else))
            | (Terminal::Semicolon, Meaning::Terminal(Terminal::Semicolon))
            | (Terminal::Becomes, Meaning::Terminal(Terminal::Becomes))
            | (Terminal::Close, Meaning::Terminal(Terminal::Close)) => Ok(((), at)),
            _ => Err(TextFault::Unexpected(token.span)),
        }
    }

    // `{`, unless it is one too many.
    #[tactic(auto, unfolding(crate::specs::prover::Reading::brace_at))]
    fn brace(&self, room: usize, at: usize) -> Read<()>
        ensures { GivesAlways (λ x. x) self.now.tokens.now result (brace_at self.now.end room (drop at self.now.tokens.now)) }
    {
        let (token, at) = self.next(at)?;
        match token.meaning {
            Meaning::Terminal(Terminal::OpenBrace) => match room {
                0 => Err(TextFault::TooDeep(token.span)),
                _ => Ok(((), at)),
            },
            _ => Err(TextFault::Unexpected(token.span)),
        }
    }

    #[tactic(auto, unfolding(crate::specs::prover::Reading::operator_at))]
    fn operator(&self, at: usize) -> Read<Op>
        ensures { GivesAlways (λ x. x) self.now.tokens.now result (operator_at self.now.end (drop at self.now.tokens.now)) }
    {
        let (token, at) = self.next(at)?;
        match token.meaning {
            Meaning::Terminal(Terminal::Operator(op)) => Ok((op, at)),
            _ => Err(TextFault::Unexpected(token.span)),
        }
    }

    fn named(&self, letters: &str, span: Span) -> Result<Named, TextFault>
        ensures { IsOkUnlessMemory (λ x. name_of x ≡ record { letters = letters.now; span = span }) result }
    {
        let name = String::from_str(self.alloc, letters)?;
        Ok(Named { name, span })
    }

    #[tactic(auto, unfolding(crate::specs::prover::Reading::name_at))]
    fn name(&self, at: usize) -> Read<Named>
        ensures { Gives name_of self.now.tokens.now result (name_at self.now.end (drop at self.now.tokens.now)) }
    {
        let (token, at) = self.next(at)?;
        match token.meaning {
            Meaning::Name(letters) => Ok((self.named(letters, token.span)?, at)),
            _ => Err(TextFault::Unexpected(token.span)),
        }
    }

    #[tactic(auto, unfolding(crate::specs::prover::Reading::number_at))]
    fn number(&self, at: usize) -> Read<(u32, Span)>
        ensures { GivesAlways (λ x. (x.0, x.1)) self.now.tokens.now result (number_at self.now.end (drop at self.now.tokens.now)) }
    {
        let (token, at) = self.next(at)?;
        match token.meaning {
            Meaning::Number(value) => Ok(((value, token.span), at)),
            _ => Err(TextFault::Unexpected(token.span)),
        }
    }

    // An expression as a part of another one.
    #[cycle(expression)]
    fn boxed(&self, room: usize, at: usize) -> Read<Box<Expr>>
        ensures { Gives (λ b. expression_of b.value) self.now.tokens.now result (expression_at self.now.end room (drop at self.now.tokens.now)) }
    {
        let (value, at) = self.expression(room, at)?;
        Ok((Box::new(self.alloc, value)?, at))
    }

    // Two expressions about an operator, and the bracket that closes them.
    #[cycle(expression)]
    #[tactic(auto, unfolding(crate::specs::prover::Reading::pair_at))]
    fn pair(&self, room: usize, at: usize) -> Read<Expr>
        ensures { Gives expression_of self.now.tokens.now result (pair_at self.now.end (expression_at self.now.end room) (drop at self.now.tokens.now)) }
    {
        let (left, at) = self.boxed(room, at)?;
        let (op, at) = self.operator(at)?;
        let (right, at) = self.boxed(room, at)?;
        let (_, at) = self.terminal(Terminal::Close, at)?;
        Ok((Expr::Bin(left, op, right), at))
    }

    // What stands after the bracket at this place.
    #[cycle(expression)]
    #[tactic(auto, unfolding(crate::specs::prover::Reading::brackets_at, crate::specs::prover::Reading::expression_at))]
    fn brackets(&self, room: usize, span: Span, at: usize) -> Read<Expr>
        ensures { Gives expression_of self.now.tokens.now result (brackets_at self.now.end room span (drop at self.now.tokens.now)) }
    {
        match room {
            0 => Err(TextFault::TooDeep(span)),
            _ => self.pair(room - 1, at),
        }
    }

    #[cycle(expression)]
    #[tactic(auto, unfolding(crate::specs::prover::Reading::expression_at))]
    fn expression(&self, room: usize, at: usize) -> Read<Expr>
        ensures { Gives expression_of self.now.tokens.now result (expression_at self.now.end room (drop at self.now.tokens.now)) }
    {
        let (token, at) = self.next(at)?;
        match token.meaning {
            Meaning::Number(value) => Ok((Expr::Num(value), at)),
            Meaning::Name(letters) => Ok((Expr::Name(self.named(letters, token.span)?), at)),
            Meaning::Terminal(Terminal::Me) => Ok((Expr::Me, at)),
            Meaning::Terminal(Terminal::Count) => Ok((Expr::Count, at)),
            Meaning::Terminal(Terminal::Open) => self.brackets(room, token.span, at),
            _ => Err(TextFault::Unexpected(token.span)),
        }
    }

    // An expression and the `;` after it.
    #[tactic(auto, unfolding(crate::specs::prover::Reading::last_at))]
    fn last(&self, room: usize, at: usize) -> Read<Expr>
        ensures { Gives expression_of self.now.tokens.now result (last_at self.now.end room (drop at self.now.tokens.now)) }
    {
        let (value, at) = self.expression(room, at)?;
        let (_, at) = self.terminal(Terminal::Semicolon, at)?;
        Ok((value, at))
    }

    // The `;` after a statement of which all else was read.
    #[tactic(auto, unfolding(crate::specs::prover::Reading::ended_at))]
    fn ended(&self, statement: Stmt, at: usize) -> Read<Stmt>
        ensures { Gives statement_of self.now.tokens.now result (ended_at self.now.end (statement_of statement) (drop at self.now.tokens.now)) }
    {
        let (_, at) = self.terminal(Terminal::Semicolon, at)?;
        Ok((statement, at))
    }

    #[tactic(auto, unfolding(crate::specs::prover::Reading::named_last_at))]
    fn get(&self, room: usize, target: Named, at: usize) -> Read<Stmt>
        ensures { Gives statement_of self.now.tokens.now result (named_last_at self.now.end (get (name_of target)) room (drop at self.now.tokens.now)) }
    {
        let (register, at) = self.name(at)?;
        let (process, at) = self.last(room, at)?;
        Ok((Stmt::Get(target, register, process), at))
    }

    #[tactic(auto, unfolding(crate::specs::prover::Reading::named_last_at))]
    fn held(&self, room: usize, target: Named, at: usize) -> Read<Stmt>
        ensures { Gives statement_of self.now.tokens.now result (named_last_at self.now.end (held (name_of target)) room (drop at self.now.tokens.now)) }
    {
        let (scan, at) = self.name(at)?;
        let (process, at) = self.last(room, at)?;
        Ok((Stmt::Held(target, scan, process), at))
    }

    #[tactic(auto, unfolding(crate::specs::prover::Reading::copy_at))]
    fn copy(&self, target: Named, at: usize) -> Read<Stmt>
        ensures { Gives statement_of self.now.tokens.now result (copy_at self.now.end (name_of target) (drop at self.now.tokens.now)) }
    {
        let (source, at) = self.name(at)?;
        let (_, at) = self.terminal(Terminal::Semicolon, at)?;
        Ok((Stmt::Copy(target, source), at))
    }

    #[tactic(auto, unfolding(crate::specs::prover::Reading::older_at))]
    fn older(&self, room: usize, target: Named, at: usize) -> Read<Stmt>
        ensures { Gives statement_of self.now.tokens.now result (older_at self.now.end room (name_of target) (drop at self.now.tokens.now)) }
    {
        let (scan, at) = self.name(at)?;
        let (first, at) = self.expression(room, at)?;
        let (second, at) = self.last(room, at)?;
        Ok((Stmt::Older(target, scan, first, second), at))
    }

    #[tactic(auto, unfolding(crate::specs::prover::Reading::plain_at))]
    fn plain(&self, room: usize, target: Named, at: usize) -> Read<Stmt>
        ensures { Gives statement_of self.now.tokens.now result (plain_at self.now.end room (name_of target) (drop at self.now.tokens.now)) }
    {
        let (value, at) = self.last(room, at)?;
        Ok((Stmt::Assign(target, value), at))
    }

    // What stands after `=`.
    #[tactic(auto, unfolding(crate::specs::prover::Reading::right_at))]
    fn right(&self, room: usize, target: Named, at: usize) -> Read<Stmt>
        ensures { Gives statement_of self.now.tokens.now result (right_at self.now.end room (name_of target) (drop at self.now.tokens.now)) }
    {
        let (token, after) = self.next(at)?;
        match token.meaning {
            Meaning::Terminal(Terminal::Get) => self.get(room, target, after),
            Meaning::Terminal(Terminal::Held) => self.held(room, target, after),
            Meaning::Terminal(Terminal::Scan) => self.ended(Stmt::Scan(target), after),
            Meaning::Terminal(Terminal::Copy) => self.copy(target, after),
            Meaning::Terminal(Terminal::Older) => self.older(room, target, after),
            _ => self.plain(room, target, at),
        }
    }

    // What stands after the name that a statement begins with.
    #[tactic(auto, unfolding(crate::specs::prover::Reading::assignment_at))]
    fn assignment(&self, room: usize, target: Named, at: usize) -> Read<Stmt>
        ensures { Gives statement_of self.now.tokens.now result (assignment_at self.now.end room (name_of target) (drop at self.now.tokens.now)) }
    {
        let (_, at) = self.terminal(Terminal::Becomes, at)?;
        self.right(room, target, at)
    }

    #[tactic(auto, unfolding(crate::specs::prover::Reading::named_last_at))]
    fn put(&self, room: usize, at: usize) -> Read<Stmt>
        ensures { Gives statement_of self.now.tokens.now result (named_last_at self.now.end put room (drop at self.now.tokens.now)) }
    {
        let (register, at) = self.name(at)?;
        let (value, at) = self.last(room, at)?;
        Ok((Stmt::Put(register, value), at))
    }

    #[tactic(auto, unfolding(crate::specs::prover::Reading::out_at))]
    fn out(&self, room: usize, at: usize) -> Read<Stmt>
        ensures { Gives statement_of self.now.tokens.now result (out_at self.now.end room (drop at self.now.tokens.now)) }
    {
        let (value, at) = self.last(room, at)?;
        Ok((Stmt::Out(value), at))
    }

    // What stands after `if`.
    #[cycle(statement)]
    #[tactic(auto, unfolding(crate::specs::prover::Reading::branch_at))]
    fn branch(&self, room: usize, at: usize) -> Read<Stmt>
        ensures { Gives statement_of self.now.tokens.now result (branch_at self.now.end (block_at self.now.end room) room (drop at self.now.tokens.now)) }
    {
        let (value, at) = self.expression(room, at)?;
        let (first, at) = self.block(room, at)?;
        let (_, at) = self.terminal(Terminal::Else, at)?;
        let (second, at) = self.block(room, at)?;
        Ok((Stmt::If(value, first, second), at))
    }

    // What stands after `while`.
    #[cycle(statement)]
    #[tactic(auto, unfolding(crate::specs::prover::Reading::repeat_at))]
    fn repeat(&self, room: usize, at: usize) -> Read<Stmt>
        ensures { Gives statement_of self.now.tokens.now result (repeat_at self.now.end (block_at self.now.end room) room (drop at self.now.tokens.now)) }
    {
        let (value, at) = self.expression(room, at)?;
        let (body, at) = self.block(room, at)?;
        Ok((Stmt::While(value, body), at))
    }

    #[cycle(statement)]
    #[tactic(auto, unfolding(crate::specs::prover::Reading::statement_at, crate::specs::prover::Reading::statement_with))]
    fn statement(&self, room: usize, at: usize) -> Read<Stmt>
        ensures { Gives statement_of self.now.tokens.now result (statement_at self.now.end room (drop at self.now.tokens.now)) }
    {
        let (token, at) = self.next(at)?;
        self.statement_from(room, token, at)
    }

    // A statement from its first token on.
    #[cycle(statement)]
    fn statement_from(&self, room: usize, first: ValuedToken<'_>, at: usize) -> Read<Stmt>
        ensures { Gives statement_of self.now.tokens.now result (statement_by self.now.end first.entry.meaning first.entry.span (block_at self.now.end room) room (drop at self.now.tokens.now)) }
    {
        match first.meaning {
            Meaning::Name(letters) => self.assignment(room, self.named(letters, first.span)?, at),
            Meaning::Terminal(Terminal::Put) => self.put(room, at),
            Meaning::Terminal(Terminal::Stamp) => self.ended(Stmt::Stamp, at),
            Meaning::Terminal(Terminal::Clear) => self.ended(Stmt::Clear, at),
            Meaning::Terminal(Terminal::Out) => self.out(room, at),
            Meaning::Terminal(Terminal::If) => self.branch(room, at),
            Meaning::Terminal(Terminal::While) => self.repeat(room, at),
            _ => Err(TextFault::Unexpected(first.span)),
        }
    }

    // Statements, and the terminal that ends them.
    #[cycle(statement)]
    fn statements(&self, room: usize, ending: Ending, start: usize) -> Read<Vec<Stmt>>
        ensures { Gives (λ v. block_of v.items) self.now.tokens.now result (statements_at self.now.end room ending (drop start self.now.tokens.now)) }
    {
        let mut statements = Vec::new(self.alloc);
        let mut at = start;
        loop {
            let (token, after) = self.next(at)?;
            if ending.ends(token.meaning) {
                return Ok((statements, after));
            }
            let (statement, after) = self.statement(room, at)?;
            statements.push(statement)?;
            at = after;
        }
    }

    // A block in braces.
    #[cycle(statement)]
    #[tactic(auto, unfolding(crate::specs::prover::Reading::block_at, crate::specs::prover::Reading::statements_at, crate::specs::prover::Reading::statement_at))]
    fn block(&self, room: usize, at: usize) -> Read<Vec<Stmt>>
        ensures { Gives (λ v. block_of v.items) self.now.tokens.now result (block_at self.now.end room (drop at self.now.tokens.now)) }
    {
        let (_, at) = self.brace(room, at)?;
        match room {
            0 => Ok((Vec::new(self.alloc), at)),
            _ => self.statements(room - 1, Ending::Braces, at),
        }
    }

    // Names with a comma between two, and the `;` after them.
    fn names(&self, start: usize) -> Read<Vec<Named>>
        ensures { Gives (λ v. map name_of v.items) self.now.tokens.now result (names_at self.now.end (drop start self.now.tokens.now)) }
    {
        let mut names = Vec::new(self.alloc);
        let mut at = start;
        loop {
            let (name, after) = self.name(at)?;
            names.push(name)?;
            let (token, after) = self.next(after)?;
            match token.meaning {
                Meaning::Terminal(Terminal::Comma) => at = after,
                Meaning::Terminal(Terminal::Semicolon) => return Ok((names, after)),
                _ => return Err(TextFault::Unexpected(token.span)),
            }
        }
    }

    // A section of declarations, which may be left out.
    #[tactic(auto, unfolding(crate::specs::prover::Reading::section_at))]
    fn section(&self, section: Section, at: usize) -> Read<Vec<Named>>
        ensures { Gives (λ v. map name_of v.items) self.now.tokens.now result (section_at self.now.end section (drop at self.now.tokens.now)) }
    {
        let (token, after) = self.next(at)?;
        if section.begins(token.meaning) {
            self.names(after)
        } else {
            Ok((Vec::new(self.alloc), at))
        }
    }

    #[tactic(auto, unfolding(crate::specs::prover::Reading::body_at))]
    fn body(&self, room: usize, at: usize) -> Read<Vec<Stmt>>
        ensures { Gives (λ v. block_of v.items) self.now.tokens.now result (body_at self.now.end room (drop at self.now.tokens.now)) }
    {
        let (_, at) = self.terminal(Terminal::Begin, at)?;
        self.statements(room, Ending::Program, at)
    }

    // The sections and the body.
    #[tactic(auto, unfolding(crate::specs::prover::Reading::sections_at))]
    fn sections(&self, room: usize, processes: (u32, Span), at: usize) -> Read<Tree>
        ensures { Gives tree_of self.now.tokens.now result (sections_at self.now.end room (processes.0, processes.1) (drop at self.now.tokens.now)) }
    {
        let (variables, at) = self.section(Section::Variables, at)?;
        let (scans, at) = self.section(Section::Scans, at)?;
        let (registers, at) = self.section(Section::Registers, at)?;
        let (body, at) = self.body(room, at)?;
        let tree = Tree {
            processes: processes.0,
            processes_span: processes.1,
            variables,
            scans,
            registers,
            body,
        };
        Ok((tree, at))
    }

    // What stands after `processes`.
    #[tactic(auto, unfolding(crate::specs::prover::Reading::headed_at))]
    fn headed(&self, room: usize, at: usize) -> Read<Tree>
        ensures { Gives tree_of self.now.tokens.now result (headed_at self.now.end room (drop at self.now.tokens.now)) }
    {
        let (processes, at) = self.number(at)?;
        let (_, at) = self.terminal(Terminal::Semicolon, at)?;
        self.sections(room, processes, at)
    }

    #[tactic(auto, using(crate::proofs::Loops::terminal_none), unfolding(crate::specs::prover::Reading::whole_at))]
    fn whole(&self, room: usize, at: usize) -> Read<Tree>
        ensures read { Gives tree_of self.now.tokens.now result (whole_at self.now.end room (drop at self.now.tokens.now)) }
        ensures none { drop at self.now.tokens.now ≡ [] → result ≡ Err (Unexpected (record { start = self.now.end; end = self.now.end })) }
    {
        let (_, at) = self.terminal(Terminal::Processes, at)?;
        self.headed(room, at)
    }

    /// Reads a program of all the tokens.
    #[tactic(auto, unfolding(crate::specs::prover::Reading::program_at))]
    pub fn program(&self) -> Result<Tree, TextFault>
        ensures read { GivesWhole tree_of result (program_at self.now.end 64 self.now.tokens.now) }
        ensures none { self.now.tokens.now ≡ [] → result ≡ Err (Unexpected (record { start = self.now.end; end = self.now.end })) }
    {
        let (tree, at) = self.whole(64, 0)?;
        match self.tokens.get(at) {
            None => Ok(tree),
            Some(token) => Err(TextFault::Unexpected(token.span)),
        }
    }
}
