// From the text of a question to its property: a descent by the grammar, one method for each of its rules. No tokens
// are kept, since each place has its own.
ghost use Rattle.std.specs.Prelude.{◌≡◌, [], IfErr, IfOk};
ghost use Rattle.language_properties.specs.Properties.{formula_of};
ghost use Rattle.language_questions.specs.Names.{names_of};
ghost use Rattle.language_questions.specs.Reading.{Gives, GivesAlways, asked_with, brackets_with, joins, level, link_with, may_be_process, named_with, new_name_at, older_with, operand_with, over_with, process_by, process_with, property_with, rest_with, row_at, sign_at, whole_from};
ghost use Rattle.language_questions.specs.declared.fault.QuestionFault.TheVariants.{NoMemory};
ghost use Rattle.language_questions.specs.prover.Letters.{IsLetters};

use crate::fault::{Missing, QuestionFault};
use crate::scope::{MOST_BOUND, Scope};
use crate::token::{Meaning, Sign, Word};
use base::span::Span;
use language_properties::{Junction, Property, Quantifier, Question};
use std::alloc::Global;
use tick_kinds::{Kind, Program};

/// How many levels a question may have.
const MOST_LEVELS: usize = 64;

/// What was read, and the place after it.
pub type Read<T> = Result<(T, usize), QuestionFault>;

type Pair = (Box<Property>, Box<Property>);

/// Reads a question from a text. `at` is the place of the next token, and `room` is how many levels there may
/// still be.
#[derive(Clone, Copy)]
pub struct Reader<'a> {
    pub alloc: Global,
    pub program: &'a Program,
    pub text: &'a [u8],
}

impl<'a> Reader<'a> {
    // This sign, of those that a rule wants.
    #[tactic(auto, unfolding(crate::specs::Reading::sign_at))]
    fn sign(&self, wanted: Sign, at: usize) -> Result<Span, QuestionFault>
        ensures { result ≡ sign_at self.now.program.now self.now.text.now wanted at }
    {
        let token = self.token(at);
        match (wanted, token.meaning) {
            (Sign::Close, Meaning::Sign(Sign::Close))
            | (Sign::OpenIndex, Meaning::Sign(Sign::OpenIndex))
            | (Sign::CloseIndex, Meaning::Sign(Sign::CloseIndex))
            | (Sign::Comma, Meaning::Sign(Sign::Comma))
            | (Sign::Colon, Meaning::Sign(Sign::Colon)) => Ok(token.span),
            _ => Err(token.wrong(Missing::Sign(wanted))),
        }
    }

    // The row of the name that stands here.
    #[tactic(auto, unfolding(crate::specs::Reading::row_at))]
    fn row(&self, span: Span) -> Result<u8, QuestionFault>
        requires { IsLetters self.now.text.now span }
        ensures { result ≡ row_at self.now.program.now self.now.text.now span }
    {
        match self.program.kind(self.letters(span)) {
            None => Err(QuestionFault::Unknown(span)),
            Some((Kind::Register, row)) => Ok(row),
            Some(_) => Err(QuestionFault::NotShared(span)),
        }
    }

    // A name that means nothing yet.
    #[tactic(auto, unfolding(crate::specs::Reading::new_name_at))]
    fn new_name(&self, scope: &Scope<'a>, at: usize) -> Read<&'a str>
        ensures { GivesAlways (λ name. name.now) result (new_name_at self.now.program.now self.now.text.now (names_of scope.now) at) }
    {
        let token = self.token(at);
        match token.meaning {
            Meaning::Name => {
                let letters = self.letters(token.span);
                if scope.number(letters).is_some() || self.is_row(letters) {
                    return Err(QuestionFault::Twice(token.span));
                }
                Ok((letters, token.span.end))
            }
            _ => Err(token.wrong(Missing::Name)),
        }
    }

    // A part of a property.
    fn boxed(&self, value: Property) -> Result<Box<Property>, QuestionFault>
        ensures part { IfOk result (λ part. formula_of part.value ≡ formula_of value) }
        ensures fault { IfErr result (λ fault. fault ≡ NoMemory) }
    {
        Ok(Box::new(self.alloc, value)?)
    }

    // The two parts of a property.
    fn pair(&self, first: Property, second: Property) -> Result<Pair, QuestionFault>
        ensures first { IfOk result (λ pair. formula_of pair.0.value ≡ formula_of first) }
        ensures second { IfOk result (λ pair. formula_of pair.1.value ≡ formula_of second) }
        ensures fault { IfErr result (λ fault. fault ≡ NoMemory) }
    {
        let first = self.boxed(first)?;
        let second = self.boxed(second)?;
        Ok((first, second))
    }

    // What was read from a place on, up to another, as a process.
    #[tactic(auto, unfolding(crate::specs::Reading::process_by))]
    fn process_from(&self, from: usize, value: Property, at: usize) -> Read<Property>
        ensures { GivesAlways formula_of result (process_by self.now.program.now self.now.text.now from (formula_of value) at) }
    {
        if may_be_process(self.program.processes(), &value) {
            return Ok((value, at));
        }
        let start = self.token(from).span.start;
        Err(QuestionFault::NoSuchProcess(Span { start, end: at }))
    }

    // What stands for a process.
    #[cycle(property)]
    #[tactic(auto, unfolding(crate::specs::Reading::process_with))]
    fn process(&self, room: usize, span: Span, scope: &Scope<'a>, at: usize) -> Read<Property>
        ensures { Gives formula_of result (process_with self.now.program.now self.now.text.now (level self.now.program.now self.now.text.now room) span (names_of scope.now) at) }
    {
        let (value, after) = self.inside(room, span, scope, at)?;
        self.process_from(at, value, after)
    }

    // What is asked of the process in brackets.
    #[cycle(property)]
    #[tactic(auto, unfolding(crate::specs::Reading::asked_with))]
    fn asked(&self, room: usize, question: Question, scope: &Scope<'a>, at: usize) -> Read<Property>
        ensures { Gives formula_of result (asked_with self.now.program.now self.now.text.now (level self.now.program.now self.now.text.now room) question (names_of scope.now) at) }
    {
        let opening = self.sign(Sign::OpenIndex, at)?;
        let (process, at) = self.process(room, opening, scope, opening.end)?;
        let closing = self.sign(Sign::CloseIndex, at)?;
        let process = self.boxed(process)?;
        Ok((Property::Of(question, process), closing.end))
    }

    // The two processes of `older`.
    #[cycle(property)]
    #[tactic(auto, unfolding(crate::specs::Reading::older_with))]
    fn older(&self, room: usize, scope: &Scope<'a>, at: usize) -> Read<Property>
        ensures { Gives formula_of result (older_with self.now.program.now self.now.text.now (level self.now.program.now self.now.text.now room) (names_of scope.now) at) }
    {
        let opening = self.sign(Sign::OpenIndex, at)?;
        let (first, at) = self.process(room, opening, scope, opening.end)?;
        let comma = self.sign(Sign::Comma, at)?;
        let (second, at) = self.process(room, comma, scope, comma.end)?;
        let closing = self.sign(Sign::CloseIndex, at)?;
        let (first, second) = self.pair(first, second)?;
        Ok((Property::Older(first, second), closing.end))
    }

    // A property, and the bracket that closes it.
    #[cycle(property)]
    #[tactic(auto, unfolding(crate::specs::Reading::brackets_with))]
    fn brackets(&self, room: usize, span: Span, scope: &Scope<'a>, at: usize) -> Read<Property>
        ensures { Gives formula_of result (brackets_with self.now.program.now self.now.text.now (level self.now.program.now self.now.text.now room) span (names_of scope.now) at) }
    {
        let (value, at) = self.inside(room, span, scope, at)?;
        let closing = self.sign(Sign::Close, at)?;
        Ok((value, closing.end))
    }

    // What begins with a name.
    #[cycle(property)]
    #[tactic(auto, unfolding(crate::specs::Reading::named_with))]
    fn named(&self, room: usize, scope: &Scope<'a>, span: Span) -> Read<Property>
        requires { IsLetters self.now.text.now span }
        ensures { Gives formula_of result (named_with self.now.program.now self.now.text.now (level self.now.program.now self.now.text.now room) (names_of scope.now) span) }
    {
        match scope.number(self.letters(span)) {
            Some(number) => Ok((Property::Bound(number), span.end)),
            None => {
                let row = self.row(span)?;
                self.asked(room, Question::Row(usize::from(row)), scope, span.end)
            }
        }
    }

    #[cycle(property)]
    #[tactic(auto, unfolding(crate::specs::Reading::operand_with))]
    fn operand(&self, room: usize, scope: &Scope<'a>, at: usize) -> Read<Property>
        ensures { Gives formula_of result (operand_with self.now.program.now self.now.text.now (level self.now.program.now self.now.text.now room) (names_of scope.now) at) }
    {
        let token = self.token(at);
        let end = token.span.end;
        match token.meaning {
            Meaning::Number(number) => Ok((Property::Number(number), end)),
            Meaning::Word(Word::Count) => Ok((Property::Count, end)),
            Meaning::Name => self.named(room, scope, token.span),
            Meaning::Word(Word::Held) => self.asked(room, Question::Held, scope, end),
            Meaning::Word(Word::Ended) => self.asked(room, Question::Ended, scope, end),
            Meaning::Word(Word::Trapped) => self.asked(room, Question::Trapped, scope, end),
            Meaning::Word(Word::Older) => self.older(room, scope, end),
            Meaning::Sign(Sign::Open) => self.brackets(room, token.span, scope, end),
            _ => Err(token.wrong(Missing::Operand)),
        }
    }

    // An operand, and those that this junction joins to it.
    #[cycle(property)]
    #[tactic(auto, unfolding(crate::specs::Reading::link_with))]
    fn link(&self, room: usize, by: Junction, scope: &Scope<'a>, at: usize) -> Read<Property>
        ensures { Gives formula_of result (link_with self.now.program.now self.now.text.now (level self.now.program.now self.now.text.now room) by (names_of scope.now) at) }
    {
        let (first, at) = self.operand(room, scope, at)?;
        let token = self.token(at);
        if !joins(by, token.meaning) {
            return Ok((first, at));
        }
        let (rest, at) = self.chain(room, by, scope, token.span, token.span.end)?;
        let (first, rest) = self.pair(first, rest)?;
        Ok((Property::Joined(first, by, rest), at))
    }

    // The operands after a junction at a span, one level deeper.
    #[cycle(property)]
    #[tactic(auto, unfolding(crate::specs::Reading::level))]
    fn chain(
        &self,
        room: usize,
        by: Junction,
        scope: &Scope<'a>,
        span: Span,
        at: usize,
    ) -> Read<Property>
        ensures { Gives formula_of result ((level self.now.program.now self.now.text.now room).chain by (names_of scope.now) span at) }
    {
        match room {
            0 => Err(QuestionFault::TooDeep(span)),
            _ => self.link(room - 1, by, scope, at),
        }
    }

    // What stands after an operand that is all so far.
    #[cycle(property)]
    #[tactic(auto, unfolding(crate::specs::Reading::rest_with))]
    fn rest(&self, room: usize, scope: &Scope<'a>, left: Property, at: usize) -> Read<Property>
        ensures { Gives formula_of result (rest_with self.now.program.now self.now.text.now (level self.now.program.now self.now.text.now room) (names_of scope.now) (formula_of left) at) }
    {
        let token = self.token(at);
        match token.meaning {
            Meaning::Sign(Sign::Operator(op)) => {
                let (right, at) = self.operand(room, scope, token.span.end)?;
                let (left, right) = self.pair(left, right)?;
                Ok((Property::Binary(left, op, right), at))
            }
            Meaning::Word(Word::Joins(by)) => {
                let (right, at) = self.chain(room, by, scope, token.span, token.span.end)?;
                let (left, right) = self.pair(left, right)?;
                Ok((Property::Joined(left, by, right), at))
            }
            _ => Ok((left, at)),
        }
    }

    // What a quantifier at a span goes on with.
    #[cycle(property)]
    #[tactic(auto, unfolding(crate::specs::Reading::over_with))]
    fn over(
        &self,
        room: usize,
        quantifier: Quantifier,
        scope: &Scope<'a>,
        span: Span,
    ) -> Read<Property>
        ensures { Gives formula_of result (over_with self.now.program.now self.now.text.now (level self.now.program.now self.now.text.now room) quantifier (names_of scope.now) span) }
    {
        let number = scope.len();
        if number >= MOST_BOUND {
            return Err(QuestionFault::TooDeep(span));
        }
        let (name, at) = self.new_name(scope, span.end)?;
        let colon = self.sign(Sign::Colon, at)?;
        let inner = scope.with(name);
        let (body, at) = self.inside(room, colon, &inner, colon.end)?;
        let body = self.boxed(body)?;
        Ok((Property::Over(quantifier, number, body), at))
    }

    // A property, as far as it goes.
    #[cycle(property)]
    #[tactic(auto, unfolding(crate::specs::Reading::property_with))]
    fn property(&self, room: usize, scope: &Scope<'a>, at: usize) -> Read<Property>
        ensures { Gives formula_of result (property_with self.now.program.now self.now.text.now (level self.now.program.now self.now.text.now room) (names_of scope.now) at) }
    {
        let token = self.token(at);
        match token.meaning {
            Meaning::Word(Word::Over(quantifier)) => {
                self.over(room, quantifier, scope, token.span)
            }
            Meaning::Word(Word::Not) => {
                let (value, at) = self.operand(room, scope, token.span.end)?;
                Ok((Property::Not(self.boxed(value)?), at))
            }
            _ => {
                let (left, at) = self.operand(room, scope, at)?;
                self.rest(room, scope, left, at)
            }
        }
    }

    // A property one level deeper, which something at a span opens.
    #[cycle(property)]
    #[tactic(auto, unfolding(crate::specs::Reading::level))]
    fn inside(&self, room: usize, span: Span, scope: &Scope<'a>, at: usize) -> Read<Property>
        ensures { Gives formula_of result ((level self.now.program.now self.now.text.now room).inside span (names_of scope.now) at) }
    {
        match room {
            0 => Err(QuestionFault::TooDeep(span)),
            _ => self.property(room - 1, scope, at),
        }
    }

    /// A property from a place on, and then the end of the question.
    #[tactic(auto, unfolding(crate::specs::Reading::whole_from))]
    pub fn whole(&self, at: usize) -> Read<Property>
        ensures { Gives formula_of result (whole_from self.now.program.now self.now.text.now at) }
    {
        let scope = Scope::new();
        let (property, at) = self.property(MOST_LEVELS, &scope, at)?;
        let token = self.token(at);
        match token.meaning {
            Meaning::End => Ok((property, at)),
            _ => Err(token.wrong(Missing::End)),
        }
    }
}

// Whether a property may stand for one of so many processes: a number has to be that of one.
fn may_be_process(n: u8, value: &Property) -> bool
    ensures { result ≡ may_be_process n (formula_of value.now) }
{
    match value {
        Property::Number(number) => *number < u32::from(n),
        _ => true,
    }
}

// Whether a token joins operands so.
fn joins(by: Junction, meaning: Meaning) -> bool
    ensures { result ≡ joins by meaning }
{
    matches!(
        (by, meaning),
        (Junction::And, Meaning::Word(Word::Joins(Junction::And)))
            | (Junction::Or, Meaning::Word(Word::Joins(Junction::Or)))
    )
}
