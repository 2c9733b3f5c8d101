// What the lines of a file ask.
ghost use Rattle.std.specs.Prelude.{◌≡◌, ◌≢◌, ◌≤◌, IfErr, IfOk, Ok, Err, length, take};
ghost use Rattle.base.specs.Refusing.{GivesBut};
ghost use Rattle.language_questions.specs.Lines.{asked_of, conditioned_at, each_from, ended_at, ends_from, expected_from, listed_from, listed_with, questions_in, with_comment, with_directive, with_ends, with_expected, with_line, with_never};
ghost use Rattle.language_questions.specs.Missed.{unless_missed};
ghost use Rattle.language_questions.specs.Reading.{is_memory};
ghost use Rattle.language_questions.specs.declared.fault.QuestionFault.TheVariants.{NoMemory};

use crate::extents::Extent;
use crate::fault::{Missing, QuestionFault};
use crate::questions::{Condition, Ends, EndsLine, EndsLines, Expected, NeverLine, Questions};
use crate::reader::Reader;
use crate::spelled::{Directive, condition_of, directive_of, expected_of};
use crate::token::Meaning;
use base::set_at;
use base::span::Span;
use std::alloc::Global;
use tick_kinds::Program;

/// What the lines of a file ask of its program, or the first fault. Spans are in bytes of the file. A line asks
/// something if its comment begins with `#!`. No other comment may look like one that asks.
#[tactic(auto, unfolding(crate::specs::Lines::questions_in))]
pub fn questions_of(
    alloc: Global,
    program: &Program,
    text: &str,
) -> Result<Questions, QuestionFault>
    ensures questions { IfOk result (λ questions. questions_in program.now text.now ≡ Ok (asked_of questions)) }
    ensures fault { IfErr result (λ fault. fault ≢ NoMemory → questions_in program.now text.now ≡ Err fault) }
{
    let bytes = text.as_bytes();
    let mut found = Questions {
        never: Vec::new(alloc),
        ends: EndsLines {
            fair: None,
            wait_free: None,
            alone: None,
        },
        expected: None,
    };
    let mut start = 0;
    for (place, byte) in bytes.iter().enumerate() {
        if *byte == b'\n' {
            read_line(alloc, program, &bytes[..place], start, &mut found)?;
            start = place + 1;
        }
    }
    read_line(alloc, program, &bytes[..bytes.len()], start, &mut found)?;
    Ok(found)
}

// Adds what the line from a place on asks, with which the text ends.
fn read_line(
    alloc: Global,
    program: &Program,
    text: &[u8],
    start: usize,
    found: &mut Questions,
) -> Result<(), QuestionFault>
    requires { start ≤ length text.now }
    ensures { GivesBut is_memory (λ _. asked_of found.new) result (with_line program.now text.now (asked_of found.old) start) }
{
    let reader = Reader {
        alloc,
        program,
        text,
    };
    reader.line(start, found)
}

impl Reader<'_> {
    fn line(&self, start: usize, found: &mut Questions) -> Result<(), QuestionFault>
        requires { start ≤ length self.now.text.now }
        ensures { GivesBut is_memory (λ _. asked_of found.new) result (with_line self.now.program.now self.now.text.now (asked_of found.old) start) }
    {
        let at = Extent::Code.end(self.text, start);
        self.comment(at, found)
    }

    // Adds what the comment asks that begins at a place, if it asks something.
    #[tactic(auto, unfolding(crate::specs::Lines::with_comment))]
    fn comment(&self, at: usize, found: &mut Questions) -> Result<(), QuestionFault>
        requires { at ≤ length self.now.text.now }
        ensures { GivesBut is_memory (λ _. asked_of found.new) result (with_comment self.now.program.now self.now.text.now (asked_of found.old) at) }
    {
        let rest = &self.text[at..];
        if rest.starts_with(b"#!") {
            self.directive(at + 2, found)?;
            return self.nothing_missed(Extent::Code.end(self.text, at + 2));
        }
        self.nothing_missed(at)
    }

    // A fault if the comment that begins at a place looks as if it asked something.
    fn nothing_missed(&self, at: usize) -> Result<(), QuestionFault>
        requires { at ≤ length self.now.text.now }
        ensures { result ≡ unless_missed self.now.text.now at tt }
    {
        match self.missed(at + 1) {
            Some(span) => Err(QuestionFault::NotAsked(span)),
            None => Ok(()),
        }
    }

    // Adds what stands after `#!`.
    #[tactic(auto, unfolding(crate::specs::Lines::with_directive))]
    fn directive(&self, at: usize, found: &mut Questions) -> Result<(), QuestionFault>
        requires { at ≤ length self.now.text.now }
        ensures { GivesBut is_memory (λ _. asked_of found.new) result (with_directive self.now.program.now self.now.text.now (asked_of found.old) at) }
    {
        let span = self.word_span(at);
        match directive_of(&self.text[span.start..span.end]) {
            None => Err(QuestionFault::NoSuchWord(span)),
            Some(Directive::Never) => self.never(span.end, found),
            Some(Directive::Ends) => self.ends(span, found),
            Some(Directive::Expect) => self.expect(span, found),
        }
    }

    // Adds the property that stands here.
    #[tactic(auto, unfolding(crate::specs::Lines::with_never))]
    fn never(&self, at: usize, found: &mut Questions) -> Result<(), QuestionFault>
        ensures { GivesBut is_memory (λ _. asked_of found.new) result (with_never self.now.program.now self.now.text.now (asked_of found.old) at) }
    {
        let (property, end) = self.whole(at)?;
        let start = self.token(at).span.start;
        let span = Span { start, end };
        found.never.push(NeverLine { property, span })?;
        Ok(())
    }

    // Adds who is asked by what stands after the word at this span.
    #[tactic(auto, unfolding(crate::specs::Lines::with_ends))]
    fn ends(&self, span: Span, found: &mut Questions) -> Result<(), QuestionFault>
        requires { span.end ≤ length self.now.text.now }
        ensures { GivesBut is_memory (λ _. asked_of found.new) result (with_ends self.now.program.now self.now.text.now (asked_of found.old) span) }
    {
        let line = self.ends_from(span.end)?;
        match found.ends.with(line) {
            None => Err(QuestionFault::EndsTwice(span)),
            Some(ends) => {
                found.ends = ends;
                Ok(())
            }
        }
    }

    // Who is asked by what stands here, and under which condition.
    #[tactic(auto, unfolding(crate::specs::Lines::ends_from))]
    fn ends_from(&self, at: usize) -> Result<EndsLine, QuestionFault>
        requires { at ≤ length self.now.text.now }
        ensures { result ≡ ends_from self.now.program.now self.now.text.now at }
    {
        let span = self.word_span(at);
        let letters = &self.text[span.start..span.end];
        if letters == b"all".as_slice() {
            return self.conditioned(Ends::All, span.end);
        }
        if letters == b"none".as_slice() {
            return self.conditioned(Ends::Nobody, span.end);
        }
        self.each(at)
    }

    // The condition under which these are asked, and the end of the question.
    #[tactic(auto, unfolding(crate::specs::Lines::conditioned_at))]
    fn conditioned(&self, asked: Ends, at: usize) -> Result<EndsLine, QuestionFault>
        requires { at ≤ length self.now.text.now }
        ensures { result ≡ conditioned_at self.now.program.now self.now.text.now asked at }
    {
        let span = self.word_span(at);
        match condition_of(&self.text[span.start..span.end]) {
            Some(condition) => {
                self.ended(Missing::LineEnd, EndsLine { asked, condition }, span.end)
            }
            None => {
                let condition = Condition::Fair;
                self.ended(Missing::Condition, EndsLine { asked, condition }, at)
            }
        }
    }

    // Adds what is expected by what stands after the word at this span.
    #[tactic(auto, unfolding(crate::specs::Lines::with_expected))]
    fn expect(&self, span: Span, found: &mut Questions) -> Result<(), QuestionFault>
        requires { span.end ≤ length self.now.text.now }
        ensures { GivesBut is_memory (λ _. asked_of found.new) result (with_expected self.now.program.now self.now.text.now (asked_of found.old) span) }
    {
        if found.expected.is_some() {
            return Err(QuestionFault::ExpectTwice(span));
        }
        let expected = self.expected_from(span.end)?;
        found.expected = Some(expected);
        Ok(())
    }

    // What is expected by what stands here.
    #[tactic(auto, unfolding(crate::specs::Lines::expected_from))]
    fn expected_from(&self, at: usize) -> Result<Expected, QuestionFault>
        requires { at ≤ length self.now.text.now }
        ensures { result ≡ expected_from self.now.program.now self.now.text.now at }
    {
        let span = self.word_span(at);
        match expected_of(&self.text[span.start..span.end]) {
            None => Err(QuestionFault::NotExpected(span)),
            Some(expected) => self.ended(Missing::LineEnd, expected, span.end),
        }
    }

    // The end of the question, after what is asked or expected, where this may stand.
    #[tactic(auto, unfolding(crate::specs::Lines::ended_at))]
    fn ended<T: Copy>(&self, missing: Missing, said: T, at: usize) -> Result<T, QuestionFault>
        ensures { result ≡ ended_at self.now.program.now self.now.text.now missing said at }
    {
        let token = self.token(at);
        match token.meaning {
            Meaning::End => Ok(said),
            _ => Err(token.wrong(missing)),
        }
    }

    // One number of a process or more.
    #[tactic(auto, unfolding(crate::specs::Lines::each_from))]
    fn each(&self, at: usize) -> Result<EndsLine, QuestionFault>
        requires { at ≤ length self.now.text.now }
        ensures { result ≡ each_from self.now.program.now self.now.text.now at }
    {
        let token = self.token(at);
        match token.meaning {
            Meaning::Number(_) => self.listed(6, [false; 6], at),
            _ => Err(token.wrong(Missing::Process)),
        }
    }

    // At most so many numbers of processes, after others.
    #[cycle(listed)]
    #[tactic(auto, unfolding(crate::specs::Lines::listed_from))]
    fn listed(&self, room: usize, marks: [bool; 6], at: usize) -> Result<EndsLine, QuestionFault>
        requires { at ≤ length self.now.text.now }
        ensures { result ≡ listed_from self.now.program.now self.now.text.now room marks at }
    {
        match room {
            0 => self.conditioned(Ends::Each(marks), at),
            _ => self.next_listed(room - 1, marks, at),
        }
    }

    // The next number, and at most so many after it.
    #[cycle(listed)]
    #[tactic(auto, unfolding(crate::specs::Lines::listed_with))]
    fn next_listed(
        &self,
        room: usize,
        marks: [bool; 6],
        at: usize,
    ) -> Result<EndsLine, QuestionFault>
        requires { at ≤ length self.now.text.now }
        ensures { result ≡ listed_with self.now.program.now self.now.text.now (listed_from self.now.program.now self.now.text.now room) marks at }
    {
        let asked = Ends::Each(marks);
        let span = self.word_span(at);
        if let Some(condition) = condition_of(&self.text[span.start..span.end]) {
            return self.ended(Missing::LineEnd, EndsLine { asked, condition }, span.end);
        }
        let token = self.token(at);
        match token.meaning {
            Meaning::Number(process) if process < u32::from(self.program.processes()) => {
                let mut more = marks;
                set_at(&mut more, process as usize, true);
                self.listed(room, more, token.span.end)
            }
            Meaning::Number(_) => Err(QuestionFault::NoSuchProcess(token.span)),
            Meaning::End => Ok(EndsLine {
                asked,
                condition: Condition::Fair,
            }),
            _ => Err(token.wrong(Missing::Process)),
        }
    }
}
