//! Tests of `ticklab_explain` against the parser; whole reports are rows of `answers/`.
//!
//! A report says which tokens may stand at its place, and these are all that the parser takes there. To test
//! this, each token of the language is put after each token of a program, and the report is compared with
//! what the parser says. A call whose memory was refused is made once more.

use base::NoMemory;
use std::alloc::Global;
use std::str;
use std::test::Fail;
use tests_shared::holds;
use tick_syntax::{TextFault, parse, tokens};
use ticklab_explain::explain_program;

fn of_program(alloc: Global, name: &str, input: &[u8]) -> Result<Option<Vec<u8>>, NoMemory> {
    match explain_program(alloc, name, input) {
        Err(NoMemory) => explain_program(alloc, name, input),
        told => told,
    }
}

static TOKENS: [&str; 37] = [
    "x",
    "0",
    "processes",
    "var",
    "scan",
    "reg",
    "begin",
    "end",
    "get",
    "put",
    "stamp",
    "clear",
    "copy",
    "older",
    "held",
    "out",
    "if",
    "else",
    "while",
    "me",
    "n",
    ";",
    ",",
    "(",
    ")",
    "{",
    "}",
    "=",
    "+",
    "-",
    "*",
    "/",
    "%",
    "<",
    "<=",
    "==",
    "!=",
];

// The tokens that are told so.
fn told_as(words: &str) -> &'static [&'static str] {
    match words {
        "a statement" => &["x", "put", "stamp", "clear", "out", "if", "while"],
        "a value" => &[
            "x", "0", "me", "n", "(", "get", "scan", "copy", "older", "held",
        ],
        "an expression" => &["x", "0", "me", "n", "("],
        "an operator" => &["+", "-", "*", "/", "%", "<", "<=", "==", "!="],
        "a name" => &["x"],
        "a number" => &["0"],
        _ => &[],
    }
}

// Whether these words tell the token.
fn tells(words: &str, token: &str) -> bool {
    words
        .strip_prefix("`")
        .and_then(|rest| rest.strip_suffix("`"))
        == Some(token)
        || told_as(words).contains(&token)
}

// Whether a program goes on with the last token of the text, which begins at a byte.
fn goes_on(alloc: Global, text: &str, start: usize) -> Result<bool, Fail> {
    match parse(alloc, text) {
        Ok(_tree) => Ok(true),
        Err(TextFault::Unexpected(span)) => Ok(span.start > start),
        Err(fault) => Err(fault)?,
    }
}

fn with_token(alloc: Global, front: &str, token: &str) -> Result<String, Fail> {
    let mut text = String::from_str(alloc, front)?;
    text.push_str("\n")?;
    text.push_str(token)?;
    Ok(text)
}

// What is told to be expected where the token doesn't go on.
fn expected(report: &str) -> &str {
    match report.split_once("expected ") {
        Some((_, rest)) => match rest.split_once(", found ") {
            Some((words, _)) => words,
            None => "",
        },
        None => "",
    }
}

fn is_expected(words: &str, token: &str) -> bool {
    words
        .split(" or ")
        .any(|part| part.split(", ").any(|one| tells(one, token)))
}

fn whole_after(alloc: Global, front: &str, wrong: &str) -> Result<(), Fail> {
    let text = with_token(alloc, front, wrong)?;
    if goes_on(alloc, &text, front.len())? {
        return Ok(());
    }
    let Some(report) = of_program(alloc, "q", text.as_bytes())? else {
        return Err("it is accepted")?;
    };
    let words = expected(str::from_utf8(&report).unwrap_or(""));
    for token in TOKENS {
        let text = with_token(alloc, front, token)?;
        holds(
            goes_on(alloc, &text, front.len())? == is_expected(words, token),
            token,
        )?;
    }
    Ok(())
}

static PROGRAM: &str =
    "processes 3; var a, b; scan s, t; reg r; begin clear; a = (a + ((me * 2) - n)); b = get r me; put r (a / b); \
     s = scan; t = copy s; a = older s 0 (a % 2); b = held t n; out a; if (a < b) { if 1 { while a { } stamp; } \
     else { out (a == b); } } else { } while (a <= b) { a = 1; } stamp; end";

#[test]
fn all_that_is_expected(rt: HostRuntime) -> Result<(), Fail> {
    for token in tokens(rt.alloc(), PROGRAM)? {
        let front = PROGRAM.get(..token.span.end).ok_or("no front")?;
        for wrong in ["processes", ",", ";", "=", "0", "end"] {
            whole_after(rt.alloc(), front, wrong)?;
        }
    }
    Ok(())
}
