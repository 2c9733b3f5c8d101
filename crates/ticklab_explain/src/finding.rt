// What a report rests on: the tokens of its text, and what is wanted at its place.
ghost use Rattle.std.specs.Prelude.{◌≡◌, IfOk};
ghost use Rattle.ticklab_explain.specs.Reports.{AreWanted, choices_at};
ghost use Rattle.ticklab_explain.specs.Settings.{AreTokens, setting};

use crate::expected::fitting_at;
use crate::scene::Scene;
use crate::wanted::{Wanted, choices};
use base::NoMemory;
use std::alloc::Global;
use std::str;
use tick_syntax::token::Token;
use tick_syntax::{TextFault, tokens};
use ticketc_refusals::Refusal;

/// The tokens of an input; none where none spell it.
pub fn tokens_of(alloc: Global, input: &[u8]) -> Result<Vec<Token>, NoMemory>
    ensures { IfOk result (λ tokens. AreTokens input.now tokens.items) }
{
    let Ok(text) = str::from_utf8(input) else {
        return Ok(Vec::new(alloc));
    };
    match tokens(alloc, text) {
        Ok(tokens) => Ok(tokens),
        Err(TextFault::NoMemory) => Err(NoMemory),
        Err(_) => Ok(Vec::new(alloc)),
    }
}

/// What is wanted at the place of a refusal, where no program goes on.
pub fn wanted_at(alloc: Global, scene: &Scene, refusal: Refusal) -> Result<Vec<Wanted>, NoMemory>
    ensures { IfOk result (λ wanted. AreWanted (setting scene.now) refusal wanted.items) }
{
    fitting_at(
        alloc,
        scene.text,
        scene.span.start,
        choices_at(scene, refusal),
    )
}

fn choices_at(scene: &Scene, refusal: Refusal) -> &'static [Wanted]
    ensures { result.now ≡ choices_at (setting scene.now) refusal }
{
    match refusal {
        Refusal::Text(TextFault::Unexpected(_)) => choices(scene.before(1)),
        Refusal::Text(
            TextFault::TextTooLong
            | TextFault::BadCharacter(_)
            | TextFault::NumberTooBig(_)
            | TextFault::NameTooLong(_)
            | TextFault::TooDeep(_),
        )
        | Refusal::Text(TextFault::NoMemory)
        | Refusal::Kinds(_)
        | Refusal::Code(_)
        | Refusal::Schedule(_) => &[],
    }
}
