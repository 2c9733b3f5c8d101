ghost use Rattle.std.specs.Prelude.{◌≡◌, ◌<◌, ◌≤◌, ◌+◌, String, cond, map, length, IfOk, OnOk, string_eq};
ghost use Rattle.std.specs.Global.{Global};
ghost use Rattle.std.specs.List.{All, Contains, count_by, dedup, sum_by};
ghost use Rattle.searches_hunt.specs.Tallies.{AreDistinct, AreCommonestFirst, AreTiesInOrder};
ghost use Rattle.searches_hunt.specs.prover.Counting.{with_text};
ghost use Rattle.searches_hunt.specs.Times.{times_of};

use std::alloc::{AllocError, Global};

/// An outcome as a text, and how many runs ended with it.
#[derive(PartialEq, Eq, Debug, Drop)]
pub struct Counted {
    pub times: u32,
    pub outcome: String,
}

// Counts one more text: with the last of those counted where it is the same, or by itself.
fn count(counts: &mut Vec<Counted>, text: String) -> Result<(), AllocError>
    requires { sum_by (λ c. c.times) counts.old.items < 4294967295 }
    ensures times { OnOk result (sum_by (λ c. c.times) counts.new.items ≡ sum_by (λ c. c.times) counts.old.items + 1) }
    ensures positive { All (λ c. 1 ≤ c.times) counts.old.items → OnOk result (All (λ c. 1 ≤ c.times) counts.new.items) }
    ensures counted { OnOk result ((t : String Global) → times_of t counts.new.items ≡ times_of t counts.old.items + cond (string_eq t text) 1 0) }
    ensures texts { OnOk result (map (λ c. c.outcome) counts.new.items ≡ with_text (map (λ c. c.outcome) counts.old.items) text) }
{
    if let Some(last) = counts.len().checked_sub(1) {
        if text == counts[last].outcome {
            counts[last].times += 1;
            return Ok(());
        }
    }
    counts.push(Counted {
        times: 1,
        outcome: text,
    })?;
    Ok(())
}

// How often each text stands in a list in which equal ones stand together.
fn count_equal(alloc: Global, texts: Vec<String>) -> Result<Vec<Counted>, AllocError>
    requires { length texts.items < 4294967296 }
    ensures times { IfOk result (λ counts. sum_by (λ c. c.times) counts.items ≡ length texts.items) }
    ensures positive { IfOk result (λ counts. All (λ c. 1 ≤ c.times) counts.items) }
    ensures counted { IfOk result (λ counts. (t : String Global) → times_of t counts.items ≡ count_by (string_eq t) texts.items) }
    ensures texts { IfOk result (λ counts. map (λ c. c.outcome) counts.items ≡ dedup string_eq texts.items) }
{
    let mut counts = Vec::new(alloc);
    for text in texts {
        count(&mut counts, text)?;
    }
    Ok(counts)
}

/// How often each text stands in a list: the commonest first, and those that stand there equally often in
/// order of the texts.
pub fn count_texts(alloc: Global, mut texts: Vec<String>) -> Result<Vec<Counted>, AllocError>
    requires { length texts.items < 4294967296 }
    ensures times { IfOk result (λ counts. sum_by (λ c. c.times) counts.items ≡ length texts.items) }
    ensures each { IfOk result (λ counts. All (λ c. Contains texts.items c.outcome) counts.items) }
    ensures positive { IfOk result (λ counts. All (λ c. 1 ≤ c.times) counts.items) }
    ensures counted { IfOk result (λ counts. (t : String Global) → times_of t counts.items ≡ count_by (string_eq t) texts.items) }
    ensures distinct { IfOk result (λ counts. AreDistinct counts.items) }
    ensures commonest_first { IfOk result (λ counts. AreCommonestFirst counts.items) }
    ensures ties { IfOk result (λ counts. AreTiesInOrder counts.items) }
{
    texts.sort()?;
    let mut counts = count_equal(alloc, texts)?;
    counts.sort_by_key(|c| !c.times)?;
    Ok(counts)
}
