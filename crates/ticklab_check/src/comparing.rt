// Whether what is found is what was expected.
ghost use Rattle.std.specs.Prelude.{◌≡◌};
ghost use Rattle.ticklab_check.specs.Checking.{expected_of};
ghost use Rattle.ticklab_check.specs.Comparing.{compared, comparison_of};

use crate::checked::{Checked, Comparison};
use crate::found::Found;
use language_questions::Expected;

/// What is expected of a file that says this of it.
pub fn expected_of(said: Option<Expected>) -> Expected
    ensures { result ≡ expected_of said }
{
    match said {
        Some(expected) => expected,
        None => Expected::Safe,
    }
}

/// How this compares with what was expected.
pub fn compared(found: Found, expected: Expected) -> Comparison
    ensures { result ≡ compared found expected }
{
    match (found, expected) {
        (Found::Limit { .. }, _) => Comparison::Limit,
        (Found::Safe { .. }, Expected::Safe)
        | (Found::Ends { .. }, Expected::Safe)
        | (Found::Trap, Expected::Trap)
        | (Found::Never, Expected::Never)
        | (Found::Stuck { .. }, Expected::Stuck)
        | (Found::Endless { .. }, Expected::Stuck)
        | (Found::NotWaitFree { .. }, Expected::NotWaitFree)
        | (Found::NotAlone { .. }, Expected::NotAlone) => Comparison::AsExpected,
        _ => Comparison::Otherwise,
    }
}

pub fn comparison_of(checked: &Checked) -> Comparison
    ensures { result ≡ comparison_of checked.now }
{
    match checked {
        Checked::Refused(_) => Comparison::Otherwise,
        Checked::Searched {
            found,
            expected,
            ..
        } => compared(*found, *expected),
    }
}
