// The tables of hints, and their reader.
ghost use Rattle.std.specs.Prelude.{◌≡◌, option_map};
ghost use Rattle.ticklab_explain.specs.Conditions.{first_fitting};
ghost use Rattle.ticklab_explain.specs.Rows.{help_of, rows_of};
ghost use Rattle.ticklab_explain.specs.Settings.{setting};

use crate::condition::{Condition, fit};
use crate::hint::Hint;
use crate::scene::Scene;
use crate::wanted::Wanted;

/// A row: conditions, and the hint where all of them hold.
pub type Rule = (&'static [Condition], Hint);

/// The hint of the first row whose conditions hold.
pub fn first_that_fits(scene: &Scene, wanted: &[Wanted], rules: &[Rule]) -> Option<Hint>
    ensures { option_map help_of result ≡ first_fitting (setting scene.now) wanted.now (rows_of rules.now) }
{
    for (conditions, hint) in rules {
        if fit(conditions, scene, wanted) {
            return Some(*hint);
        }
    }
    None
}

// Makes a table of hints. The conditions of a row stand in brackets in front of its hint. Where several pairs of
// brackets stand there, each makes a row with this hint.
macro_rules! rules {
    ($($([$($condition:ident $value:tt),*])+ => $hint:tt;)*) => {
        &[$($((
            &[$($crate::condition::one_condition!($condition $value)),*],
            $crate::hint::one_hint!($hint),
        )),+),*]
    };
}

pub(crate) use rules;
