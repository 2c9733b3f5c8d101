ghost use Rattle.std.specs.Prelude.{◌≡◌, ◌↔◌, true, IsOk};

use std::fmt::Debug;
use std::test::Fail;

/// What is true of a row, by what names the row.
pub fn holds<T: Debug + Copy>(holds: bool, row: T) -> Result<(), Fail>
    ensures { IsOk result ↔ (holds ≡ true) }
{
    if holds {
        Ok(())
    } else {
        Err(Fail::new(format_args!("not so: {row:?}")))
    }
}

/// That this was found.
pub fn is_same<T: PartialEq + Debug>(found: &T, wanted: &T) -> Result<(), Fail>
    ensures { IsOk result ↔ (T.eq found.now wanted.now ≡ true) }
{
    if *found == *wanted {
        Ok(())
    } else {
        Err(Fail::new(format_args!("found {found:?}, wanted {wanted:?}")))
    }
}
