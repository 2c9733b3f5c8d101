//! Whether the outputs of the host have colours.
use std::env::{Env, FillError};
use std::io::IsTerminal;
use ticklab_answers::Colours;

/// A terminal has colours, unless `NO_COLOR` stands for some text. (This takes no memory.)
pub fn colours_of(rt: &HostRuntime) -> Colours {
    let are_wanted = match rt.var("NO_COLOR", &mut [0; 1]) {
        Ok(length) => length == 0,
        Err(FillError::NotPresent) => true,
        Err(FillError::TooLong) => false,
    };
    Colours {
        out: are_wanted && rt.stdout().is_terminal(),
        err: are_wanted && rt.stderr().is_terminal(),
    }
}
