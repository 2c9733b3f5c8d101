// How often each outcome comes where a code runs on threads many times.
//
// A `Runner` makes the runs, so no thread is started here. `running` has them made, and `counting` counts
// equal outcomes. `specs/Tallies.antt` says what is counted.

mod counting;
mod running;

pub use counting::Counted;
pub use running::tally;
