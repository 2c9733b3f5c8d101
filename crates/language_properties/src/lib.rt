//! `language_properties` has what may be asked of a state of a program: properties.
//!
//! A `Property` is an expression over what all can see: register rows, tickets, and which processes have
//! ended or trapped. `Property::value` gives its value in a state that is `Visible`. `specs/Values.antt` says what
//! a property means, and `specs/Seen.antt` what is seen of a program on tickets.
//! Start with `Property`.
#![tactic(auto)]

mod asks;
pub mod laws;
mod property;
mod value;
mod visible;

pub use asks::Part;
pub use base::{Op, Status, Trap};
pub use property::{Junction, Property, Quantifier, Question};
pub use visible::Visible;
