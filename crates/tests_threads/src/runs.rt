//! Tests of runs on threads: that workers run at the same time, each in its way, when gates are called, and that a run with
//! a refused thread says so.

mod before_steps;
mod coming_back;
mod gates;
mod held;
mod overlap;
mod refused;
mod running;
mod together;
