//! Tests of labels, words and tickets against a second implementation of their definitions, which keeps a
//! label as a row of digits and uses no contracts.

mod comparing;
mod plain;
mod walking;
