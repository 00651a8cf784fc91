// The constants of the sheet: each is written as the Rust's `write_constant_expr` writes it, and test 13 says whether it fits.
// Both are given the constant that was taken from its record, once tests 8 to 11 of the record are passed, and its body, where the
// parts of a Compose stand; no type entry is declared here.
#![tactic(auto)]

mod composites;
pub mod expressions;
pub mod fitness;
