//! Tests of the texts of verdicts and faults. `./test` plays tests at the program. There is nothing here but tests.
#![tactic(auto)]

#[cfg(test)]
mod text_tests;
