//! The top call: one run of the checker.
//!
//! `gocheck` reads the words of the command, loads the module below ROOT with the stub packages that it reaches
//! below ROOT2, checks it, and writes the text of its report to a sink; its answer is the status that the run
//! ends with.
#![tactic(auto)]

mod laws;
mod run;
mod words;

pub use laws::one_run;
pub use run::gocheck;

#[cfg(test)]
mod tests;
