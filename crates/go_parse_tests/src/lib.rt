//! Tests of the scanner and of the parser.
//!
//! They hold each public call of go_scan, go_parse_x and go_parse_s but the laws once, with ample memory, and what
//! a row of go_rows cannot say: an order of calls, a text that is made, a call after a fault. They are a crate of
//! their own, since a crate with tests is proved twice.
#![tactic(auto)]

#[cfg(test)]
mod cursor_tests;
#[cfg(test)]
mod file_tests;
#[cfg(test)]
mod literal_tests;
#[cfg(test)]
mod long_tests;
#[cfg(test)]
mod piece_tests;
#[cfg(test)]
mod scan_tests;
