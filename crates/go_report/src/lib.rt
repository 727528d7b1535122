//! The report of a module: its lines, its status, and how it reads.
//!
//! The definitions stand in specs/: which report a module has (`Phases`, `Report`), the lines of an accepted package
//! (`PackageLines`, `Members`, `LineOrder`), where objects are declared (`Outline`), its status (`Status`) and how it
//! reads (`Text`). A law is the contract of a function that does nothing.
#![tactic(auto)]

// Laws.
mod laws;

// Reports.
mod declared_object;
mod lines;
mod report;

pub use declared_object::DeclaredObject;
pub use laws::{declared_everywhere, one_report};
pub use lines::{DefKind, Line, NamedObject, Records, What};
pub use report::{PackageReport, Report, Verdict};
