//! The values of declarations: their headers, and the rules on them.
//!
//! The definitions stand in specs/: which header a declaration has (`Records`, `Headers`), which declaration waits for
//! which (`Waiting`), which rules the declarations of a package break (`Rules`), and which types contain themselves
//! (`ByValue`). A law is the contract of a function that does nothing. There is no other code: go_decl and go_by_value
//! decide these.
#![tactic(auto)]

mod laws;

pub use laws::one_header;
