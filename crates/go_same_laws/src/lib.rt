//! Laws of type identity (Go specification, "Type identity"), and of what questions about types lack: functions that do
//! nothing, whose contracts are the laws.
#![tactic(auto)]

mod laws;

pub use laws::{
    identity_chains, identity_chains_without_unions, identity_is_decided_once,
    identity_is_reflexive, identity_is_symmetric, identity_stays, lacks_what_is_named,
};
