//! Tests of the rulebook of go_check, and of go_decl's elaboration and go_ops' operators by it; no other code.
#![tactic(auto)]

#[cfg(test)]
mod fit_rows;
#[cfg(test)]
mod operator_rows;
#[cfg(test)]
mod operator_tokens;
#[cfg(test)]
mod operators;
#[cfg(test)]
mod tests;
