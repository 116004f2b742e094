//! Tests of `link_resolve_reasons`, beside which none stand: a crate with tests is proved twice.
#![tactic(auto)]

#[cfg(test)]
mod why;
