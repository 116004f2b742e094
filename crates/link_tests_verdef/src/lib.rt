//! Tests of `link_verdef`, beside which none stand: a crate with tests is proved twice.
#![tactic(auto)]

#[cfg(test)]
mod verdef;
