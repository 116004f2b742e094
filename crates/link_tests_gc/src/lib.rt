//! Tests of `link_gc`, beside which none stand: a crate with tests is proved twice.
#![tactic(auto)]

#[cfg(test)]
mod meeting;
#[cfg(test)]
mod road;
