//! Tests of `link_claim`, `link_claim_pool` and `link_gc_marking`, beside which none stand: a crate with tests is proved twice.
#![tactic(auto)]

#[cfg(test)]
mod claim;
#[cfg(test)]
mod marking;
#[cfg(test)]
mod pool;
