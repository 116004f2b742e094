//! Tests of `link_db_buckets`, beside which none stand: a crate with tests is proved twice.
#![tactic(auto)]

#[cfg(test)]
mod buckets;
