//! Tests of `link_manifest`, `link_manifest_json`, `link_manifest_bulk` and `link_report`, beside which none stand: a crate with tests is proved twice.
#![tactic(auto)]

#[cfg(test)]
mod bulk;
#[cfg(test)]
mod items;
#[cfg(test)]
mod manifest;
#[cfg(test)]
mod report;
