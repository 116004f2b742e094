//! Tests of `link_ids`, `link_flags`, `link_closure`, `link_input`, `link_input_groups`, `link_resolve_comdat`,
//! `link_resolve_rivals` and `link_resolve_files`, beside which none stand: a crate with tests is proved twice.
#![tactic(auto)]

#[cfg(test)]
mod closure;
#[cfg(test)]
mod comdat;
#[cfg(test)]
mod fixtures;
#[cfg(test)]
mod flags;
#[cfg(test)]
mod groups;
#[cfg(test)]
mod ids;
#[cfg(test)]
mod input;
#[cfg(test)]
mod resolved;
#[cfg(test)]
mod rivals;
