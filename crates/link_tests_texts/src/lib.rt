//! Tests of `link_names`, `link_glob`, `link_script_syntax` and `link_script`, beside which none stand: a crate with tests is proved twice.
#![tactic(auto)]

#[cfg(test)]
mod glob;
#[cfg(test)]
mod names;
#[cfg(test)]
mod script;
#[cfg(test)]
mod syntax;
