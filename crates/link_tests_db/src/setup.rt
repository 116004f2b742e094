//! Lines that tell what a link is given beside its files.

ghost use Rattle.std.specs.Prelude.{◌≤◌, IsTrue};

use crate::definitions::definition_of;
use crate::fault::Fault;
use crate::words::{first_and_rest, key_and_value, number_of, only, set_name, set_names};
use link_input::{InternalSymDefInfo, Options, OutputKind, Scripts};
use link_names::Seq;
use std::alloc::Global;

/// What a link is given beside its files.
#[derive(Drop)]
pub struct Setup {
    pub options: Options,
    pub texts: Scripts,
    pub workers: usize,
}

/// The kind of output that a word names.
fn output_of(word: &[u8]) -> Result<OutputKind, Fault> {
    match word {
        b"static" => Ok(OutputKind::StaticExecutable),
        b"dynamic" => Ok(OutputKind::DynamicExecutable),
        b"shared" => Ok(OutputKind::SharedObject),
        b"partial" => Ok(OutputKind::Partial),
        _ => Err(Fault::Word),
    }
}

/// Sets a number.
fn set_number(slot: &mut u32, value: &[u8]) -> Result<(), Fault> {
    *slot = number_of(value)?;
    Ok(())
}

/// Sets how many there are.
fn set_count(slot: &mut usize, value: &[u8]) -> Result<(), Fault> {
    *slot = number_of(value)? as usize;
    Ok(())
}

/// Sets what a word says of the options.
fn set_option(alloc: Global, options: &mut Options, word: &[u8]) -> Result<(), Fault> {
    match key_and_value(word) {
        Some((b"output", value)) => options.output = output_of(value)?,
        Some((b"entry", value)) => set_name(alloc, &mut options.entry, value)?,
        Some((b"default_entry", value)) => set_name(alloc, &mut options.default_entry, value)?,
        Some((b"group", value)) => set_number(&mut options.files_per_group, value)?,
        Some((b"wrap", value)) => set_names(alloc, &mut options.wrap, value)?,
        Some((b"undefined", value)) => set_names(alloc, &mut options.force_undefined, value)?,
        Some((b"export", value)) => set_names(alloc, &mut options.force_export, value)?,
        Some((b"custom", value)) => set_names(alloc, &mut options.custom_sections, value)?,
        Some((b"demangle", _)) => options.demangle = true,
        _ => return Err(Fault::Word),
    }
    Ok(())
}

/// Sets what words say of the options.
fn set_options(alloc: Global, options: &mut Options, words: &[&[u8]]) -> Result<(), Fault> {
    for word in words {
        set_option(alloc, options, word)?;
    }
    Ok(())
}

/// Adds the symbol that words tell.
fn push_definition(
    alloc: Global,
    definitions: &mut Seq<InternalSymDefInfo>,
    words: &[&[u8]],
) -> Result<(), Fault> {
    let definition = definition_of(alloc, words)?;
    definitions.push(definition)?;
    Ok(())
}

impl Setup {
    /// No option and one worker.
    /// Its fields are left open: `is_within_limits` tells what a database asks of them.
    pub fn new(alloc: Global) -> Self {
        Setup {
            options: Options::new(alloc),
            texts: Scripts {
                version_script: None,
                export_list: None,
            },
            workers: 1,
        }
    }

    /// Sets what a line says.
    /// How lines are read is left to the cases; `is_within_limits` tells what a database asks of the fields.
    pub fn set(&mut self, alloc: Global, words: &[&[u8]]) -> Result<(), Fault> {
        let (verb, rest) = first_and_rest(words)?;
        let options = &mut self.options;
        let texts = &mut self.texts;
        match verb {
            b"options" => set_options(alloc, options, rest),
            b"linker_symbol" => push_definition(alloc, &mut options.linker_symbols, rest),
            b"defsym" => push_definition(alloc, &mut options.defsym, rest),
            b"version_script" => set_name(alloc, &mut texts.version_script, only(rest)?),
            b"export_list" => set_name(alloc, &mut texts.export_list, only(rest)?),
            b"workers" => set_count(&mut self.workers, only(rest)?),
            _ => Err(Fault::Line),
        }
    }

    /// Workers, and objects of a group, are 1 to 256.
    pub fn is_within_limits(&self) -> bool
        ensures workers { IsTrue result → (1 ≤ self.now.workers) × (self.now.workers ≤ 256) }
        ensures files { IsTrue result → (1 ≤ self.now.options.files_per_group) × (self.now.options.files_per_group ≤ 256) }
    {
        let group = self.options.files_per_group;
        1 <= self.workers && self.workers <= 256 && 1 <= group && group <= 256
    }
}
