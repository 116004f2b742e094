//! The text of a refusal.

ghost use Rattle.std.specs.Prelude.{◌≡◌, ◌++◌, codes, IfOk, OnOk, string_bytes};
ghost use Rattle.std.specs.List.{flat_map};
ghost use Rattle.link_rules.specs.Report.{kind_text, origin_text, refusal_text, separated_lines};
ghost use Rattle.link_rules.specs.declared.refusal.LinkError.TheVariants.{Script, SectionInTwoGroups, UndefinedVersion};

use link_input::TooManyKind;
use link_names::Name;
use link_rules::{LinkError, ScriptOrigin};
use link_script_syntax::ScriptError;
use std::alloc::{AllocError, Global};
use std::fmt::Write;

/// The text of a refusal, without a line feed at its end.
pub fn refusal_text(alloc: Global, error: &LinkError) -> Result<Vec<u8>, AllocError>
    ensures { IfOk result (λ text. text.items ≡ refusal_text error.now) }
{
    match error {
        LinkError::Script { origin, error } => script_text(alloc, *origin, error),
        LinkError::MultipleVersionScripts(_) => {
            Vec::from_slice(alloc, b"Multiple version scripts provided")
        }
        LinkError::TooMany { kind, count } => {
            let kind = kind_text(*kind);
            let text = format!(in alloc; "Too many {kind}: {count}")?;
            Ok(text.into_bytes())
        }
        LinkError::LateVersionScript(_) => {
            Vec::from_slice(alloc, b"Version script in a later batch")
        }
        LinkError::NoInputs => Vec::from_slice(alloc, b"no input files"),
        LinkError::SectionInTwoGroups { file, section } => two_groups_text(alloc, file, *section),
        LinkError::DuplicateSymbols(lines) => duplicates_text(alloc, lines.as_slice()),
        LinkError::UndefinedVersion { name, version } => version_text(alloc, name, version),
        LinkError::Memory => Vec::from_slice(alloc, b"out of memory"),
    }
}

/// Which text is no script, and why.
fn script_text(
    alloc: Global,
    origin: ScriptOrigin,
    error: &ScriptError,
) -> Result<Vec<u8>, AllocError>
    ensures { IfOk result (λ text. text.items ≡ refusal_text (Script origin error.now)) }
{
    let mut text = String::new(alloc);
    text.push_str("Failed to parse ")?;
    write_origin(&mut text, origin)?;
    write!(text, ": {error}")?;
    Ok(text.into_bytes())
}

/// That a section is listed twice as a member.
fn two_groups_text(alloc: Global, file: &Name, section: u32) -> Result<Vec<u8>, AllocError>
    ensures { IfOk result (λ text. text.items ≡ refusal_text (SectionInTwoGroups file.now section)) }
{
    let text = format!(in alloc; "{file}: section {section} belongs to multiple groups")?;
    Ok(text.into_bytes())
}

/// That a version isn't declared.
fn version_text(alloc: Global, name: &Name, version: &Name) -> Result<Vec<u8>, AllocError>
    ensures { IfOk result (λ text. text.items ≡ refusal_text (UndefinedVersion name.now version.now)) }
{
    let text = format!(in alloc; "Symbol {name} has undefined version {version}")?;
    Ok(text.into_bytes())
}

/// Adds which text it is.
fn write_origin(text: &mut String, origin: ScriptOrigin) -> Result<(), AllocError>
    ensures { OnOk result (string_bytes text.new ≡ string_bytes text.old ++ origin_text origin) }
{
    match origin {
        ScriptOrigin::VersionScript => text.push_str("version script"),
        ScriptOrigin::ExportList => text.push_str("symbol export list"),
        ScriptOrigin::ForcedExport(name) => write!(text, "forced export {name}"),
        ScriptOrigin::LinkerScript(script) => {
            write!(text, "version script of linker script {script}")
        }
    }
}

/// What there are too many of.
fn kind_text<'a>(kind: TooManyKind) -> &'a str
    ensures { result.now ≡ kind_text kind }
{
    match kind {
        TooManyKind::Objects => "objects",
        TooManyKind::LinkerScripts => "linker scripts",
        TooManyKind::StubLibraries => "stub libraries",
        TooManyKind::Sections => "sections",
        TooManyKind::Symbols => "symbols",
    }
}

/// The lines of names that are defined twice, with a line feed between two.
fn duplicates_text(alloc: Global, lines: &[Name]) -> Result<Vec<u8>, AllocError>
    ensures { IfOk result (λ text. text.items ≡ codes "Duplicate symbols detected: " ++ separated_lines lines.now) }
{
    let mut text = Vec::from_slice(alloc, b"Duplicate symbols detected: ")?;
    if let Some((first, others)) = lines.split_first() {
        text.extend_from_slice(first.as_slice())?;
        add_lines(&mut text, others)?;
    }
    Ok(text)
}

/// Adds further lines, each behind a line feed.
fn add_lines(text: &mut Vec<u8>, lines: &[Name]) -> Result<(), AllocError>
    ensures { OnOk result (text.new.items ≡ text.old.items ++ flat_map (λ line. codes "\n" ++ line) lines.now) }
{
    for line in lines {
        text.extend_from_slice(b"\n")?;
        text.extend_from_slice(line.as_slice())?;
    }
    Ok(())
}
