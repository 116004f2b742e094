//! The lines of a report.

ghost use Rattle.std.specs.Prelude.{◌≡◌, ◌++◌, OnOk, codes, decimal, map, string_bytes};
ghost use Rattle.std.specs.List.{flat_map};
ghost use Rattle.link_flags.specs.FlagText.{flags_text};
ghost use Rattle.link_rules.specs.Report.{loaded_line, kept_line, symbol_name, version_line, version_text, undefined_line, missing_line};
ghost use Rattle.link_core_answer.specs.Parts.{told_object};

use link_flags::ValueFlags;
use link_ids::SymbolId;
use link_input::Platform;
use link_names::{Name, NameView};
use link_resolve_comdat::Candidate;
use link_rules::{GivenVersion, KeptGroup};
use std::alloc::AllocError;
use std::fmt::Write;

/// Adds the lines of loaded objects.
pub(crate) fn write_loaded_lines<P: Platform>(
    text: &mut String,
    objects: &[Candidate<'_, P>],
) -> Result<(), AllocError>
    ensures { OnOk result (string_bytes text.new ≡ string_bytes text.old ++ flat_map loaded_line (map told_object objects.now)) }
{
    for object in objects {
        write_loaded_line(text, object)?;
    }
    Ok(())
}

/// Adds the line of a loaded object.
fn write_loaded_line<P: Platform>(
    text: &mut String,
    object: &Candidate<'_, P>,
) -> Result<(), AllocError>
    ensures { OnOk result (string_bytes text.new ≡ string_bytes text.old ++ loaded_line (told_object object.now)) }
{
    writeln!(text, "loaded {} {}", object.place, object.parsed.input())
}

/// Adds the lines of groups that were kept.
pub(crate) fn write_kept_lines(text: &mut String, groups: &[KeptGroup]) -> Result<(), AllocError>
    ensures { OnOk result (string_bytes text.new ≡ string_bytes text.old ++ flat_map kept_line groups.now) }
{
    for group in groups {
        write_kept_line(text, group)?;
    }
    Ok(())
}

/// Adds the line of a group that was kept.
fn write_kept_line(text: &mut String, group: &KeptGroup) -> Result<(), AllocError>
    ensures { OnOk result (string_bytes text.new ≡ string_bytes text.old ++ kept_line group.now) }
{
    writeln!(
        text,
        "kept {} {} {}",
        group.object, group.group, group.signature
    )
}

/// Adds the line of a symbol.
pub(crate) fn write_symbol_line(
    text: &mut String,
    id: SymbolId,
    name: &NameView<'_>,
    definition: SymbolId,
    flags: ValueFlags,
) -> Result<(), AllocError>
    ensures { OnOk result (string_bytes text.new ≡ string_bytes text.old ++ (codes "symbol " ++ decimal id ++ codes " " ++ symbol_name name.now ++ codes " -> " ++ decimal definition ++ codes " [" ++ flags_text flags.0 ++ codes "]\n")) }
{
    write!(text, "symbol {id} ")?;
    write_symbol_name(text, name)?;
    writeln!(text, " -> {definition} [{flags}]")
}

/// Adds the name of a symbol.
pub(crate) fn write_symbol_name(text: &mut String, name: &NameView<'_>) -> Result<(), AllocError>
    ensures { OnOk result (string_bytes text.new ≡ string_bytes text.old ++ symbol_name name.now) }
{
    if name.is_empty() {
        text.push_str("<unnamed>")
    } else {
        write!(text, "{name}")
    }
}

/// Adds the lines of versions that were given.
pub(crate) fn write_version_lines(
    text: &mut String,
    versions: &[GivenVersion],
) -> Result<(), AllocError>
    ensures { OnOk result (string_bytes text.new ≡ string_bytes text.old ++ flat_map version_line versions.now) }
{
    for version in versions {
        write_version_line(text, version)?;
    }
    Ok(())
}

/// Adds the line of a version that was given.
fn write_version_line(text: &mut String, version: &GivenVersion) -> Result<(), AllocError>
    ensures { OnOk result (string_bytes text.new ≡ string_bytes text.old ++ version_line version.now) }
{
    writeln!(text, "version {} {}", version.symbol, version.index)
}

/// Adds the line of an undefined name, by the reference that stands for it.
pub(crate) fn write_undefined_line(
    text: &mut String,
    id: SymbolId,
    name: &NameView<'_>,
    version: &Option<NameView<'_>>,
) -> Result<(), AllocError>
    ensures { OnOk result (string_bytes text.new ≡ string_bytes text.old ++ undefined_line (record { symbol = id; name = name.now; version = version.now })) }
{
    write!(text, "undefined {id} {name}")?;
    write_version(text, version)?;
    text.push_str("\n")
}

/// Adds the version of a name, where it has one.
pub(crate) fn write_version(
    text: &mut String,
    version: &Option<NameView<'_>>,
) -> Result<(), AllocError>
    ensures { OnOk result (string_bytes text.new ≡ string_bytes text.old ++ version_text version.now) }
{
    match version {
        None => Ok(()),
        Some(version) => write!(text, "@{version}"),
    }
}

/// Adds the lines of required names that nothing defines.
pub(crate) fn write_missing_lines(text: &mut String, names: &[Name]) -> Result<(), AllocError>
    ensures { OnOk result (string_bytes text.new ≡ string_bytes text.old ++ flat_map missing_line names.now) }
{
    for name in names {
        write_missing_line(text, name)?;
    }
    Ok(())
}

/// Adds the line of a required name that nothing defines.
fn write_missing_line(text: &mut String, name: &Name) -> Result<(), AllocError>
    ensures { OnOk result (string_bytes text.new ≡ string_bytes text.old ++ missing_line name.now) }
{
    writeln!(text, "missing {name}")
}
