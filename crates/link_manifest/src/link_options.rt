//! The options that a manifest gives.

ghost use Rattle.std.specs.Prelude.{◌≡◌, codes, IfOk};
ghost use Rattle.link_manifest_json.specs.Tree.{view};
ghost use Rattle.link_manifest.specs.Checked.{IsGroupSize};
ghost use Rattle.link_manifest.specs.LinkOptions.{placement_at, linker_symbol_read, options_read, later_keys_read, texts_read};
ghost use Rattle.link_manifest.specs.Reading.{optional, Reads};
ghost use Rattle.link_manifest.specs.Values.{group_size_read};

use crate::claims::ClaimOfLink;
use crate::fault::ManifestError;
use crate::reading::{Readable, nullable, object_of_keys, optional, optional_list, required};
use crate::redirects::Defsym;
use crate::values::{Bytes, Flag, GroupSize, Number, Profile};
use crate::words::{OneOf, PlacementName};
use json::Value;
use link_check_claims::Claim;
use link_input::{InternalSymDefInfo, Options, OutputKind, Scripts, SymbolPlacement};
use link_script_syntax::ScriptProfile;
use std::alloc::Global;

/// Where a symbol of the linker stands, of this section where the place is of one.
fn placement_at(name: PlacementName, section: u32) -> SymbolPlacement
    ensures { result ≡ placement_at name section }
{
    match name {
        PlacementName::SectionStart => SymbolPlacement::SectionStart(section),
        PlacementName::SectionEnd => SymbolPlacement::SectionEnd(section),
        PlacementName::SectionGroupEnd => SymbolPlacement::SectionGroupEnd(section),
        PlacementName::TlsEnd => SymbolPlacement::TlsEnd(section),
        PlacementName::LoadBase => SymbolPlacement::LoadBaseAddress,
        PlacementName::PlatformSpecific => SymbolPlacement::PlatformSpecific,
    }
}

/// A symbol that the linker defines.
struct LinkerSymbol;

impl Readable for LinkerSymbol {
    type Read = InternalSymDefInfo;

    ghost read = { linker_symbol_read };

    fn read(alloc: Global, value: &Value<'_>) -> Result<InternalSymDefInfo, ManifestError> {
        object_of_keys(alloc, value, &["name", "placement", "section", "hidden"])?;
        let name = required::<Bytes>(alloc, value, "name")?;
        let placement = required::<OneOf<PlacementName>>(alloc, value, "placement")?;
        let section = optional::<Number>(alloc, value, "section", 0)?;
        let hidden = optional::<Flag>(alloc, value, "hidden", false)?;
        Ok(InternalSymDefInfo {
            placement: placement_at(placement, section),
            name,
            hidden,
        })
    }
}

/// At most how many files are to be one group.
fn files_per_group(alloc: Global, value: &Value<'_>) -> Result<u32, ManifestError>
    ensures read { Reads result (optional (codes "files_per_group") group_size_read 256 (view value.now)) }
    ensures range { IfOk result (λ size. IsGroupSize size) }
{
    optional::<GroupSize>(alloc, value, "files_per_group", 256)
}

/// The options, of which the root holds the keys in front of the files.
pub(crate) fn options(alloc: Global, value: &Value<'_>) -> Result<Options, ManifestError>
    ensures read { Reads result (options_read (view value.now)) }
    ensures group_size { IfOk result (λ options. IsGroupSize options.files_per_group) }
{
    let static_output = OutputKind::StaticExecutable;
    let output = optional::<OneOf<OutputKind>>(alloc, value, "output", static_output)?;
    let entry = nullable::<Bytes>(alloc, value, "entry")?;
    let default_entry = nullable::<Bytes>(alloc, value, "default_entry")?;
    let allow_multiple = optional::<Flag>(alloc, value, "allow_multiple", false)?;
    let files_per_group = files_per_group(alloc, value)?;
    let wrap = optional_list::<Bytes>(alloc, value, "wrap")?;
    let force_undefined = optional_list::<Bytes>(alloc, value, "force_undefined")?;
    let force_export = optional_list::<Bytes>(alloc, value, "force_export")?;
    let defsym = optional_list::<Defsym>(alloc, value, "defsym")?;
    let linker_symbols = optional_list::<LinkerSymbol>(alloc, value, "linker_symbols")?;
    let custom_sections = optional_list::<Bytes>(alloc, value, "custom_sections")?;
    Ok(Options {
        output,
        entry,
        default_entry,
        allow_multiple,
        files_per_group,
        wrap,
        force_undefined,
        force_export,
        defsym,
        linker_symbols,
        custom_sections,
        demangle: false,
        script_profile: ScriptProfile::Wild,
        soname: None,
    })
}

/// These options with those of which the root holds the keys behind the files, and the claim, whose key stands between those.
pub(crate) fn later_keys(
    alloc: Global,
    value: &Value<'_>,
    mut options: Options,
) -> Result<(Options, Option<Claim>), ManifestError>
    ensures read { Reads result (later_keys_read options (view value.now)) }
    ensures group_size { IfOk result (λ read. read.0.files_per_group ≡ options.files_per_group) }
{
    let profile = ScriptProfile::Wild;
    options.script_profile = optional::<Profile>(alloc, value, "script_profile", profile)?;
    let claim = nullable::<ClaimOfLink>(alloc, value, "claim")?;
    options.soname = nullable::<Bytes>(alloc, value, "soname")?;
    Ok((options, claim))
}

/// The texts of the version script and of the export list, of which the root holds the keys.
pub(crate) fn texts(alloc: Global, value: &Value<'_>) -> Result<Scripts, ManifestError>
    ensures { Reads result (texts_read (view value.now)) }
{
    let version_script = nullable::<Bytes>(alloc, value, "version_script")?;
    let export_list = nullable::<Bytes>(alloc, value, "export_list")?;
    Ok(Scripts {
        version_script,
        export_list,
    })
}
