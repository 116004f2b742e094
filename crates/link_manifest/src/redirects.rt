//! Symbols that are defined as other names, in the options and in linker scripts.

ghost use Rattle.std.specs.Prelude.{◌≡◌};
ghost use Rattle.link_manifest.specs.Redirects.{redirect_of, defsym_read, script_kind, script_symbol_read};

use crate::fault::ManifestError;
use crate::reading::{Readable, object_of_keys, optional, optional_list, required};
use crate::values::{Bytes, Flag};
use json::Value;
use link_input::{InternalSymDefInfo, Redirect, RedirectKind, SymbolLoc, SymbolPlacement};
use link_names::{Name, Seq};
use std::alloc::Global;

/// A symbol that is defined as other names.
fn redirect_of(
    kind: RedirectKind,
    name: Name,
    targets: Seq<Name>,
    hidden: bool,
) -> InternalSymDefInfo
    ensures { result ≡ redirect_of kind name targets hidden }
{
    InternalSymDefInfo {
        placement: SymbolPlacement::Redirect(Redirect {
            kind,
            targets,
            loc: SymbolLoc::None,
        }),
        name,
        hidden,
    }
}

/// A redirect of the options.
pub(crate) struct Defsym;

impl Readable for Defsym {
    type Read = InternalSymDefInfo;

    ghost read = { defsym_read };

    fn read(alloc: Global, value: &Value<'_>) -> Result<InternalSymDefInfo, ManifestError> {
        object_of_keys(alloc, value, &["name", "targets"])?;
        let name = required::<Bytes>(alloc, value, "name")?;
        let targets = optional_list::<Bytes>(alloc, value, "targets")?;
        Ok(redirect_of(RedirectKind::DefSym, name, targets, false))
    }
}

/// Who defines a symbol of a linker script: the script, perhaps only where nothing else does.
fn script_kind(provide: bool) -> RedirectKind
    ensures { result ≡ script_kind provide }
{
    if provide {
        RedirectKind::Provide
    } else {
        RedirectKind::Script
    }
}

/// A symbol of a linker script.
pub(crate) struct ScriptSymbol;

impl Readable for ScriptSymbol {
    type Read = InternalSymDefInfo;

    ghost read = { script_symbol_read };

    fn read(alloc: Global, value: &Value<'_>) -> Result<InternalSymDefInfo, ManifestError> {
        object_of_keys(alloc, value, &["name", "targets", "hidden", "provide"])?;
        let name = required::<Bytes>(alloc, value, "name")?;
        let targets = optional_list::<Bytes>(alloc, value, "targets")?;
        let hidden = optional::<Flag>(alloc, value, "hidden", false)?;
        let provide = optional::<Flag>(alloc, value, "provide", false)?;
        Ok(redirect_of(script_kind(provide), name, targets, hidden))
    }
}
