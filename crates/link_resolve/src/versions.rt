//! The versions that the version script gives to the definitions of a shared output.

ghost use Rattle.std.specs.Prelude.{◌≡◌, ◌&&◌, ◌++◌, ◌<◌, IfOk, Ok, OnOk, false, is_none, length, not, option_map, option_to_list};
ghost use Rattle.link_input.specs.Entries.{is_local};
ghost use Rattle.link_input.specs.Outputs.{is_shared_object};
ghost use Rattle.link_input.specs.Symbols.{entry_passes};
ghost use Rattle.link_db_texts.specs.Causes.{TellsCause};
ghost use Rattle.link_db_texts.specs.Holds.{AreRulesOf, platform_of};
ghost use Rattle.link_rules.specs.Places.{Bytes};
ghost use Rattle.link_rules.specs.Rivals.{is_in_loaded_regular};
ghost use Rattle.link_rules.specs.Rules.{Rules};
ghost use Rattle.link_rules.specs.Selection.{Selection};
ghost use Rattle.link_rules.specs.Undefined.{resolved as resolution};
ghost use Rattle.link_rules.specs.World.{is_definition};
ghost use Rattle.link_rules.specs.Versions.{asks_version, given_version, undeclared_version, version_given, version_refusal, versions_given};
ghost use Rattle.link_db.specs.Database.{HasTable, symbol_names};
ghost use Rattle.link_db.specs.Seen.{seen};
ghost use Rattle.link_resolve.specs.Settled.{IsEnded};

use crate::resolved::Resolved;
use link_db::SymbolDb;
use link_db_symbols::{SymbolOrigin, SymbolView, symbols};
use link_ids::SymbolId;
use link_input::{OutputKind, Platform};
use link_names::{Name, NameView};
use link_rules::{GivenVersion, LinkError};
use link_script::{Demangler, UndefinedVersion};
use std::alloc::{AllocError, Global};

/// Whether the output is a shared one.
fn is_shared_output(output: OutputKind) -> bool
    ensures { result ≡ is_shared_object output }
{
    matches!(output, OutputKind::SharedObject)
}

/// Whether the version script, if there is one, isn't of the Rust form.
fn has_regular_script<P: Platform>(db: &SymbolDb<P>) -> bool
    ensures { (demangle : Bytes → Bytes) (rules : Rules) → AreRulesOf (platform_of P.Platform) demangle (seen db.now).rules rules
        → result ≡ is_none rules.rust_names }
{
    db.rules().rust_names().is_none()
}

/// Whether definitions of the output have versions: it is shared, and the version script isn't of the Rust form.
fn has_versions<P: Platform>(db: &SymbolDb<P>) -> bool
    ensures { (demangle : Bytes → Bytes) (rules : Rules) → AreRulesOf (platform_of P.Platform) demangle (seen db.now).rules rules
        → result ≡ (is_shared_object (seen db.now).options.output && is_none rules.rust_names) }
{
    is_shared_output(db.output_kind()) && has_regular_script(db)
}

/// Whether a loaded regular object holds the symbol.
fn is_held(symbol: &SymbolView, loaded: &[bool]) -> bool
    ensures { result ≡ is_in_loaded_regular loaded.now symbol.now.origin }
{
    match symbol.origin() {
        SymbolOrigin::Object {
            place,
            is_dynamic,
            ..
        } => match loaded.get(*place) {
            Some(is_loaded) => *is_loaded && !*is_dynamic,
            None => false,
        },
        _ => false,
    }
}

/// Whether it is a local symbol of an object.
fn is_local(symbol: &SymbolView) -> bool
    ensures { result ≡ entry_passes (λ e. is_local e.binding) symbol.now.origin }
{
    match symbol.origin() {
        SymbolOrigin::Object { row, .. } => row.is_local(),
        _ => false,
    }
}

/// Whether it is a definition of a loaded regular object that isn't local.
fn may_have_version(symbol: &SymbolView, loaded: &[bool]) -> bool
    ensures { result ≡ (is_in_loaded_regular loaded.now symbol.now.origin && is_definition symbol.now && not (entry_passes (λ e. is_local e.binding) symbol.now.origin)) }
{
    is_held(symbol, loaded) && symbol.is_definition() && !is_local(symbol)
}

/// Whether the version script is asked for the version of the symbol of this id.
fn asks_version<P: Platform>(
    db: &SymbolDb<P>,
    resolved: &Resolved,
    id: SymbolId,
    symbol: &SymbolView,
) -> bool
    requires table { HasTable (seen db.now) }
    requires within { id < length (symbol_names (seen db.now)) }
    ensures { (demangle : Bytes → Bytes) (l : Selection) → IsEnded (platform_of P.Platform) demangle (seen db.now) resolved.now l
        → result ≡ asks_version (resolution l) (id, symbol.now) }
{
    if !has_versions(db) {
        return false;
    }
    may_have_version(symbol, resolved.loaded()) && db.definition(id) == id
}

/// The cause of a refusal: a name whose version the script doesn't declare.
fn undefined_version(alloc: Global, undeclared: &UndefinedVersion) -> Result<LinkError, AllocError>
    ensures { IfOk result (λ error. undeclared_version (Err (record { name = undeclared.now.name.now; version = undeclared.now.version.now })) ≡ Some error) }
{
    Ok(LinkError::UndefinedVersion {
        name: Name::from_slice(alloc, undeclared.name)?,
        version: Name::from_slice(alloc, undeclared.version)?,
    })
}

/// The bytes of a version, if there is one.
fn version_bytes<'a>(version: Option<NameView<'a>>) -> Option<&'a [u8]>
    ensures { option_map (λ v. v.now) result ≡ version.entry }
{
    match version {
        Some(version) => Some(version.as_slice()),
        None => None,
    }
}

/// The version that the version script gives to a symbol, if it gives one.
fn version_by_script<P: Platform, D: Demangler>(
    alloc: Global,
    db: &SymbolDb<P>,
    demangler: &D,
    symbol: &SymbolView,
) -> Result<Option<u16>, LinkError>
    ensures cause { (rules : Rules) → AreRulesOf (platform_of P.Platform) (D.demangled demangler.now) (seen db.now).rules rules
        → TellsCause (undeclared_version (rules.version_of symbol.now.name symbol.now.version)) result }
    ensures version { IfOk result (λ version. (rules : Rules) → AreRulesOf (platform_of P.Platform) (D.demangled demangler.now) (seen db.now).rules rules
        → rules.version_of symbol.now.name symbol.now.version ≡ Ok version) }
{
    let name = symbol.name();
    let version = version_bytes(symbol.version());
    match db.rules().version_of(name.as_slice(), version, demangler) {
        Ok(index) => Ok(index),
        Err(undeclared) => Err(undefined_version(alloc, &undeclared)?),
    }
}

/// The version of the symbol of this id, where the version script is asked for it and gives one.
fn version_given<P: Platform, D: Demangler>(
    alloc: Global,
    db: &SymbolDb<P>,
    resolved: &Resolved,
    demangler: &D,
    id: SymbolId,
    symbol: &SymbolView,
) -> Result<Option<u16>, LinkError>
    requires table { HasTable (seen db.now) }
    requires within { id < length (symbol_names (seen db.now)) }
    ensures cause { (l : Selection) → IsEnded (platform_of P.Platform) (D.demangled demangler.now) (seen db.now) resolved.now l
        → TellsCause (undeclared_version (version_given (resolution l) (id, symbol.now))) result }
    ensures version { IfOk result (λ version. (l : Selection) → IsEnded (platform_of P.Platform) (D.demangled demangler.now) (seen db.now) resolved.now l
        → version_given (resolution l) (id, symbol.now) ≡ Ok version) }
{
    if asks_version(db, resolved, id, symbol) {
        version_by_script(alloc, db, demangler, symbol)
    } else {
        Ok(None)
    }
}

/// Adds the version of a symbol, if it has one.
fn push_version(
    versions: &mut Vec<GivenVersion>,
    id: SymbolId,
    index: Option<u16>,
) -> Result<(), AllocError>
    ensures { OnOk result (versions.new.items ≡ versions.old.items ++ option_to_list (given_version id (Ok index))) }
{
    if let Some(index) = index {
        versions.push(GivenVersion { symbol: id, index })?;
    }
    Ok(())
}

/// The versions that the version script gives to the definitions of a shared output, in the order of their ids: to each that a loaded regular object holds, that
/// isn't local, and that stands for itself.
///
/// It is refused with the first of them that asks for a version that the script doesn't declare, and with `Memory`.
pub fn symbol_versions<P: Platform, D: Demangler>(
    alloc: Global,
    db: &SymbolDb<P>,
    resolved: &Resolved,
    demangler: &D,
) -> Result<Vec<GivenVersion>, LinkError>
    requires { HasTable (seen db.now) }
    ensures cause { (l : Selection) → IsEnded (platform_of P.Platform) (D.demangled demangler.now) (seen db.now) resolved.now l
        → TellsCause (version_refusal (resolution l)) result }
    ensures versions { IfOk result (λ versions. (l : Selection) → IsEnded (platform_of P.Platform) (D.demangled demangler.now) (seen db.now) resolved.now l
        → versions.items ≡ versions_given (resolution l)) }
{
    let mut versions = Vec::new(alloc);
    for (id, symbol) in symbols(db.files()) {
        let index = version_given(alloc, db, resolved, demangler, id, &symbol)?;
        push_version(&mut versions, id, index)?;
    }
    Ok(versions)
}
