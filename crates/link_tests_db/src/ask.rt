//! Lines that ask something of a link, and what is answered.

ghost use Rattle.std.specs.Prelude.{◌<◌, IfOk, length};
ghost use Rattle.link_db.specs.Database.{symbol_names};
ghost use Rattle.link_db.specs.Seen.{seen};

use crate::fault::Fault;
use crate::link::Link;
use crate::naming::OneName;
use crate::words::{name_and_version, number_of};
use link_db::{SymbolDb, SymbolKey};
use link_flags::FlagsForSymbol;
use link_ids::SymbolId;
use link_input::Platform;
use link_names::{Name, NameView};
use std::alloc::{AllocError, Global};
use std::fmt::Write;

/// The symbol whose number a word writes.
pub fn symbol_of<P: Platform>(db: &SymbolDb<P>, word: &[u8]) -> Result<SymbolId, Fault>
    ensures { IfOk result (λ id. id < length (symbol_names (seen db.now))) }
{
    let number = number_of(word)? as usize;
    if number < db.num_symbols() {
        Ok(SymbolId::from_usize(number))
    } else {
        Err(Fault::Symbol)
    }
}

/// Writes a symbol, if there is one.
/// What is written is left to the cases, whose expected text stands beside them.
pub fn write_symbol(text: &mut String, symbol: Option<SymbolId>) -> Result<(), AllocError> {
    match symbol {
        Some(id) => write!(text, "{id}"),
        None => text.push_str("none"),
    }
}

/// What a reference to a name, perhaps with a version behind an `@`, stands for.
fn write_target<P: Platform>(
    text: &mut String,
    db: &SymbolDb<P>,
    word: &[u8],
    allow_dynamic: bool,
) -> Result<(), AllocError> {
    let (name, version) = name_and_version(word);
    let key = SymbolKey::new(name, version);
    write_symbol(text, db.get(&key, allow_dynamic))
}

/// A name as it is looked up, and its hash number.
fn write_key(text: &mut String, name: &[u8]) -> Result<(), AllocError> {
    let key = SymbolKey::new(name, None);
    let name = NameView::new(key.name());
    let hash = key.hash();
    write!(text, "{name} {hash:016x}")
}

/// What a symbol says of itself.
fn write_row<P: Platform>(
    text: &mut String,
    db: &SymbolDb<P>,
    id: SymbolId,
) -> Result<(), AllocError>
    requires { id < length (symbol_names (seen db.now)) }
{
    let name = db.symbol_name(id);
    write!(text, "`{name}`")?;
    if let Some(version) = db.symbol_version_debug(id) {
        write!(text, " version {version}")?;
    }
    let visibility = db.input_symbol_visibility(id);
    let strength = db.input_symbol_strength(id);
    write!(text, " {visibility:?} {strength:?}")?;
    if db.is_undefined(id) {
        text.push_str(" undefined")?;
    }
    if db.is_mapping_symbol(id) {
        text.push_str(" mapping")?;
    }
    Ok(())
}

/// The file of a symbol.
fn write_file<P: Platform>(
    text: &mut String,
    db: &SymbolDb<P>,
    id: SymbolId,
) -> Result<(), AllocError>
    requires { id < length (symbol_names (seen db.now)) }
{
    let file_id = db.file_id_for_symbol(id);
    let file = db.file(file_id);
    let symbols = file.symbol_id_range().len();
    write!(text, "#{file_id} ({file}), {symbols} symbols")
}

/// The definition of a symbol of the prelude.
fn write_prelude<P: Platform>(
    text: &mut String,
    db: &SymbolDb<P>,
    id: SymbolId,
) -> Result<(), AllocError>
    requires { id < length (symbol_names (seen db.now)) }
{
    match db.prelude_symbol_def(id) {
        Some(definition) => {
            let name = &definition.name;
            let hidden = definition.hidden;
            write!(text, "`{name}` hidden {hidden}")
        }
        None => text.push_str("none"),
    }
}

/// What a symbol means, whether it points to itself, and the flags of what it means.
fn write_meaning<P: Platform>(
    text: &mut String,
    link: &Link<P>,
    id: SymbolId,
) -> Result<(), AllocError>
    requires { id < length (symbol_names (seen link.now.db)) }
{
    let meant = link.db.definition(id);
    let canonical = link.db.is_canonical(id);
    let flags = link.db.flags_for_symbol(&link.flags, id);
    write!(text, "{meant} canonical {canonical} ({flags})")
}

/// The flags of each symbol.
fn write_flags<P: Platform>(text: &mut String, link: &Link<P>) -> Result<(), AllocError> {
    let symbols = link.db.num_symbols();
    write!(text, "{symbols}:")?;
    for number in 0..symbols {
        let flags = link.flags.flags_for_symbol(SymbolId::from_usize(number));
        write!(text, " {number}({flags})")?;
    }
    Ok(())
}

/// How many symbols, objects and groups there are.
fn write_counts<P: Platform>(text: &mut String, db: &SymbolDb<P>) -> Result<(), AllocError> {
    let symbols = db.num_symbols();
    let objects = db.num_regular_objects();
    let groups = db.next_group_index();
    write!(
        text,
        "{symbols} symbols, {objects} objects, {groups} groups"
    )
}

/// How many files are held, how many names are to be wrapped, and whether a version script was given.
fn write_held<P: Platform>(text: &mut String, db: &SymbolDb<P>) -> Result<(), AllocError> {
    let files = db.files().num_files();
    let wrapped = db.options().wrap.len();
    let taken = db.rules().is_taken();
    write!(
        text,
        "{files} files, {wrapped} wrapped, version script {taken}"
    )
}

/// The groups.
fn write_groups<P: Platform>(text: &mut String, db: &SymbolDb<P>) -> Result<(), AllocError> {
    let groups = db.next_group_index();
    write!(text, "{groups}:")?;
    for group in db.groups() {
        write!(text, " {group};")?;
    }
    Ok(())
}

/// The names that are mapped, each with its symbol, in order.
fn mapped_names<P: Platform>(alloc: Global, db: &SymbolDb<P>) -> Result<Vec<Name>, AllocError> {
    let mut names = Vec::new(alloc);
    for (name, id) in db.all_unversioned_symbols() {
        let line = format!(in alloc; "{name} {id}")?;
        names.push(Name::new(line.into_bytes()))?;
    }
    names.sort()?;
    Ok(names)
}

/// So many names, and each of them.
fn write_list(text: &mut String, names: &[Name]) -> Result<(), AllocError> {
    let count = names.len();
    write!(text, "{count}:")?;
    for name in names {
        write!(text, " {name};")?;
    }
    Ok(())
}

/// The names that are mapped, each with its symbol.
fn write_names<P: Platform>(
    alloc: Global,
    text: &mut String,
    db: &SymbolDb<P>,
) -> Result<(), AllocError> {
    let names = mapped_names(alloc, db)?;
    write_list(text, &names)
}

/// What the texts of the link say.
fn write_rules<P: Platform>(text: &mut String, db: &SymbolDb<P>) -> Result<(), AllocError> {
    let script = db.version_script();
    let versions = script.version_count();
    let parents = script.parent_count();
    let output = db.output_kind();
    write!(text, "{output:?}, {versions} versions, {parents} parents")?;
    let has_list = db.export_list().is_some();
    let restrictive = db.has_restrictive_export_list();
    write!(
        text,
        ", list {has_list}, restrictive {restrictive}, required"
    )?;
    for name in db.required_export_symbols() {
        write!(text, " {name}")?;
    }
    Ok(())
}

/// The name of the entry point.
fn write_entry<P: Platform>(text: &mut String, db: &SymbolDb<P>) -> Result<(), AllocError> {
    match db.entry_symbol_name() {
        Some(name) => {
            let name = NameView::new(name);
            write!(text, "{name}")
        }
        None => text.push_str("none"),
    }
}

/// Answers what a line of one word asks. Says whether it asks something.
fn answer_of_all<P: Platform>(
    alloc: Global,
    text: &mut String,
    link: &Link<P>,
    word: &[u8],
) -> Result<bool, AllocError> {
    let written = match word {
        b"flags" => write_flags(text, link),
        b"counts" => write_counts(text, &link.db),
        b"held" => write_held(text, &link.db),
        b"groups" => write_groups(text, &link.db),
        b"names" => write_names(alloc, text, &link.db),
        b"rules" => write_rules(text, &link.db),
        b"entry" => write_entry(text, &link.db),
        _ => return Ok(false),
    };
    written?;
    Ok(true)
}

/// Answers what a line asks of a name. Says whether it asks something.
fn answer_of_name<P: Platform>(
    text: &mut String,
    db: &SymbolDb<P>,
    word: &[u8],
    name: &[u8],
) -> Result<bool, AllocError> {
    let written = match word {
        b"get" => write_target(text, db, name, true),
        b"hidden" => write_target(text, db, name, false),
        b"plain" => write_symbol(text, db.get_unversioned(name)),
        b"mangled" => write_symbol(text, db.find_mangled_name(&OneName, name)),
        b"hash" => write_key(text, name),
        _ => return Ok(false),
    };
    written?;
    Ok(true)
}

/// Answers what a line asks of a symbol. Says whether it asks something.
fn answer_of_symbol<P: Platform>(
    text: &mut String,
    link: &Link<P>,
    word: &[u8],
    symbol: &[u8],
) -> Result<bool, Fault> {
    let db = &link.db;
    let id = symbol_of(db, symbol)?;
    let written = match word {
        b"tell" => write_row(text, db, id),
        b"file" => write_file(text, db, id),
        b"means" => write_meaning(text, link, id),
        b"debug" => write!(text, "{}", db.symbol_debug(&link.flags, id)),
        b"shown" => write!(text, "{}", db.symbol_name_for_display(id, &OneName)),
        b"prelude" => write_prelude(text, db, id),
        _ => return Ok(false),
    };
    written?;
    Ok(true)
}

/// Answers what a line asks of a link. Says whether it asks something.
/// What is written is left to the cases: no clause says it.
pub fn answer<P: Platform>(
    alloc: Global,
    text: &mut String,
    link: &Link<P>,
    words: &[&[u8]],
) -> Result<bool, Fault> {
    match words {
        [word] => Ok(answer_of_all(alloc, text, link, word)?),
        [word, about] => Ok(
            answer_of_name(text, &link.db, word, about)?
                || answer_of_symbol(text, link, word, about)?,
        ),
        _ => Ok(false),
    }
}
