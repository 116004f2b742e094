//! A symbol with all that is known of it, as messages show it.

ghost use Rattle.std.specs.Prelude.{◌≡◌, ◌==◌, ◌||◌, if◌then◌else◌};
ghost use Rattle.std.specs.Fmt.{WritesOnOk};
ghost use Rattle.link_input_groups.specs.SequencedInputs.{sequenced_file};
ghost use Rattle.link_db_display.specs.SymbolText.{section_text, undefined_text, unnamed_text, what_text};
ghost use Rattle.link_db_display.specs.DebugText.{defined_text, in_file_text, own_flags_text, place_text};

use link_flags::ValueFlags;
use link_ids::{FileId, SectionIndex, SymbolId};
use link_input::Platform;
use link_input_groups::SequencedInput;
use link_names::NameView;
use std::fmt;

/// Where a symbol stands: in which file, and at which place among its symbols.
#[derive(Drop)]
pub struct SymbolPlace<'a, P: Platform> {
    pub id: SymbolId,
    pub file_id: FileId,
    pub file: SequencedInput<'a, P>,
    pub offset: usize,
}

/// A symbol with its file, its definition and its flags. Mirrors Wild's `SymbolDebug`.
#[derive(Drop)]
pub struct SymbolDebug<'a, P: Platform> {
    pub place: SymbolPlace<'a, P>,
    pub name: NameView<'a>,
    /// The section that it stands in, in its object.
    pub section: Option<SectionIndex>,
    /// Where the symbol stands that it means.
    pub definition: SymbolPlace<'a, P>,
    /// Its own flags.
    pub flags: ValueFlags,
}

impl<'a, P: Platform> fmt::Display for SymbolDebug<'a, P> {
    ghost use Rattle.std.specs.Prelude.{Some};
    ghost use Rattle.link_db_display.specs.DebugText.{debug_text};

    ghost output = { λ s. Some (debug_text s) };

    fn fmt<W: fmt::Write>(&self, f: &mut fmt::Formatter<W>) -> fmt::Result {
        write_undefined(f, self.definition.id)?;
        write_what(f, &self.name, &self.place.file, self.section)?;
        write_place(f, &self.place)?;
        write_defined(f, self.place.id, &self.definition)?;
        write_flags(f, self.flags)
    }
}

/// Writes that nothing defines the symbol.
fn write_undefined<W: fmt::Write>(f: &mut fmt::Formatter<W>, definition: SymbolId) -> fmt::Result
    ensures { WritesOnOk W.write_str_gives f.old result (undefined_text (definition == 0)) f.new }
{
    if definition.is_undefined() {
        f.write_str("undefined ")?;
    }
    Ok(())
}

/// Writes what a symbol without a name is.
fn write_unnamed<W: fmt::Write, P: Platform>(
    f: &mut fmt::Formatter<W>,
    file: &SequencedInput<'_, P>,
    section: Option<SectionIndex>,
) -> fmt::Result
    ensures { WritesOnOk W.write_str_gives f.old result (unnamed_text (sequenced_file file.now).file section) f.new }
{
    match file {
        SequencedInput::Prelude(_) => f.write_str("<unnamed internal symbol>"),
        SequencedInput::Object(_) => write_section(f, section),
        SequencedInput::LinkerScript(script) => {
            let input = &script.parsed.input;
            write!(f, "Symbol from linker script `{input}`")
        }
        SequencedInput::StubLibrary(stub) => {
            let input = &stub.input;
            write!(f, "<unnamed Mach-O stub library symbol from `{input}`>")
        }
        SequencedInput::SyntheticSymbols(_) => f.write_str("<unnamed custom-section symbol>"),
    }
}

/// Writes what a symbol of an object without a name is.
fn write_section<W: fmt::Write>(
    f: &mut fmt::Formatter<W>,
    section: Option<SectionIndex>,
) -> fmt::Result
    ensures { WritesOnOk W.write_str_gives f.old result (section_text section) f.new }
{
    match section {
        Some(section) => {
            let number = section.as_usize();
            write!(f, "section {number}")
        }
        None => f.write_str("<unnamed symbol>"),
    }
}

/// Writes what the name or, where it is empty, the file says of a symbol.
fn write_what<W: fmt::Write, P: Platform>(
    f: &mut fmt::Formatter<W>,
    name: &NameView<'_>,
    file: &SequencedInput<'_, P>,
    section: Option<SectionIndex>,
) -> fmt::Result
    ensures { WritesOnOk W.write_str_gives f.old result (what_text name.now (sequenced_file file.now).file section) f.new }
{
    if name.is_empty() {
        write_unnamed(f, file, section)
    } else {
        write!(f, "symbol `{name}`")
    }
}

/// Writes a file.
fn write_in_file<W: fmt::Write, P: Platform>(
    f: &mut fmt::Formatter<W>,
    id: FileId,
    file: &SequencedInput<'_, P>,
) -> fmt::Result
    ensures { WritesOnOk W.write_str_gives f.old result (in_file_text id (sequenced_file file.now).file) f.new }
{
    write!(f, " in file #{id} ({file})")
}

/// Writes where a symbol stands.
fn write_place<W: fmt::Write, P: Platform>(
    f: &mut fmt::Formatter<W>,
    place: &SymbolPlace<'_, P>,
) -> fmt::Result
    ensures { WritesOnOk W.write_str_gives f.old result (place_text place.now) f.new }
{
    let id = place.id;
    let offset = place.offset;
    write!(f, " ({id} local={offset})")?;
    write_in_file(f, place.file_id, &place.file)
}

/// Writes where the definition stands, if it is another symbol, and not the undefined one.
fn write_defined<W: fmt::Write, P: Platform>(
    f: &mut fmt::Formatter<W>,
    symbol: SymbolId,
    definition: &SymbolPlace<'_, P>,
) -> fmt::Result
    ensures { WritesOnOk W.write_str_gives f.old result (defined_text symbol definition.now) f.new }
{
    let id = definition.id;
    if id.is_undefined() || id == symbol {
        return Ok(());
    }
    write!(f, " defined as {id}")?;
    write_in_file(f, definition.file_id, &definition.file)
}

/// Writes flags.
fn write_flags<W: fmt::Write>(f: &mut fmt::Formatter<W>, flags: ValueFlags) -> fmt::Result
    ensures { WritesOnOk W.write_str_gives f.old result (own_flags_text flags.0) f.new }
{
    write!(f, " ({flags})")
}
