//! Lines that tell the files of a batch.

use crate::definitions::definition_of;
use crate::fault::Fault;
use crate::words::{
    first_and_rest, key_and_value, name_and_version, number_of, only, set_name, set_names,
    unescaped,
};
use link_flags::Visibility;
use link_input::{
    InputObject, Inputs, Modifiers, ObjectTable, ParsedInputObject, Place, Platform,
    ProcessedLinkerScript, StubLibrary, SymbolBinding, SymbolEntry, SymbolKind,
};
use link_names::{Name, Seq};
use std::alloc::Global;

/// An object whose symbols are told in the lines that follow.
#[derive(Drop)]
pub struct TableOf {
    input: Name,
    modifiers: Modifiers,
    table: ObjectTable,
}

/// The files of the next batch, as far as they were told.
#[derive(Drop)]
pub struct Gathered {
    objects: Vec<TableOf>,
    scripts: Vec<ProcessedLinkerScript>,
    stubs: Seq<StubLibrary>,
}

/// An entry without a name, which stands nowhere and is local.
fn null_entry(alloc: Global) -> SymbolEntry {
    SymbolEntry {
        name: Name::new(Vec::new(alloc)),
        version: None,
        is_default: true,
        binding: SymbolBinding::Local,
        visibility: Visibility::Default,
        kind: SymbolKind::Plain,
        size: 0,
        place: Place::Undefined,
    }
}

/// Sets what a word says of an entry.
fn set_entry(entry: &mut SymbolEntry, word: &[u8]) -> Result<(), Fault> {
    match word {
        b"local" => entry.binding = SymbolBinding::Local,
        b"weak" => entry.binding = SymbolBinding::Weak,
        b"unique" => entry.binding = SymbolBinding::Unique,
        b"protected" => entry.visibility = Visibility::Protected,
        b"hidden" => entry.visibility = Visibility::Hidden,
        b"func" => entry.kind = SymbolKind::Func,
        b"ifunc" => entry.kind = SymbolKind::Ifunc,
        b"tls" => entry.kind = SymbolKind::Tls,
        b"undef" => entry.place = Place::Undefined,
        b"abs" => entry.place = Place::Absolute,
        b"common" => entry.place = Place::Common,
        _ => return set_size(entry, word),
    }
    Ok(())
}

/// Sets the size of an entry: `size=N`.
fn set_size(entry: &mut SymbolEntry, word: &[u8]) -> Result<(), Fault> {
    match key_and_value(word) {
        Some((b"size", value)) => {
            entry.size = u64::from(number_of(value)?);
            Ok(())
        }
        _ => Err(Fault::Word),
    }
}

/// The entry of a symbol: a definition in the first section, global and visible, but for what the words say. A version behind
/// `@@` is the default one.
fn entry_of(alloc: Global, name: &[u8], words: &[&[u8]]) -> Result<SymbolEntry, Fault> {
    let mut entry = null_entry(alloc);
    let (plain, version) = name_and_version(name);
    entry.name = unescaped(alloc, plain)?;
    if let Some(version) = version {
        let behind = version.strip_prefix(b"@".as_slice());
        entry.is_default = behind.is_some();
        entry.version = Some(unescaped(alloc, behind.unwrap_or(version))?);
    }
    entry.binding = SymbolBinding::Global;
    entry.place = Place::Section(0);
    for word in words {
        set_entry(&mut entry, word)?;
    }
    Ok(entry)
}

/// An object of one section with these symbols, which is loaded in any case.
fn object_with(alloc: Global, input: Name, symbols: Seq<SymbolEntry>) -> TableOf {
    TableOf {
        input,
        modifiers: Modifiers {
            archive: false,
            whole_archive: false,
            as_needed: false,
        },
        table: ObjectTable {
            is_dynamic: false,
            lib_name: Name::new(Vec::new(alloc)),
            sections: 1,
            symbols,
            groups: Seq::new(alloc),
            section_references: Seq::new(alloc),
            retained_sections: Seq::new(alloc),
        },
    }
}

/// Sets what a word says of an object.
fn set_object(object: &mut TableOf, word: &[u8]) -> Result<(), Fault> {
    match word {
        b"dynamic" => object.table.is_dynamic = true,
        b"archive" => object.modifiers.archive = true,
        b"whole" => object.modifiers.whole_archive = true,
        b"as_needed" => object.modifiers.as_needed = true,
        _ => return Err(Fault::Word),
    }
    Ok(())
}

/// The null entry, where the platform has one.
fn null_entries(alloc: Global, has_null: bool) -> Result<Seq<SymbolEntry>, Fault> {
    let mut symbols = Seq::new(alloc);
    if has_null {
        symbols.push(null_entry(alloc))?;
    }
    Ok(symbols)
}

/// An object without symbols, but for the null entry where the platform has one.
fn object_of(
    alloc: Global,
    has_null: bool,
    name: &[u8],
    words: &[&[u8]],
) -> Result<TableOf, Fault> {
    let symbols = null_entries(alloc, has_null)?;
    let mut object = object_with(alloc, unescaped(alloc, name)?, symbols);
    for word in words {
        set_object(&mut object, word)?;
    }
    Ok(object)
}

/// Sets what a word says of a linker script.
fn set_script(alloc: Global, script: &mut ProcessedLinkerScript, word: &[u8]) -> Result<(), Fault> {
    match key_and_value(word) {
        Some((b"entry", value)) => set_name(alloc, &mut script.entry, value),
        Some((b"version", value)) => set_name(alloc, &mut script.version, value),
        _ => Err(Fault::Word),
    }
}

/// A linker script, perhaps with the name of an entry and the text of a version script.
fn script_of(alloc: Global, name: &[u8], words: &[&[u8]]) -> Result<ProcessedLinkerScript, Fault> {
    let input = unescaped(alloc, name)?;
    let mut script = ProcessedLinkerScript {
        input,
        entry: None,
        version: None,
        symbol_defs: Seq::new(alloc),
    };
    for word in words {
        set_script(alloc, &mut script, word)?;
    }
    Ok(script)
}

/// Sets what a word says of a stub library.
fn set_stub(alloc: Global, stub: &mut StubLibrary, word: &[u8]) -> Result<(), Fault> {
    match key_and_value(word) {
        Some((b"strong", value)) => set_names(alloc, &mut stub.strong, value),
        Some((b"weak", value)) => set_names(alloc, &mut stub.weak, value),
        _ => Err(Fault::Word),
    }
}

/// A stub library.
fn stub_of(alloc: Global, name: &[u8], words: &[&[u8]]) -> Result<StubLibrary, Fault> {
    let input = unescaped(alloc, name)?;
    let mut stub = StubLibrary {
        input,
        strong: Seq::new(alloc),
        weak: Seq::new(alloc),
    };
    for word in words {
        set_stub(alloc, &mut stub, word)?;
    }
    Ok(stub)
}

impl TableOf {
    /// The object with its table checked.
    /// Which tables pass is said by `InputObject::new`; here no clause repeats it.
    pub fn checked<P: Platform>(self, alloc: Global) -> Result<ParsedInputObject<P>, Fault> {
        let TableOf {
            input,
            modifiers,
            table,
        } = self;
        match InputObject::new(alloc, table) {
            Ok(object) => Ok(ParsedInputObject::new(input, object, modifiers)),
            Err(_) => Err(Fault::Table),
        }
    }
}

impl Gathered {
    /// No file.
    /// That it is empty is left open: any files would do.
    pub fn new(alloc: Global) -> Self {
        Gathered {
            objects: Vec::new(alloc),
            scripts: Vec::new(alloc),
            stubs: Seq::new(alloc),
        }
    }

    /// The files of a batch.
    /// Which files they are is left open: any batch may be added.
    pub fn into_inputs<P: Platform>(self, alloc: Global) -> Result<Inputs<P>, Fault> {
        let Gathered {
            objects,
            scripts,
            stubs,
        } = self;
        let mut checked = Seq::new(alloc);
        for object in objects {
            checked.push(object.checked(alloc)?)?;
        }
        Ok(Inputs {
            objects: checked,
            scripts: Seq::from_vec(scripts),
            stubs,
        })
    }

    /// Adds the file, or the symbol of the last file, that a line tells. Says whether it tells one.
    /// How lines are read is left to the cases: no clause says it.
    pub fn take(&mut self, alloc: Global, has_null: bool, words: &[&[u8]]) -> Result<bool, Fault> {
        let (verb, rest) = first_and_rest(words)?;
        match verb {
            b"object" => self.add_object(alloc, has_null, rest)?,
            b"symbol" => self.add_symbol(alloc, rest)?,
            b"script" => self.add_script(alloc, rest)?,
            b"scripts" => self.add_scripts(alloc, only(rest)?)?,
            b"def" => self.add_definition(alloc, rest)?,
            b"stub" => self.add_stub(alloc, rest)?,
            _ => return Ok(false),
        }
        Ok(true)
    }

    /// Adds an object.
    fn add_object(&mut self, alloc: Global, has_null: bool, words: &[&[u8]]) -> Result<(), Fault> {
        let (name, rest) = first_and_rest(words)?;
        let object = object_of(alloc, has_null, name, rest)?;
        Ok(self.objects.push(object)?)
    }

    /// Adds a linker script.
    fn add_script(&mut self, alloc: Global, words: &[&[u8]]) -> Result<(), Fault> {
        let (name, rest) = first_and_rest(words)?;
        let script = script_of(alloc, name, rest)?;
        Ok(self.scripts.push(script)?)
    }

    /// Adds a stub library.
    fn add_stub(&mut self, alloc: Global, words: &[&[u8]]) -> Result<(), Fault> {
        let (name, rest) = first_and_rest(words)?;
        let stub = stub_of(alloc, name, rest)?;
        Ok(self.stubs.push(stub)?)
    }

    /// Adds a symbol to the last object.
    fn add_symbol(&mut self, alloc: Global, words: &[&[u8]]) -> Result<(), Fault> {
        let (name, rest) = first_and_rest(words)?;
        let entry = entry_of(alloc, name, rest)?;
        match self.objects.last_mut() {
            Some(object) => Ok(object.table.symbols.push(entry)?),
            None => Err(Fault::File),
        }
    }

    /// Adds a definition to the last linker script.
    fn add_definition(&mut self, alloc: Global, words: &[&[u8]]) -> Result<(), Fault> {
        let definition = definition_of(alloc, words)?;
        match self.scripts.last_mut() {
            Some(script) => Ok(script.symbol_defs.push(definition)?),
            None => Err(Fault::File),
        }
    }

    /// Adds so many linker scripts that say nothing.
    fn add_scripts(&mut self, alloc: Global, count: &[u8]) -> Result<(), Fault> {
        for _ in 0..number_of(count)? {
            self.add_script(alloc, &[b"empty.ld"])?;
        }
        Ok(())
    }
}
