//! How many inputs a link may have.

ghost use Rattle.std.specs.Prelude.{◌≡◌, ◌+◌, ◌*◌, ◌^◌, ◌<◌, ◌≤◌, IfNone, length, map, option_map};
ghost use Rattle.link_input.specs.InputFiles.{object, linker_script, stub_input, symbol_count, batch_of, batch_files, sections_of};
ghost use Rattle.link_input.specs.PreludeSymbols.{prelude_symbols};
ghost use Rattle.link_input.specs.Limits.{AreWithinLimits, excess, first_excess, section_total, total};
ghost use Rattle.link_input_groups.specs.FileCounts.{AreSmall, counts_with, too_many};

use crate::counting::FileCounts;
use crate::groups_error::GroupsError;

/// At most how many objects a link may have: each may be a group, and of the 2^24 numbers of groups the linker scripts and the
/// stub libraries of each of 256 batches need one, the prelude one, and the symbols that the linker adds one.
const OBJECT_LIMIT: u128 = 16_776_700;

/// At most how many linker scripts, and how many stub libraries, a link may have.
const FILE_LIMIT: u128 = 256;

/// At most how many sections, and how many symbols, a link may have: an id has 32 bits.
const ID_LIMIT: u128 = 4_294_967_295;

/// The refusal of a count past its limit.
fn excess(kind: TooManyKind, limit: u128, count: u128) -> Option<GroupsError>
    ensures refusal { result ≡ option_map too_many (excess kind limit count) }
    ensures within { IfNone result (count ≤ limit) }
{
    if limit < count {
        Some(GroupsError::TooMany { kind, count })
    } else {
        None
    }
}

/// How many sections of an object have ids.
fn sections_of<P: Platform>(object: &ParsedInputObject<P>) -> u128
    ensures value { result ≡ sections_of object.now }
    ensures fits { result < 2 ^ 32 }
{
    if object.is_dynamic() {
        0
    } else {
        u128::from(object.object().num_sections())
    }
}

/// How many sections of objects have ids.
fn section_total<P: Platform>(objects: &[ParsedInputObject<P>]) -> u128
    requires { length objects.now < 2 ^ 25 }
    ensures value { result ≡ section_total objects.now }
    ensures fits { result < 2 ^ 100 }
{
    let mut count = 0u128;
    for object in objects {
        count += sections_of(object);
    }
    count
}

/// How many symbols objects have.
pub(crate) fn object_symbols<P: Platform>(objects: &[ParsedInputObject<P>]) -> u128
    requires { length objects.now < 2 ^ 25 }
    ensures value { result ≡ total symbol_count (map object objects.now) }
    ensures fits { result < 2 ^ 100 }
{
    let mut count = 0u128;
    for object in objects {
        count += object.num_symbols() as u128;
    }
    count
}

/// How many symbols linker scripts have.
fn script_symbols(scripts: &[ProcessedLinkerScript]) -> u128
    requires { length scripts.now ≤ 256 }
    ensures value { result ≡ total symbol_count (map linker_script scripts.now) }
    ensures fits { result < 2 ^ 100 }
{
    let mut count = 0u128;
    for script in scripts {
        count += script.num_symbols() as u128;
    }
    count
}

/// How many symbols stub libraries have.
fn stub_library_symbols(stubs: &[StubLibrary]) -> u128
    requires { length stubs.now ≤ 256 }
    ensures value { result ≡ total symbol_count (map stub_input stubs.now) }
    ensures fits { result < 2 ^ 100 }
{
    let mut count = 0u128;
    for stub in stubs {
        count += stub.num_symbols() as u128;
    }
    count
}

/// How many symbols the prelude has.
pub(crate) fn prelude_symbol_count(options: &Options) -> u128
    ensures value { result ≡ length (prelude_symbols options.now) }
    ensures fits { result < 2 ^ 100 }
{
    let linker = options.linker_symbols.len() as u128;
    let forced = options.force_undefined.len() as u128;
    let redirects = options.defsym.len() as u128;
    1 + linker + forced + redirects
}

/// How many symbols the files of a batch have.
fn batch_symbols<P: Platform>(inputs: &Inputs<P>) -> u128
    requires objects { length inputs.now.objects < 2 ^ 25 }
    requires scripts { length inputs.now.scripts ≤ 256 }
    requires stubs { length inputs.now.stubs ≤ 256 }
    ensures value { result ≡ total symbol_count (batch_files (batch_of inputs.now)) }
    ensures fits { result < 2 ^ 102 }
{
    let objects = object_symbols(inputs.objects.as_slice());
    let scripts = script_symbols(inputs.scripts.as_slice());
    let stubs = stub_library_symbols(inputs.stubs.as_slice());
    objects + scripts + stubs
}

/// The first count past its limit, where files with these counts stand before those of a batch.
pub(crate) fn first_excess<P: Platform>(
    options: &Options,
    before: FileCounts,
    inputs: &Inputs<P>,
) -> Option<GroupsError>
    requires { AreSmall before }
    ensures first { result ≡ option_map too_many (first_excess (counts_with options.now before (batch_of inputs.now))) }
    ensures within { IfNone result (AreWithinLimits (counts_with options.now before (batch_of inputs.now))) }
{
    let objects = inputs.objects.as_slice();
    let object_count = before.objects + objects.len() as u128;
    let too_many = excess(TooManyKind::Objects, OBJECT_LIMIT, object_count);
    if too_many.is_some() {
        return too_many;
    }
    let scripts = before.scripts + inputs.scripts.len() as u128;
    let too_many_scripts = excess(TooManyKind::LinkerScripts, FILE_LIMIT, scripts);
    if too_many_scripts.is_some() {
        return too_many_scripts;
    }
    let stubs = before.stubs + inputs.stubs.len() as u128;
    let too_many_stubs = excess(TooManyKind::StubLibraries, FILE_LIMIT, stubs);
    if too_many_stubs.is_some() {
        return too_many_stubs;
    }
    let sections = before.sections + section_total(objects);
    let too_many_sections = excess(TooManyKind::Sections, ID_LIMIT, sections);
    if too_many_sections.is_some() {
        return too_many_sections;
    }
    let custom = options.custom_sections.len() as u128;
    let symbols = before.symbols + batch_symbols(inputs) + 2 * custom;
    excess(TooManyKind::Symbols, ID_LIMIT, symbols)
}

use link_input::{
    Inputs, Options, ParsedInputObject, Platform, ProcessedLinkerScript, StubLibrary, TooManyKind,
};
