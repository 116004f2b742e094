//! How many inputs a link may have.

ghost use Rattle.std.specs.Prelude.{◌≡◌, ◌<◌, ◌≤◌, ◌^◌, IfNone, IfOk};
ghost use Rattle.link_input.specs.InputFiles.{batch_of, sections_of};
ghost use Rattle.link_input.specs.Limits.{excess, first_excess, section_total, with_boundaries};
ghost use Rattle.link_rules.specs.Refusals.{too_many};
ghost use Rattle.link_check_texts.specs.Causes.{TellsCause, count_refusal, counts_of_batch};

use link_input::{Inputs, Options, ParsedInputObject, Platform, TooManyKind};
use link_rules::LinkError;

/// At most how many objects a link may have: each may be a group of its own, and of the 2^24 numbers of groups the linker scripts and the
/// stub libraries of each of 256 batches need one, the prelude one, and the symbols that the linker adds one; two are left over.
const OBJECT_LIMIT: u128 = 16_776_700;

/// At most how many linker scripts, and how many stub libraries: each is a file of a group.
const FILE_LIMIT: u128 = 256;

/// At most how many sections of regular objects, and how many symbols: an id has 32 bits.
const ID_LIMIT: u128 = 4_294_967_295;

/// The refusal of a count past its limit.
fn excess(kind: TooManyKind, limit: u128, count: u128) -> Option<LinkError>
    ensures refusal { result ≡ too_many (excess kind limit count) }
    ensures within { IfNone result (count ≤ limit) }
{
    if limit < count {
        Some(LinkError::TooMany { kind, count })
    } else {
        None
    }
}

/// How many sections of an object have ids.
fn sections_of<P: Platform>(object: &ParsedInputObject<P>) -> u128
    ensures value { result ≡ sections_of object.now }
    ensures fits { result < 2 ^ 32 }
{
    if object.is_dynamic() {
        0
    } else {
        u128::from(object.object().num_sections())
    }
}

/// How many sections of objects have ids.
fn section_total<P: Platform>(objects: &[ParsedInputObject<P>]) -> u128
    ensures { result ≡ section_total objects.now }
{
    let mut count = 0u128;
    for object in objects {
        count += sections_of(object);
    }
    count
}

/// How many symbols there are with the start and the stop symbol that each custom section may get.
fn with_boundaries(options: &Options, symbols: usize) -> u128
    ensures { result ≡ with_boundaries options.now symbols }
{
    symbols as u128 + 2 * options.custom_sections.len() as u128
}

/// The refusal where there is more of something than ids can name, or no object.
pub(crate) fn check_counts<P: Platform>(
    options: &Options,
    inputs: &Inputs<P>,
    num_symbols: usize,
) -> Result<(), LinkError>
    ensures cause { TellsCause (count_refusal options.now (batch_of inputs.now) num_symbols) result }
    ensures few { IfOk result (λ _. num_symbols < 2 ^ 32) }
{
    match limit_excess(options, inputs, num_symbols) {
        Some(error) => Err(error),
        None if inputs.objects.is_empty() => Err(LinkError::NoInputs),
        None => Ok(()),
    }
}

/// The refusal of the first kind of which there is more than ids can name.
fn limit_excess<P: Platform>(
    options: &Options,
    inputs: &Inputs<P>,
    num_symbols: usize,
) -> Option<LinkError>
    ensures refusal { result ≡ too_many (first_excess (counts_of_batch options.now (batch_of inputs.now) num_symbols)) }
    ensures few { IfNone result (num_symbols < 2 ^ 32) }
{
    let objects = inputs.objects.as_slice();
    let object_count = objects.len() as u128;
    let script_count = inputs.scripts.len() as u128;
    let stub_count = inputs.stubs.len() as u128;
    let symbol_count = with_boundaries(options, num_symbols);
    excess(TooManyKind::Objects, OBJECT_LIMIT, object_count)
        .or(excess(TooManyKind::LinkerScripts, FILE_LIMIT, script_count))
        .or(excess(TooManyKind::StubLibraries, FILE_LIMIT, stub_count))
        .or(excess(TooManyKind::Sections, ID_LIMIT, section_total(objects)))
        .or(excess(TooManyKind::Symbols, ID_LIMIT, symbol_count))
}
