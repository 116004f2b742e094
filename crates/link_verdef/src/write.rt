//! How version definitions are written.

ghost use Rattle.std.specs.Prelude.{◌≡◌, ◌++◌, ◌<◌, ◌≤◌, ◌^◌, ◌↔◌, ℕ, length, map, slice_index, All, IfOk, IfSome, IsTrue, OnOk, Some, None};
ghost use Rattle.std.specs.List.{range_with_len};
ghost use Rattle.link_verdef.specs.Image.{IsImageOf, first_with_zero};
ghost use Rattle.link_verdef.specs.Item.{is_lawful};
ghost use Rattle.link_verdef.specs.Records.{item_bytes, verdef_records};
ghost use Rattle.link_verdef.specs.Strings.{has_zero, place_of, verdef_strings};

use crate::item::{VersionItem, VersionItems};
use crate::record::{VERDAUX_LEN, Verdaux, Verdef};
use link_names::Seq;
use std::alloc::{AllocError, AllocFailed, Global};
use thiserror::Error;

/// Why version definitions can't be written.
#[derive(Clone, Copy, Debug, PartialEq, Eq, Error)]
pub enum WriteError {
    /// The name of the item of this number holds a zero byte, which would end it. It is the first such item.
    #[error("Zero byte in version name {0}")]
    ZeroInName(usize),
    /// The strings have so many bytes, 2^32 or more, and no place in them fits a word. No name holds a zero byte.
    #[error("Version names too long: {0}")]
    TooLong(usize),
    /// Memory ran out.
    #[error("out of memory")]
    Memory,
}

impl From<AllocError> for WriteError {
    ghost use Rattle.link_verdef.specs.declared.write.WriteError.TheVariants.{Memory};

    ghost from_gives = { λ _ e. e ≡ Memory };

    fn from(_e: AllocError) -> WriteError {
        WriteError::Memory
    }
}

/// Version definitions as a file has them, in bytes.
#[derive(Debug, Drop)]
pub struct VerdefImage {
    /// The records, one item after another.
    pub records: Seq<u8>,
    /// The strings that the records name by their places.
    pub strings: Seq<u8>,
}

impl VerdefImage {
    /// It is exactly these records and strings.
    pub fn is(&self, records: &[u8], strings: &[u8]) -> bool
        ensures { IsTrue result ↔ ((self.now.records ≡ records.now) × (self.now.strings ≡ strings.now)) }
    {
        self.records.as_slice() == records && self.strings.as_slice() == strings
    }
}

/// The strings of items, and where the name of each begins.
struct Strings {
    bytes: Vec<u8>,
    places: Vec<usize>,
}

/// Whether the name holds a zero byte.
fn has_zero(item: &VersionItem) -> bool
    ensures { result ≡ has_zero item.now }
{
    item.name.as_slice().contains(&0)
}

/// The number of the first item whose name holds a zero byte.
fn first_with_zero(items: &[VersionItem]) -> Option<usize>
    ensures { result ≡ first_with_zero items.now }
{
    items.iter().position(|item| has_zero(item))
}

/// The strings of the items.
fn strings_of(alloc: Global, items: &[VersionItem]) -> Result<Strings, AllocError>
    ensures bytes { IfOk result (λ strings. strings.bytes.items ≡ verdef_strings items.now) }
    ensures places { IfOk result (λ strings. strings.places.items ≡ map (place_of items.now) (range_with_len 0 (length items.now))) }
{
    let mut bytes = vec![in alloc; 0]?;
    let mut places = Vec::new(alloc);
    for item in items {
        places.push(bytes.len())?;
        bytes.extend_from_slice(item.name.as_slice())?;
        bytes.push(0)?;
    }
    Ok(Strings { bytes, places })
}

/// Adds the record of the item of this number, of so many items: its definition, its name and that of its parent.
fn push_item(
    out: &mut Vec<u8>,
    count: usize,
    places: &[usize],
    number: usize,
    item: &VersionItem,
) -> Result<(), AllocError>
    requires few { length places.now ≤ 32_767 }
    requires within { number < length places.now }
    requires parent { IfSome item.now.parent (λ parent. parent < length places.now) }
    requires short { All (λ place. place < 2 ^ 32) places.now }
    ensures { OnOk result (out.new.items ≡ out.old.items ++ item_bytes count (slice_index places.now) (number, item.now)) }
{
    Verdef::of(count, number, item).push_to(out)?;
    let vda_name = places[number] as u32;
    match item.parent {
        None => {
            let own = Verdaux {
                vda_name,
                vda_next: 0,
            };
            own.push_to(out)?;
        }
        Some(parent) => {
            let own = Verdaux {
                vda_name,
                vda_next: VERDAUX_LEN as u32,
            };
            own.push_to(out)?;
            let extended = Verdaux {
                vda_name: places[parent as usize] as u32,
                vda_next: 0,
            };
            extended.push_to(out)?;
        }
    }
    Ok(())
}

/// The records of the items, whose names have these places.
fn records_of(alloc: Global, items: &[VersionItem], places: &[usize]) -> Result<Vec<u8>, AllocError>
    requires lawful { IsTrue (is_lawful items.now) }
    requires places { places.now ≡ map (place_of items.now) (range_with_len 0 (length items.now)) }
    requires short { length (verdef_strings items.now) < 2 ^ 32 }
    ensures { IfOk result (λ records. records.items ≡ verdef_records items.now) }
{
    let mut records = Vec::new(alloc);
    for (number, item) in items.iter().enumerate() {
        push_item(&mut records, items.len(), places, number, item)?;
    }
    Ok(records)
}

/// Writes version definitions: the records, and the strings that they name.
///
/// A string table of its own is written, with the empty string first and the names in the order of the items. Linkers
/// that put the names among others into `.dynstr` have other places in their records.
pub fn write_verdef(alloc: Global, items: &VersionItems) -> Result<VerdefImage, WriteError>
    ensures ok { IfOk result (λ image. IsImageOf items.now image.records image.strings) }
    ensures zero_in_name { (number : ℕ) → (result ≡ Err (WriteError.ZeroInName number)) ↔ (first_with_zero items.now ≡ Some number) }
    ensures too_long { (len : ℕ) → result ≡ Err (WriteError.TooLong len) →
        (first_with_zero items.now ≡ None) × (len ≡ length (verdef_strings items.now)) × (2 ^ 32 ≤ len) }
{
    if let Some(number) = first_with_zero(items.as_slice()) {
        return Err(WriteError::ZeroInName(number));
    }
    let Strings { bytes, places } = strings_of(alloc, items.as_slice())?;
    if bytes.len() > u32::MAX as usize {
        return Err(WriteError::TooLong(bytes.len()));
    }
    let records = records_of(alloc, items.as_slice(), places.as_slice())?;
    Ok(VerdefImage {
        records: Seq::from_vec(records),
        strings: Seq::from_vec(bytes),
    })
}
