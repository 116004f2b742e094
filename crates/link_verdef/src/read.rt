//! How version definitions are read.

ghost use Rattle.std.specs.Prelude.{◌≡◌, ◌++◌, ◌<◌, ◌^◌, ◌==◌, ℕ, List, length, position, slice_index, IfOk, IfSome, IsSomeAnd, MatchResult, Some};
ghost use Rattle.std.specs.List.Sorted.{IsStrictlyIncreasing};
ghost use Rattle.link_verdef.specs.declared.item.VersionItem.{VersionItem};
ghost use Rattle.link_verdef.specs.declared.record.Verdaux.{Verdaux};
ghost use Rattle.link_verdef.specs.declared.record.Verdef.{Verdef};
ghost use Rattle.link_verdef.specs.Image.{IsImageOf};
ghost use Rattle.link_verdef.specs.Reading.{TellsParent};
ghost use Rattle.link_verdef.specs.Records.{item_bytes, verdaux_bytes, verdef_bytes};

use crate::item::{VersionItem, VersionItems};
use crate::record::{VERDAUX_LEN, VERDEF_LEN};
use crate::write::{WriteError, write_verdef};
use link_names::{Name, Seq};
use std::alloc::{AllocError, AllocFailed, Global};
use thiserror::Error;

/// Why version definitions can't be read.
#[derive(Clone, Copy, Debug, PartialEq, Eq, Error)]
pub enum ReadError {
    /// No items are written so.
    #[error("not version definitions")]
    NotVerdef,
    /// Memory ran out.
    #[error("out of memory")]
    Memory,
}

impl From<AllocError> for ReadError {
    ghost use Rattle.link_verdef.specs.declared.read.ReadError.TheVariants.{Memory};

    ghost from_gives = { λ _ e. e ≡ Memory };

    fn from(_e: AllocError) -> ReadError {
        ReadError::Memory
    }
}

impl<T: Drop> From<AllocFailed<T>> for ReadError {
    ghost use Rattle.link_verdef.specs.declared.read.ReadError.TheVariants.{Memory};

    ghost from_gives = { λ _ e. e ≡ Memory };

    fn from(_e: AllocFailed<T>) -> ReadError {
        ReadError::Memory
    }
}

/// The count of names of the definition in front, and what stands behind the definition.
fn split_verdef(bytes: &[u8]) -> Option<(u16, &[u8])>
    ensures { (d : Verdef) (more : List ℕ) → bytes.now ≡ verdef_bytes d ++ more → d.vd_cnt < 2 ^ 16 →
        IsSomeAnd result (λ x. (x.0 ≡ d.vd_cnt) × (x.1.now ≡ more)) }
{
    let (definition, rest) = bytes.split_at_checked(VERDEF_LEN)?;
    Some((u16::from_le_bytes([definition[6], definition[7]]), rest))
}

/// The place of the name in front, and what stands behind the name.
fn split_verdaux(bytes: &[u8]) -> Option<(u32, &[u8])>
    ensures { (a : Verdaux) (more : List ℕ) → bytes.now ≡ verdaux_bytes a ++ more → a.vda_name < 2 ^ 32 →
        IsSomeAnd result (λ x. (x.0 ≡ a.vda_name) × (x.1.now ≡ more)) }
{
    let (name, rest) = bytes.split_at_checked(VERDAUX_LEN)?;
    let vda_name = u32::from_le_bytes([name[0], name[1], name[2], name[3]]);
    Some((vda_name, rest))
}

/// The number of the name that begins at this place.
fn number_at(places: &[usize], place: u32) -> Option<u16>
    ensures { (k : ℕ) → IsStrictlyIncreasing places.now → k < length places.now → k < 2 ^ 16 → slice_index places.now k ≡ place → result ≡ Some k }
{
    match places.binary_search(&(place as usize)) {
        Ok(number) => u16::try_from(number).ok(),
        Err(_) => None,
    }
}

/// The parent that the record in front names, and what stands behind the record.
fn parent_at<'r>(records: &'r [u8], places: &[usize]) -> Option<(Option<u16>, &'r [u8])>
    ensures { (count number : ℕ) (place : ℕ → ℕ) (item : VersionItem) (more : List ℕ) →
        records.now ≡ item_bytes count place (number, item) ++ more → place number < 2 ^ 32 → TellsParent places.now place item.parent →
        IsSomeAnd result (λ x. (x.0 ≡ item.parent) × (x.1.now ≡ more)) }
{
    let (vd_cnt, names) = split_verdef(records)?;
    let (_, behind) = split_verdaux(names)?;
    if vd_cnt == 1 {
        return Some((None, behind));
    }
    let (place, behind) = split_verdaux(behind)?;
    let parent = number_at(places, place)?;
    Some((Some(parent), behind))
}

/// Where the first zero byte stands.
fn zero_at(bytes: &[u8]) -> Option<usize>
    ensures value { result ≡ position (λ byte. byte == 0) bytes.now }
    ensures within { IfSome result (λ n. n < length bytes.now) }
{
    bytes.iter().position(|byte| *byte == 0)
}

/// The items whose image this may be: their names by the strings, and their parents by the records. An image gives its
/// items; of other bytes what is read has another image, or nothing is read.
fn items_in(alloc: Global, records: &[u8], strings: &[u8]) -> Result<Seq<VersionItem>, ReadError>
    ensures { (items : List VersionItem) → IsImageOf items records.now strings.now → MatchResult result (λ found. found ≡ items) (λ e. e ≡ ReadError.Memory) }
{
    let mut items = Seq::new(alloc);
    let mut places = Vec::new(alloc);
    let Some((_, mut names)) = strings.split_first() else {
        return Err(ReadError::NotVerdef);
    };
    let mut rest = records;
    'items: while let Some(len) = zero_at(names) {
        let (name, behind) = names.split_at(len);
        let Some((parent, later)) = parent_at(rest, places.as_slice()) else {
            return Err(ReadError::NotVerdef);
        };
        let name = Name::from_slice(alloc, name)?;
        places.push(strings.len() - names.len())?;
        items.push(VersionItem { name, parent })?;
        names = &behind[1..];
        rest = later;
    }
    Ok(items)
}

/// Reads version definitions that `write_verdef` can write. The hashes, the links from record to record and each other
/// byte are the ones that it writes, so there is one image of each list of items, and no other bytes are read.
///
/// A section that a linker wrote is read once its strings are laid out as `write_verdef` has them.
pub fn read_verdef(alloc: Global, records: &[u8], strings: &[u8]) -> Result<VersionItems, ReadError>
    // What is answered has this image.
    ensures found { IfOk result (λ items. IsImageOf items records.now strings.now) }
    // The items that have this image are answered, unless memory runs out.
    ensures only { (items : List VersionItem) → IsImageOf items records.now strings.now →
        MatchResult result (λ found. found ≡ items) (λ e. e ≡ ReadError.Memory) }
    // What is refused is no image of any items.
    ensures refused { result ≡ Err ReadError.NotVerdef → (items : List VersionItem) → IsImageOf items records.now strings.now → ⊥ }
{
    let items = items_in(alloc, records, strings)?;
    let Some(items) = VersionItems::new(items) else {
        return Err(ReadError::NotVerdef);
    };
    match write_verdef(alloc, &items) {
        Ok(image) => {
            if image.is(records, strings) {
                Ok(items)
            } else {
                Err(ReadError::NotVerdef)
            }
        }
        Err(WriteError::ZeroInName(_)) => Err(ReadError::NotVerdef),
        Err(WriteError::TooLong(_)) => Err(ReadError::NotVerdef),
        Err(WriteError::Memory) => Err(ReadError::Memory),
    }
}
