//! A manifest, and which bytes are one.

ghost use Rattle.std.specs.Prelude.{◌≡◌, ◌≤◌, ℕ, List, Some, Result, Ok, Err, IfOk, IfErr, IfSome, codes, length};
ghost use Rattle.serde_json.specs.Read.{read};
ghost use Rattle.link_input.specs.ObjectFile.{ObjectFile};
ghost use Rattle.link_manifest_json.specs.Spans.{IsAround};
ghost use Rattle.link_manifest_json.specs.Tree.{view};
ghost use Rattle.link_manifest.specs.declared.fault.ManifestFault.{ManifestFault};
ghost use Rattle.link_manifest.specs.declared.words.PlatformName.TheVariants as platform;
ghost use Rattle.link_manifest.specs.Checked.{AreDistinct, HasDistinctSections, HasFewBatches, HasGroupSize, IsGroupSize, contents_checked};
ghost use Rattle.link_manifest.specs.Manifest.{contents_read, manifest_of, platform_name_read, platform_read, root_read, text_manifest, world_of, world_read};
ghost use Rattle.link_manifest.specs.Reading.{IsFaultOf, Reads, ReadsIfAny, and_read, read_or};

use crate::batches::{batches, checked_batch, checked_batches, few_batches, objects_at};
use crate::contents::{Contents, UncheckedObject};
use crate::cut::cut_objects;
use crate::fault::{ManifestError, Problem};
use crate::link_options::{later_keys, options, texts};
use crate::path::fault_here;
use crate::reading::{object_of_keys, optional};
use crate::sections::sections_checked;
use crate::words::{OneOf, PlatformName};
use json::{Scratch, Value};
use link_check_claims::Claim;
use link_input::{ElfLike, MachLike, Platform, World};
use link_manifest_json::{CutRoot, cut_root};
use link_names::{Seq, text_of};
use std::alloc::Global;
use std::thread::Threads;

/// How many bytes a manifest may have: 2^28.
pub const MAX_BYTES: usize = 1 << 28;

/// What is linked, and how, for the platform that the manifest names.
#[derive(Drop)]
pub enum PlatformWorld {
    Elf(World<ElfLike>),
    Mach(World<MachLike>),
}

/// What a manifest says.
#[derive(Drop)]
pub struct Manifest {
    /// What is linked.
    pub world: PlatformWorld,
    /// What is claimed of the link; none where the manifest claims nothing.
    pub claim: Option<Claim>,
}

/// What the root says behind its platform; its objects were read already.
fn contents<P: Platform>(
    alloc: Global,
    value: &Value<'_>,
    objects: Result<Seq<UncheckedObject>, ManifestError>,
) -> Result<Contents, ManifestError>
    ensures read { (due : Result (List ObjectFile) ManifestFault) → Reads objects due
        → Reads result (contents_read P.HAS_NULL_SYMBOL_ENTRY due (view value.now)) }
    ensures group_size { IfOk result (λ contents. IsGroupSize contents.options.files_per_group) }
{
    let options = options(alloc, value)?;
    let texts = texts(alloc, value)?;
    let (first, later) = batches::<P>(alloc, value, objects)?;
    let (options, claim) = later_keys(alloc, value, options)?;
    Ok(Contents {
        options,
        texts,
        first,
        later,
        claim,
    })
}

/// The world of some contents with their claim, where they pass the checks.
fn checked_world<P: Platform>(
    alloc: Global,
    contents: Contents,
) -> Result<(World<P>, Option<Claim>), ManifestError>
    ensures read { Reads result (and_read (contents_checked P.HAS_NULL_SYMBOL_ENTRY contents) (λ _. Ok (world_of contents, contents.claim))) }
    ensures options { IfOk result (λ read. read.0.options ≡ contents.options) }
    ensures distinct { IfOk result (λ read. AreDistinct read.0.options.custom_sections) }
    ensures few { IfOk result (λ read. length read.0.later ≤ 255) }
{
    let Contents {
        options,
        texts,
        first,
        later,
        claim,
    } = contents;
    sections_checked(alloc, options.custom_sections.as_slice())?;
    few_batches(alloc, later.as_slice())?;
    let world = World {
        inputs: checked_batch(alloc, first)?,
        later: checked_batches(alloc, later)?,
        options,
        scripts: texts,
    };
    Ok((world, claim))
}

/// The world that the root of a tree describes beside its objects, with the claim.
fn world<P: Platform>(
    alloc: Global,
    value: &Value<'_>,
    objects: Result<Seq<UncheckedObject>, ManifestError>,
) -> Result<(World<P>, Option<Claim>), ManifestError>
    ensures read { (due : Result (List ObjectFile) ManifestFault) → Reads objects due
        → Reads result (world_read P.HAS_NULL_SYMBOL_ENTRY due (view value.now)) }
    ensures group_size { IfOk result (λ read. IsGroupSize read.0.options.files_per_group) }
    ensures distinct { IfOk result (λ read. AreDistinct read.0.options.custom_sections) }
    ensures few { IfOk result (λ read. length read.0.later ≤ 255) }
{
    let contents = contents::<P>(alloc, value, objects)?;
    checked_world(alloc, contents)
}

/// The manifest of a platform like ELF that a tree describes beside its objects.
fn elf(
    alloc: Global,
    value: &Value<'_>,
    objects: Result<Seq<UncheckedObject>, ManifestError>,
) -> Result<Manifest, ManifestError>
    ensures read { (due : Result (List ObjectFile) ManifestFault) → Reads objects due
        → Reads result (platform_read platform.Elf due (view value.now)) }
    ensures group_size { IfOk result HasGroupSize }
    ensures distinct { IfOk result HasDistinctSections }
    ensures few { IfOk result HasFewBatches }
{
    let (world, claim) = world(alloc, value, objects)?;
    let world = PlatformWorld::Elf(world);
    Ok(Manifest { world, claim })
}

/// The manifest of a platform like Mach-O that a tree describes beside its objects.
fn mach(
    alloc: Global,
    value: &Value<'_>,
    objects: Result<Seq<UncheckedObject>, ManifestError>,
) -> Result<Manifest, ManifestError>
    ensures read { (due : Result (List ObjectFile) ManifestFault) → Reads objects due
        → Reads result (platform_read platform.Mach due (view value.now)) }
    ensures group_size { IfOk result HasGroupSize }
    ensures distinct { IfOk result HasDistinctSections }
    ensures few { IfOk result HasFewBatches }
{
    let (world, claim) = world(alloc, value, objects)?;
    let world = PlatformWorld::Mach(world);
    Ok(Manifest { world, claim })
}

/// The platform of a tree that is an object of the root's keys.
fn platform_of(alloc: Global, value: &Value<'_>) -> Result<PlatformName, ManifestError>
    ensures { Reads result (platform_name_read (view value.now)) }
{
    object_of_keys(
        alloc,
        value,
        &[
            "platform",
            "output",
            "entry",
            "default_entry",
            "allow_multiple",
            "files_per_group",
            "wrap",
            "force_undefined",
            "force_export",
            "defsym",
            "linker_symbols",
            "custom_sections",
            "version_script",
            "export_list",
            "objects",
            "scripts",
            "stubs",
            "batches",
            "script_profile",
            "claim",
            "soname",
        ],
    )?;
    optional::<OneOf<PlatformName>>(alloc, value, "platform", PlatformName::Elf)
}

/// The manifest that a tree describes.
fn root(alloc: Global, value: &Value<'_>) -> Result<Manifest, ManifestError>
    ensures read { Reads result (root_read (view value.now)) }
    ensures group_size { IfOk result HasGroupSize }
    ensures distinct { IfOk result HasDistinctSections }
    ensures few { IfOk result HasFewBatches }
{
    match platform_of(alloc, value)? {
        PlatformName::Elf => elf(alloc, value, objects_at::<ElfLike>(alloc, value)),
        PlatformName::Mach => mach(alloc, value, objects_at::<MachLike>(alloc, value)),
    }
}

/// The JSON value of a text.
fn json_of<'a>(
    alloc: Global,
    text: &'a str,
    scratch: &'a mut Scratch,
) -> Result<Value<'a>, ManifestError>
    ensures value { IfOk result (λ value. read text.now ≡ Some (view value)) }
    ensures none { IfErr result (λ error. IsFaultOf error (read_or Problem.NotJson (read text.now))) }
{
    match link_manifest_json::tree_of(alloc, text, scratch)? {
        Some(value) => Ok(value),
        None => Err(fault_here(alloc, Problem::NotJson)),
    }
}

/// The manifest that a text is, read as one tree.
fn whole_manifest(alloc: Global, text: &str) -> Result<Manifest, ManifestError>
    ensures read { Reads result (text_manifest text.now) }
    ensures group_size { IfOk result HasGroupSize }
    ensures distinct { IfOk result HasDistinctSections }
    ensures few { IfOk result HasFewBatches }
{
    let mut scratch = Scratch::new(alloc);
    let value = json_of(alloc, text, &mut scratch)?;
    root(alloc, &value)
}

/// The manifest of a cut root that names a platform like ELF. There is none where one of the objects is no JSON value.
fn cut_elf(
    rt: &(impl Threads + Sync),
    alloc: Global,
    workers: usize,
    root: &CutRoot<'_>,
) -> Result<Option<Manifest>, ManifestError>
    ensures read { (text : List ℕ) → IsAround text (codes "objects") root.now → platform_name_read (view root.now.rest) ≡ Ok platform.Elf
        → ReadsIfAny result (text_manifest text) }
    ensures group_size { IfOk result (λ found. IfSome found HasGroupSize) }
    ensures distinct { IfOk result (λ found. IfSome found HasDistinctSections) }
    ensures few { IfOk result (λ found. IfSome found HasFewBatches) }
{
    match cut_objects::<ElfLike>(rt, alloc, workers, root)? {
        Some(objects) => Ok(Some(elf(alloc, &root.rest, objects)?)),
        None => Ok(None),
    }
}

/// The manifest of a cut root that names a platform like Mach-O. There is none where one of the objects is no JSON value.
fn cut_mach(
    rt: &(impl Threads + Sync),
    alloc: Global,
    workers: usize,
    root: &CutRoot<'_>,
) -> Result<Option<Manifest>, ManifestError>
    ensures read { (text : List ℕ) → IsAround text (codes "objects") root.now → platform_name_read (view root.now.rest) ≡ Ok platform.Mach
        → ReadsIfAny result (text_manifest text) }
    ensures group_size { IfOk result (λ found. IfSome found HasGroupSize) }
    ensures distinct { IfOk result (λ found. IfSome found HasDistinctSections) }
    ensures few { IfOk result (λ found. IfSome found HasFewBatches) }
{
    match cut_objects::<MachLike>(rt, alloc, workers, root)? {
        Some(objects) => Ok(Some(mach(alloc, &root.rest, objects)?)),
        None => Ok(None),
    }
}

/// The manifest that a cut root describes. There is none where the rest names no platform: an object that is no JSON value would be told
/// before that, so the whole text decides.
fn cut_root_manifest(
    rt: &(impl Threads + Sync),
    alloc: Global,
    workers: usize,
    root: &CutRoot<'_>,
) -> Result<Option<Manifest>, ManifestError>
    ensures read { (text : List ℕ) → IsAround text (codes "objects") root.now → ReadsIfAny result (text_manifest text) }
    ensures group_size { IfOk result (λ found. IfSome found HasGroupSize) }
    ensures distinct { IfOk result (λ found. IfSome found HasDistinctSections) }
    ensures few { IfOk result (λ found. IfSome found HasFewBatches) }
{
    match platform_of(alloc, &root.rest) {
        Ok(PlatformName::Elf) => cut_elf(rt, alloc, workers, root),
        Ok(PlatformName::Mach) => cut_mach(rt, alloc, workers, root),
        Err(_) => Ok(None),
    }
}

/// The manifest that a text is, its objects read by so many workers at most. There is none where the text can't be read so.
fn cut_manifest(
    rt: &(impl Threads + Sync),
    alloc: Global,
    workers: usize,
    text: &str,
) -> Result<Option<Manifest>, ManifestError>
    ensures read { ReadsIfAny result (text_manifest text.now) }
    ensures group_size { IfOk result (λ found. IfSome found HasGroupSize) }
    ensures distinct { IfOk result (λ found. IfSome found HasDistinctSections) }
    ensures few { IfOk result (λ found. IfSome found HasFewBatches) }
{
    let mut front = Scratch::new(alloc);
    let mut back = Scratch::new(alloc);
    match cut_root(alloc, text, &mut front, &mut back, "objects")? {
        Some(root) => cut_root_manifest(rt, alloc, workers, &root),
        None => Ok(None),
    }
}

/// The text that bytes are, where they are not too many.
fn text_in(alloc: Global, bytes: &[u8]) -> Result<&str, ManifestError>
    ensures text { IfOk result (λ text. manifest_of bytes.now ≡ text_manifest text.now) }
    ensures none { IfErr result (λ error. IsFaultOf error (manifest_of bytes.now)) }
{
    if bytes.len() > MAX_BYTES {
        return Err(fault_here(alloc, Problem::TooLong));
    }
    match text_of(bytes) {
        Some(text) => Ok(text),
        None => Err(fault_here(alloc, Problem::NotJson)),
    }
}

/// The manifest that some bytes are: one JSON value of at most [`MAX_BYTES`] bytes in UTF-8 (RFC
/// 8259), an object. Which keys it and the objects in it have, of which kind and in which order, tells
/// docs/MANIFEST.md.
///
/// Where the bytes are no manifest, the first fault is told: too many bytes, then no JSON value,
/// then the first fault on a walk of the whole value from its root, at each object its kind, its
/// least unknown key, and then its keys in their order; then the first custom section that repeats
/// an earlier one; then too many batches; last, of the first object whose table fails a check of
/// `InputObject::new`, the first check that it fails.
///
/// The objects of the root are read by so many workers at most; the answer is the same for every number of them.
pub fn manifest_of(
    rt: &(impl Threads + Sync),
    alloc: Global,
    workers: usize,
    bytes: &[u8],
) -> Result<Manifest, ManifestError>
    ensures manifest { IfOk result (λ manifest. manifest_of bytes.now ≡ Ok manifest) }
    ensures fault { (fault : ManifestFault) → result ≡ Err (ManifestError.At fault) → manifest_of bytes.now ≡ Err fault }
    ensures group_size { IfOk result HasGroupSize }
    ensures distinct { IfOk result HasDistinctSections }
    ensures few { IfOk result HasFewBatches }
{
    let text = text_in(alloc, bytes)?;
    match cut_manifest(rt, alloc, workers, text)? {
        Some(manifest) => Ok(manifest),
        None => whole_manifest(alloc, text),
    }
}
