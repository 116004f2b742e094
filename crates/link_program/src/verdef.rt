//! The version definitions of a manifest, as text.

ghost use Rattle.std.specs.Prelude.{◌≡◌, ◌++◌, Some, None, IfOk, OnOk};
ghost use Rattle.link_input.specs.declared.options.Options.{Options};
ghost use Rattle.link_input.specs.declared.world.Scripts.{Scripts};
ghost use Rattle.link_program.specs.Described.{given_in};
ghost use Rattle.link_program.specs.Verdef.{hex_text, image_text, items_ending, soname_ending, verdef_ending};

use crate::answer::{Answer, error_answer, refusal_answer};
use crate::check::key_fault_answer;
use crate::status::Status;
use link_db_texts::given_script;
use link_input::{Options, Scripts};
use link_manifest::{PlatformWorld, Problem};
use link_names::Name;
use link_verdef::{VerdefImage, VersionItems, WriteError, items_of, write_verdef};
use std::alloc::{AllocError, Global};

/// Bytes in hexadecimal digits; a dash where there are none.
fn push_hex(alloc: Global, text: &mut Vec<u8>, bytes: &[u8]) -> Result<(), AllocError>
    ensures { OnOk result (text.new.items ≡ text.old.items ++ hex_text bytes.now) }
{
    if bytes.is_empty() {
        text.push(b'-')?;
        return Ok(());
    }
    let digits = hex::encode(alloc, bytes)?;
    text.extend_from_slice(digits.as_bytes())?;
    Ok(())
}

/// The lines of an image.
fn image_text(alloc: Global, image: &VerdefImage) -> Result<Vec<u8>, AllocError>
    ensures { IfOk result (λ text. text.items ≡ image_text image.now.records image.now.strings) }
{
    let mut text = Vec::from_slice(alloc, b"records ")?;
    push_hex(alloc, &mut text, image.records.as_slice())?;
    text.extend_from_slice(b"\nstrings ")?;
    push_hex(alloc, &mut text, image.strings.as_slice())?;
    text.extend_from_slice(b"\n")?;
    Ok(text)
}

/// The answer of versions that are written, or why they can't be.
fn answer_of_items(alloc: Global, items: &VersionItems) -> Result<Answer, AllocError>
    ensures { IfOk result (λ a. items_ending None items.now ≡ (a.status, a.text.items)) }
{
    match write_verdef(alloc, items) {
        Ok(image) => Ok(Answer {
            status: Status::Linked,
            text: image_text(alloc, &image)?,
        }),
        Err(WriteError::ZeroInName(number)) => {
            let what = format!(in alloc; "Zero byte in version name {number}")?;
            error_answer(alloc, Status::Refused, what.as_bytes())
        }
        Err(WriteError::TooLong(len)) => {
            let what = format!(in alloc; "Version names too long: {len}")?;
            error_answer(alloc, Status::Refused, what.as_bytes())
        }
        Err(WriteError::Memory) => Err(AllocError),
    }
}

/// The answer of a manifest that names a shared object.
fn answer_of_script(
    alloc: Global,
    options: &Options,
    scripts: &Scripts,
    soname: &Name,
) -> Result<Answer, AllocError>
    ensures { IfOk result (λ a. soname_ending options.now scripts.now (Some soname.now) ≡ (a.status, a.text.items)) }
{
    let script = match given_script(alloc, &scripts.version_script, options.script_profile) {
        Ok(script) => script,
        Err(error) => return refusal_answer(alloc, error),
    };
    match VersionItems::new(items_of(alloc, &script, soname.as_slice())?) {
        Some(items) => answer_of_items(alloc, &items),
        // A text never spells other versions than those that a file can define.
        None => unreachable!(),
    }
}

/// The answer of a manifest without the key `soname`.
fn answer_without_soname(alloc: Global) -> Result<Answer, AllocError>
    ensures { (options : Options) (scripts : Scripts) → IfOk result (λ a. soname_ending options scripts None ≡ (a.status, a.text.items)) }
{
    key_fault_answer(alloc, b"soname", Problem::Missing)
}

/// The answer of options and texts.
fn verdef_answer(alloc: Global, options: &Options, scripts: &Scripts) -> Result<Answer, AllocError>
    ensures { IfOk result (λ a. verdef_ending options.now scripts.now ≡ (a.status, a.text.items)) }
{
    match &options.soname {
        Some(soname) => answer_of_script(alloc, options, scripts, soname),
        None => answer_without_soname(alloc),
    }
}

/// The answer of a manifest: its version definitions, or why there are none. Its files aren't looked at.
pub fn verdef_of_manifest(alloc: Global, described: PlatformWorld) -> Result<Answer, AllocError>
    ensures { IfOk result (λ a. verdef_ending (given_in described).options (given_in described).texts ≡ (a.status, a.text.items)) }
{
    match &described {
        PlatformWorld::Elf(world) => verdef_answer(alloc, &world.options, &world.scripts),
        PlatformWorld::Mach(world) => verdef_answer(alloc, &world.options, &world.scripts),
    }
}
