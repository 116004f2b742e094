//! Scripts and export lists by example: each line of standard input is a text and names to ask of it, and each line of
//! standard output what they give. So a case costs no proof, and two compilers run it.
//!
//! A line is cut at `|`: a kind, a text, and names. `%HH` stands for the byte of these two hexadecimal digits. The kinds are
//! `script`, a version script, where a name may ask for a version behind `@`; `gnu` and `macho`, export lists; `entry` and
//! `forced`, a name that is added to an empty list, with its semicolon or without it; `lenient script` and `lenient gnu`, a
//! version script and an export list that the lenient profile reads. Empty lines, and those that begin with `//`, are not
//! read.
#![tactic(auto)]

ghost use Rattle.std.specs.Prelude.{◌<◌};

use link_names::Name;
use link_program_streams::{RealSink, RealSource, read_all, write_all};
use link_script::{ExportList, Plain, VersionScript};
use link_script_syntax::{ScriptFault, ScriptProfile};
use std::alloc::{AllocError, Global};
use std::fmt::Write;
use std::process::ExitCode;

/// At most so many bytes of cases are read.
const MAX_BYTES: usize = 1 << 20;

/// The value of a hexadecimal digit, or 0.
fn digit(byte: u8) -> u8
    ensures { result < 16 }
{
    match byte {
        b'0'..=b'9' => byte - b'0',
        b'a'..=b'f' => byte - b'a' + 10,
        _ => 0,
    }
}

/// The bytes that a field stands for.
fn unescaped(alloc: Global, field: &[u8]) -> Result<Vec<u8>, AllocError> {
    let mut bytes = Vec::new(alloc);
    let mut parts = field.split(|byte| *byte == b'%');
    if let Some(first) = parts.next() {
        bytes.extend_from_slice(first)?;
    }
    for part in parts {
        if let [high, low, rest @ ..] = part {
            bytes.push(digit(*high) * 16 + digit(*low))?;
            bytes.extend_from_slice(rest)?;
        }
    }
    Ok(bytes)
}

/// The name, and behind an `@` the version that it asks for.
fn asked(field: &[u8]) -> (&[u8], Option<&[u8]>) {
    match field.iter().position(|byte| *byte == b'@') {
        Some(at) => (&field[..at], Some(&field[at + 1..])),
        None => (field, None),
    }
}

/// Adds the fault of a text.
fn add_fault(text: &mut String, fault: ScriptFault) -> Result<(), AllocError> {
    match fault {
        ScriptFault::Memory => Err(AllocError),
        ScriptFault::Text(error) => write!(text, "{error}"),
    }
}

/// Adds what a script gives of a name.
fn add_version(
    text: &mut String,
    alloc: Global,
    script: &VersionScript,
    field: &[u8],
) -> Result<(), AllocError> {
    let (name, version) = asked(field);
    let shown = Name::from_slice(alloc, name)?;
    match script.version_for_symbol(name, version, &Plain) {
        Ok(Some(number)) => write!(text, ", {shown} {number}")?,
        Ok(None) => write!(text, ", {shown} none")?,
        Err(_) => write!(text, ", {shown} undefined")?,
    }
    if let VersionScript::Regular(versions) = script {
        if versions.is_local(name, &Plain) {
            text.push_str(" local")?;
        }
    }
    Ok(())
}

/// Adds what a version script gives: how many versions it has and how many have a parent, or how many names it lists, and
/// the version of each name.
fn add_script(
    text: &mut String,
    alloc: Global,
    script: &VersionScript,
    names: &[Vec<u8>],
) -> Result<(), AllocError> {
    match script {
        VersionScript::Rust(rust) => write!(text, "{} exported", rust.global.len())?,
        VersionScript::Regular(_) => {
            let versions = script.version_count();
            write!(
                text,
                "{versions} versions, {} parents",
                script.parent_count()
            )?;
        }
    }
    for name in names {
        add_version(text, alloc, script, name.as_slice())?;
    }
    Ok(())
}

/// Adds what the text of a version script gives in a profile, or its fault.
fn add_text_of_script(
    text: &mut String,
    alloc: Global,
    bytes: &[u8],
    profile: ScriptProfile,
    names: &[Vec<u8>],
) -> Result<(), AllocError> {
    match VersionScript::parse(alloc, bytes, profile) {
        Ok(script) => add_script(text, alloc, &script, names),
        Err(fault) => add_fault(text, fault),
    }
}

/// Adds what an export list gives: the names that it requires, and which of these names it has.
fn add_list(
    text: &mut String,
    alloc: Global,
    list: &ExportList,
    names: &[Vec<u8>],
) -> Result<(), AllocError> {
    text.push_str("required:")?;
    for name in list.required_symbols() {
        write!(text, " {name}")?;
    }
    for name in names {
        let shown = Name::from_slice(alloc, name.as_slice())?;
        let has = if list.contains(name.as_slice(), &Plain) {
            "yes"
        } else {
            "no"
        };
        write!(text, ", {shown} {has}")?;
    }
    Ok(())
}

/// An empty list, and the name that the text adds.
fn list_with(alloc: Global, bytes: &[u8], is_forced: bool) -> Result<ExportList, ScriptFault> {
    let mut list = ExportList::empty(alloc);
    list.add_symbol(bytes, is_forced)?;
    Ok(list)
}

/// Adds what the list gives, or the fault of its text.
fn add_list_or_fault(
    text: &mut String,
    alloc: Global,
    list: Result<ExportList, ScriptFault>,
    names: &[Vec<u8>],
) -> Result<(), AllocError> {
    match list {
        Ok(list) => add_list(text, alloc, &list, names),
        Err(fault) => add_fault(text, fault),
    }
}

/// Adds the answer of a case: of its kind, its text and its names.
fn add_answer(
    text: &mut String,
    alloc: Global,
    kind: &[u8],
    bytes: &[u8],
    names: &[Vec<u8>],
) -> Result<(), AllocError> {
    match kind {
        b"script" => add_text_of_script(text, alloc, bytes, ScriptProfile::Wild, names),
        b"lenient script" => add_text_of_script(text, alloc, bytes, ScriptProfile::Lenient, names),
        b"gnu" => {
            let list = ExportList::parse_gnu(alloc, bytes, ScriptProfile::Wild);
            add_list_or_fault(text, alloc, list, names)
        }
        b"lenient gnu" => {
            let list = ExportList::parse_gnu(alloc, bytes, ScriptProfile::Lenient);
            add_list_or_fault(text, alloc, list, names)
        }
        b"macho" => add_list_or_fault(text, alloc, ExportList::parse_macho(alloc, bytes), names),
        b"entry" => add_list_or_fault(text, alloc, list_with(alloc, bytes, false), names),
        b"forced" => add_list_or_fault(text, alloc, list_with(alloc, bytes, true), names),
        _ => text.push_str("no such kind"),
    }
}

/// Adds the line of a case.
fn add_case(text: &mut String, alloc: Global, line: &[u8]) -> Result<(), AllocError> {
    let mut fields = Vec::new(alloc);
    for field in line.split(|byte| *byte == b'|') {
        fields.push(unescaped(alloc, field)?)?;
    }
    if let [kind, bytes, names @ ..] = fields.as_slice() {
        add_answer(text, alloc, kind.as_slice(), bytes.as_slice(), names)?;
        text.push_str("\n")?;
    }
    Ok(())
}

/// The answers to all cases.
fn answers(alloc: Global, cases: &[u8]) -> Result<String, AllocError> {
    let mut text = String::new(alloc);
    for line in cases.split(|byte| *byte == b'\n') {
        if !line.starts_with(b"//") {
            add_case(&mut text, alloc, line)?;
        }
    }
    Ok(text)
}

fn main(rt: HostRuntime) -> ExitCode {
    let alloc = rt.alloc();
    let mut source = RealSource::new(rt.stdin());
    let mut sink = RealSink::new(rt.stdout());
    let Ok(cases) = read_all(alloc, &mut source, MAX_BYTES) else {
        return ExitCode::FAILURE;
    };
    let Ok(text) = answers(alloc, &cases) else {
        return ExitCode::FAILURE;
    };
    match write_all(&mut sink, text.as_bytes()) {
        Ok(()) => ExitCode::SUCCESS,
        Err(_) => ExitCode::FAILURE,
    }
}
