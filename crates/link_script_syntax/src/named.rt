//! Named versions.

ghost use Rattle.std.specs.Prelude.{◌≡◌, ◌<◌, ◌≤◌, ◌^◌, [], length, IfOk, IfErr};
ghost use Rattle.link_script_syntax.specs.Fault.{IsWithin, Gives};
ghost use Rattle.link_script_syntax.specs.Named.{is_name_byte, name_len, parent_at, named_at, versions_at};

use crate::body::{RawVersionBody, body_at};
use crate::fault::{Fault, ReadError, ScriptErrorKind};
use crate::numbered::NumberedVersions;
use crate::profile::ScriptProfile;
use crate::skip::{place_of, skip, syntax};
use link_names::{Name, Seq};
use std::alloc::Global;

/// A named version as it stands in a text. The number of its parent counts from 1.
#[derive(Debug, Drop)]
pub struct RawVersion {
    pub name: Name,
    pub parent_index: Option<u16>,
    pub body: RawVersionBody,
}

/// How many named versions there may be.
pub const MAX_VERSIONS: usize = 32_766;

/// Whether the byte may stand in a name: it is no space, tab, LF, parenthesis or brace.
fn is_name_byte(byte: u8) -> bool
    ensures { result ≡ is_name_byte byte }
{
    !matches!(byte, b' ' | b'\t' | b'\n' | b'(' | b')' | b'{' | b'}')
}

/// How many bytes of a name stand in front.
fn name_len(text: &[u8]) -> usize
    ensures value { result ≡ name_len text.now }
    ensures within { result ≤ length text.now }
{
    let mut n = 0;
    for &byte in text {
        if !is_name_byte(byte) {
            return n;
        }
        n += 1;
    }
    n
}

/// A version's parent, up to a semicolon.
#[tactic(auto, unfolding(crate::specs::Named::parent_at))]
fn parent_at<'t>(
    versions: &NumberedVersions,
    text: &'t [u8],
) -> Result<(Option<u16>, &'t [u8]), ReadError>
    ensures gives { Gives (λ x. (x.0, x.1.now)) result (parent_at versions.now text.now) }
    ensures shorter { IfOk result (λ x. length x.1.now < length text.now) }
    ensures inside { IfErr result (λ e. IsWithin e (length text.now)) }
{
    let Some(end) = place_of(b';', text) else {
        return Err(syntax(text.len()));
    };
    let (name, rest) = text.split_at(end);
    let Some((_, rest)) = rest.split_first() else {
        return Err(syntax(text.len()));
    };
    if end == 0 {
        return Ok((None, rest));
    }
    match versions.number_of(name) {
        Some(number) => Ok((Some(number), rest)),
        None => Err(ReadError::Fault(Fault {
            left: text.len(),
            kind: ScriptErrorKind::UnknownParentVersion,
        })),
    }
}

/// A version, where the ones before it are known.
#[tactic(auto, unfolding(crate::specs::Named::named_at))]
fn named_at<'t>(
    alloc: Global,
    versions: &NumberedVersions,
    text: &'t [u8],
    profile: ScriptProfile,
) -> Result<(RawVersion, &'t [u8]), ReadError>
    ensures gives { Gives (λ x. (x.0, x.1.now)) result (named_at profile versions.now text.now) }
    ensures room { IfOk result (λ x. length versions.now < 32_766) }
    ensures shorter { IfOk result (λ x. length x.1.now < length text.now) }
    ensures inside { IfErr result (λ e. IsWithin e (length text.now)) }
{
    let len = name_len(text);
    if len == 0 {
        return Err(syntax(text.len()));
    }
    if versions.len() == MAX_VERSIONS {
        return Err(ReadError::Fault(Fault {
            left: text.len(),
            kind: ScriptErrorKind::TooManyVersions,
        }));
    }
    let (name, rest) = text.split_at(len);
    let rest = skip(rest)?;
    let (body, rest) = body_at(alloc, rest, profile)?;
    let (parent_index, rest) = parent_at(versions, rest)?;
    let rest = skip(rest)?;
    Ok((
        RawVersion {
            name: Name::from_slice(alloc, name)?,
            parent_index,
            body,
        },
        rest,
    ))
}

/// All versions up to the end of the text.
pub fn versions_at(
    alloc: Global,
    text: &[u8],
    profile: ScriptProfile,
) -> Result<Seq<RawVersion>, ReadError>
    ensures gives { Gives (λ v. v) result (versions_at profile text.now) }
    ensures few { IfOk result (λ v. length v < 32_767) }
    ensures inside { IfErr result (λ e. IsWithin e (length text.now)) }
{
    let mut versions = NumberedVersions::new(alloc);
    let mut rest = text;
    'versions: while !rest.is_empty() {
        let (version, after) = named_at(alloc, &versions, rest, profile)?;
        versions = versions.with(alloc, version)?;
        rest = after;
    }
    Ok(versions.into_versions())
}
