//! From a text to its tree.

ghost use Rattle.std.specs.Prelude.{◌≡◌, ◌<◌, length, option_map, Some, None, Err, IfOk, OnOk};
ghost use Rattle.json.specs.Json.{value, items, members};
ghost use Rattle.serde_json.specs.Data.{no_members};
ghost use Rattle.serde_json.specs.Read.{converted, of_json, of_items, of_members, read as read_text};
ghost use Rattle.link_manifest_json.specs.Tree.{view, items_view, members_view};

use crate::number::is_in_range;
use json::{Invalid, Reader, Scratch, Token, Value};
use std::alloc::{AllocError, AllocFailed, Global};

/// How deep lists and objects may nest.
const MAX_DEPTH: usize = 127;

/// For how many members an object makes room at first: most objects of a large text have few.
const FEW_MEMBERS: usize = 2;

/// Why no value was read.
#[derive(Clone, Copy, Drop)]
pub(crate) enum Refusal {
    NotJson,
    Memory,
}

impl From<AllocError> for Refusal {
    ghost use Rattle.std.specs.Prelude.{◌≡◌};
    ghost use Rattle.link_manifest_json.specs.declared.tree.Refusal.TheVariants.{Memory};

    ghost from_gives = { λ _ refusal. refusal ≡ Memory };

    fn from(_: AllocError) -> Self {
        Refusal::Memory
    }
}

impl<T: Drop> From<AllocFailed<T>> for Refusal {
    ghost use Rattle.std.specs.Prelude.{◌≡◌};
    ghost use Rattle.link_manifest_json.specs.declared.tree.Refusal.TheVariants.{Memory};

    ghost from_gives = { λ _ refusal. refusal ≡ Memory };

    fn from(_: AllocFailed<T>) -> Self {
        Refusal::Memory
    }
}

impl From<Invalid> for Refusal {
    ghost use Rattle.std.specs.Prelude.{◌≡◌};
    ghost use Rattle.link_manifest_json.specs.declared.tree.Refusal.TheVariants.{NotJson};

    ghost from_gives = { λ _ refusal. refusal ≡ NotJson };

    fn from(_: Invalid) -> Self {
        Refusal::NotJson
    }
}

/// The next value of a reader, in which lists and objects may nest `depth` deep.
#[cycle(read)]
#[inline(always)]
pub(crate) fn read<'a>(
    alloc: Global,
    reader: &mut Reader<'a>,
    depth: usize,
) -> Result<Value<'a>, Refusal>
    ensures ok { IfOk result (λ v. converted of_json (value depth reader.old) ≡ Some (view v, reader.new)) }
    ensures shorter { OnOk result (length reader.new < length reader.old) }
    ensures err { result ≡ Err Refusal.NotJson → converted of_json (value depth reader.old) ≡ None }
{
    let token = reader.next().ok_or(Refusal::NotJson)?;
    match token {
        Token::String(text) => Ok(Value::String(text)),
        Token::Number(text) => {
            if !is_in_range(text) {
                return Err(Refusal::NotJson);
            }
            Ok(Value::Number(text))
        }
        Token::Bool(b) => Ok(Value::Bool(b)),
        Token::Null => Ok(Value::Null),
        Token::EndObject | Token::EndArray | Token::Key(_) | Token::Bad => Err(Refusal::NotJson),
        Token::BeginArray => {
            if depth == 0 {
                return Err(Refusal::NotJson);
            }
            Ok(Value::Array(read_items(alloc, reader, depth - 1)?))
        }
        Token::BeginObject => {
            if depth == 0 {
                return Err(Refusal::NotJson);
            }
            Ok(Value::Object(read_members(alloc, reader, depth - 1)?))
        }
    }
}

/// The items of a list, behind its bracket.
#[cycle(read)]
#[inline(never)]
fn read_items<'a>(
    alloc: Global,
    reader: &mut Reader<'a>,
    depth: usize,
) -> Result<Vec<Value<'a>>, Refusal>
    ensures ok { IfOk result (λ v. converted of_items (items (value depth) (length reader.old) reader.old) ≡ Some (items_view v.items, reader.new)) }
    ensures shorter { OnOk result (length reader.new < length reader.old) }
    ensures err { result ≡ Err Refusal.NotJson → converted of_items (items (value depth) (length reader.old) reader.old) ≡ None }
{
    let mut found = Vec::new(alloc);
    'items: while !reader.take_end_array() {
        let item = read(alloc, reader, depth)?;
        found.push(item)?;
    }
    Ok(found)
}

/// The members of an object, behind its brace.
#[cycle(read)]
#[inline(never)]
fn read_members<'a>(
    alloc: Global,
    reader: &mut Reader<'a>,
    depth: usize,
) -> Result<Vec<(&'a str, Value<'a>)>, Refusal>
    ensures ok { IfOk result (λ v. converted (λ ms. of_members ms no_members) (members (value depth) (length reader.old) reader.old) ≡ Some (members_view v.items, reader.new)) }
    ensures shorter { OnOk result (length reader.new < length reader.old) }
    ensures err { result ≡ Err Refusal.NotJson → converted (λ ms. of_members ms no_members) (members (value depth) (length reader.old) reader.old) ≡ None }
{
    let mut found = Vec::with_capacity(alloc, FEW_MEMBERS)?;
    'members: while let Some(name) = reader.next_key()? {
        let member = read(alloc, reader, depth)?;
        found.push((name, member))?;
    }
    Ok(found)
}

/// The JSON value (RFC 8259) that a text is. There is none where the text is no JSON, where it nests
/// deeper than 127 lists and objects, and where a number is neither an integer of 64 bits nor has a
/// finite float next to it. Texts with escapes are written to `scratch`, all others are borrowed.
pub fn tree_of<'a>(
    alloc: Global,
    text: &'a str,
    scratch: &'a mut Scratch,
) -> Result<Option<Value<'a>>, AllocError>
    ensures { IfOk result (λ value. option_map view value ≡ read_text text.now) }
{
    let mut reader = Reader::new(text, scratch)?;
    let value = match read(alloc, &mut reader, MAX_DEPTH) {
        Ok(value) => value,
        Err(Refusal::NotJson) => return Ok(None),
        Err(Refusal::Memory) => return Err(AllocError),
    };
    if reader.next().is_some() {
        return Ok(None);
    }
    Ok(Some(value))
}
