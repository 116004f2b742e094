//! The root of a text that is cut around a list, with the items of the list read side by side.

ghost use Rattle.std.specs.Prelude.{◌≡◌, ◌∷◌, ℕ, List, Some, None, map, if◌then◌else◌, IfOk, IfSome};
ghost use Rattle.link_manifest_json.specs.Spans.{IsAround, IsBack, IsFront, IsRest, IsRoot, MembersBefore};
ghost use Rattle.link_manifest_json.specs.Tree.{view};

use crate::cutting::spans_of;
use crate::runs::{item_read, texts_read};
use crate::tree::{Refusal, read};
use json::{Reader, Scratch, Token, Value};
use std::alloc::{AllocError, Global};
use std::thread::Threads;

/// How deep lists and objects may nest in a member of the root.
const MEMBER_DEPTH: usize = 126;

/// An object, cut around the items of a list that one of its keys has: they are still to be read.
#[derive(Drop)]
pub struct CutRoot<'a> {
    /// The object without the list. Where the key stood before the list too, it is in here with the value that it has there.
    pub rest: Value<'a>,
    /// The items of the list but the last one.
    pub items: Vec<&'a str>,
    pub last: &'a str,
}

/// The members before a key or the end of an object, and whether the key comes.
fn members_before<'a>(
    alloc: Global,
    reader: &mut Reader<'a>,
    key: &str,
) -> Result<(Vec<(&'a str, Value<'a>)>, bool), Refusal>
    ensures { IfOk result (λ found. MembersBefore key.now found.0.items (if found.1 then Some key.now else None) reader.old reader.new) }
{
    let mut found = Vec::new(alloc);
    'members: while let Some(name) = reader.next_key()? {
        if name == key {
            return Ok((found, true));
        }
        let member = read(alloc, reader, MEMBER_DEPTH)?;
        found.push((name, member))?;
    }
    Ok((found, false))
}

/// The members at the front of a text that ends behind a key.
fn front_of<'a>(
    alloc: Global,
    text: &'a str,
    scratch: &'a mut Scratch,
    key: &str,
) -> Result<Vec<(&'a str, Value<'a>)>, Refusal>
    ensures { IfOk result (λ found. IsFront text.now key.now found.items) }
{
    let mut reader = Reader::new(text, scratch)?;
    let Some(Token::BeginObject) = reader.next() else {
        return Err(Refusal::NotJson);
    };
    let (found, is_at_key) = members_before(alloc, &mut reader, key)?;
    if !is_at_key || reader.next().is_some() {
        return Err(Refusal::NotJson);
    }
    Ok(found)
}

/// The members behind a list, up to the end of the root.
fn back_of<'a>(
    alloc: Global,
    text: &'a str,
    scratch: &'a mut Scratch,
    key: &str,
) -> Result<Vec<(&'a str, Value<'a>)>, Refusal>
    ensures { IfOk result (λ found. IsBack text.now key.now found.items) }
{
    let mut reader = Reader::new(text, scratch)?;
    let Some(Token::EndArray) = reader.next() else {
        return Err(Refusal::NotJson);
    };
    let (found, is_at_key) = members_before(alloc, &mut reader, key)?;
    if is_at_key || reader.next().is_some() {
        return Err(Refusal::NotJson);
    }
    Ok(found)
}

/// The object whose members stand before and behind a list that a key has.
fn rest_of<'a>(
    alloc: Global,
    head: &'a str,
    tail: &'a str,
    front: &'a mut Scratch,
    back: &'a mut Scratch,
    key: &str,
) -> Result<Value<'a>, Refusal>
    ensures { IfOk result (λ rest. IsRest head.now tail.now key.now (view rest)) }
{
    let mut members = front_of(alloc, head, front, key)?;
    let mut behind = back_of(alloc, tail, back, key)?;
    members.append(&mut behind)?;
    Ok(Value::Object(members))
}

/// The object that a text is, cut around the items of the list that its last member with a key has: there is one only where the list isn't
/// empty. Where none is given, the text may still be such an object: [`tree_of`] decides.
pub fn cut_root<'a>(
    alloc: Global,
    text: &'a str,
    front: &'a mut Scratch,
    back: &'a mut Scratch,
    key: &str,
) -> Result<Option<CutRoot<'a>>, AllocError>
    ensures { IfOk result (λ found. IfSome found (λ root. IsAround text.now key.now root)) }
{
    let Some(spans) = spans_of(alloc, text, key)? else {
        return Ok(None);
    };
    match rest_of(alloc, spans.head, spans.tail, front, back, key) {
        Ok(rest) => Ok(Some(CutRoot {
            rest,
            items: spans.items,
            last: spans.last,
        })),
        Err(Refusal::NotJson) => Ok(None),
        Err(Refusal::Memory) => Err(AllocError),
    }
}

/// What a function makes of each item of the list, read by so many workers at most. None is given where one of the texts is no JSON value:
/// what the whole text is, [`tree_of`] decides.
pub fn items_read<T: Drop + Send, F: Fn(&Value<'_>) -> T + Sync>(
    rt: &(impl Threads + Sync),
    alloc: Global,
    workers: usize,
    root: &CutRoot<'_>,
    f: &F,
) -> Result<Option<Vec<T>>, AllocError>
    requires { F.IsAlwaysCallable f.now }
    ensures { IfOk result (λ found. IfSome found (λ made. (text key : List ℕ) → IsAround text key root.now
        → IsRoot F.Fn f.now text key (view root.now.rest) made.items)) }
{
    let Some(mut made) = texts_read(rt, alloc, workers, root.items.as_slice(), f)? else {
        return Ok(None);
    };
    let mut scratch = Scratch::new(alloc);
    match item_read(alloc, root.last, &mut scratch, f) {
        Ok(last) => made.push(last)?,
        Err(Refusal::NotJson) => return Ok(None),
        Err(Refusal::Memory) => return Err(AllocError),
    }
    Ok(Some(made))
}
