//! A session to which batches come, and which is asked between them.

use crate::shape::{Kind, Shape, inputs_of};
use link_claim::OpenGate;
use link_core::{Session, SessionError};
use link_core_answer::Linked;
use link_input::{ElfLike, Options, Scripts};
use link_rules::LinkError;
use link_script::Plain;
use std::alloc::Global;
use std::test::Fail;
use std::thread::Threads;

/// The name that is asked for.
const ASKED: usize = 7;

/// A session without options and texts.
fn opened(alloc: Global) -> Result<Session<ElfLike, Plain>, SessionError> {
    let texts = Scripts {
        version_script: None,
        export_list: None,
    };
    Session::create(alloc, Options::new(alloc), texts, Plain, 2)
}

/// One batch more, of objects that are told by a shape.
fn add<R: Threads + Sync>(
    rt: &R,
    alloc: Global,
    session: &mut Session<ElfLike, Plain>,
    shape: &Shape,
) -> Result<(), SessionError> {
    let Ok(inputs) = inputs_of(alloc, shape) else {
        return Err(SessionError::Memory);
    };
    if session.batches() < 256 {
        session.add_batch(rt, &OpenGate, inputs)?;
    }
    Ok(())
}

/// What the name that is asked for means.
fn meaning(session: &Session<ElfLike, Plain>) -> Option<usize> {
    let id = session.current(ASKED.to_le_bytes().as_slice())?;
    Some(id.as_usize())
}

/// The object that defines the name that is asked for.
fn definer(session: &Session<ElfLike, Plain>) -> Option<usize> {
    session.object_of(session.current(ASKED.to_le_bytes().as_slice())?)
}

/// The link of all batches. A session without a batch has none.
fn finished(session: Session<ElfLike, Plain>) -> Result<Linked<ElfLike>, SessionError> {
    if session.is_ended() || session.batches() > 0 {
        return session.finish();
    }
    Err(SessionError::Link(LinkError::NoInputs))
}

/// An object that refers to the name, or archive members of which the first defines it.
fn shape_of(alloc: Global, required: usize, kinds: &[Kind]) -> Result<Shape, Fail> {
    let mut shape = Shape::without_symbols(alloc, required, kinds.len())?;
    for (object, kind) in kinds.iter().enumerate() {
        shape.add(object, ASKED, *kind)?;
    }
    Ok(shape)
}

/// A reference of the first batch stands for a definition that a member of the second one brings.
#[test]
fn a_later_batch_brings_a_definition(rt: HostRuntime) -> Result<(), Fail> {
    let main = shape_of(rt.alloc(), 1, &[Kind::Reference])?;
    let member = shape_of(rt.alloc(), 0, &[Kind::Definition])?;
    let mut session = opened(rt.alloc())?;
    let none = meaning(&session).is_none() && session.num_objects() == 0;
    add(&rt, rt.alloc(), &mut session, &main)?;
    let before = meaning(&session).is_none() && session.num_loaded() == 1;
    add(&rt, rt.alloc(), &mut session, &member)?;
    assert!(rt; none && before && meaning(&session) == Some(4));
    let all = session.num_loaded() == 2 && session.num_objects() == 2 && session.batches() == 2;
    let one = definer(&session) == Some(1);
    let linked = finished(session)?;
    assert!(rt; all && one && linked.num_symbols() == 5);
    Ok(())
}

/// What an earlier batch means stays: a member of a later batch that defines the name too isn't loaded.
#[test]
fn the_definition_of_an_earlier_batch_counts(rt: HostRuntime) -> Result<(), Fail> {
    let first = shape_of(rt.alloc(), 1, &[Kind::Reference, Kind::Definition])?;
    let second = shape_of(rt.alloc(), 1, &[Kind::Reference, Kind::Definition])?;
    let mut session = opened(rt.alloc())?;
    add(&rt, rt.alloc(), &mut session, &first)?;
    let before = meaning(&session) == Some(4);
    add(&rt, rt.alloc(), &mut session, &second)?;
    let after = meaning(&session) == Some(4) && session.num_loaded() == 3;
    let each = session.num_objects() == 4 && session.is_loaded(2) && !session.is_loaded(3);
    assert!(rt; before && after && each);
    Ok(())
}

/// A batch that is refused ends the session: it holds nothing, and says so.
#[test]
fn a_refused_batch_ends_the_session(rt: HostRuntime) -> Result<(), Fail> {
    let none = Shape::without_symbols(rt.alloc(), 0, 0)?;
    let main = shape_of(rt.alloc(), 1, &[Kind::Reference])?;
    let mut session = opened(rt.alloc())?;
    let first = add(&rt, rt.alloc(), &mut session, &none);
    let refused = matches!(first, Err(SessionError::Link(LinkError::NoInputs)));
    let ended = session.is_ended() && session.batches() == 0 && meaning(&session).is_none();
    let second = add(&rt, rt.alloc(), &mut session, &main);
    let told = matches!(second, Err(SessionError::Ended));
    let last = matches!(finished(session), Err(SessionError::Ended));
    assert!(rt; refused && ended && told && last);
    Ok(())
}
