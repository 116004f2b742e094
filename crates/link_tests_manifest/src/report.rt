//! That the text of a refusal is made with ample memory. Which bytes it has is in the contract.

use link_input::TooManyKind;
use link_names::{Name, Seq};
use link_report::refusal_text;
use link_rules::{LinkError, ScriptOrigin};
use link_script_syntax::{ScriptError, ScriptErrorKind};
use std::alloc::{AllocError, Global};
use std::test::Fail;

/// The list of one item.
fn one<T: Drop>(alloc: Global, item: T) -> Result<Seq<T>, AllocError> {
    let mut items = Seq::new(alloc);
    items.push(item)?;
    Ok(items)
}

/// Whether the refusal is told by this text.
fn is_told(alloc: Global, error: &LinkError, text: &[u8]) -> Result<bool, AllocError> {
    Ok(refusal_text(alloc, error)?.as_slice() == text)
}

#[test]
fn the_text_of_a_count(rt: HostRuntime) -> Result<(), Fail> {
    let error = LinkError::TooMany {
        kind: TooManyKind::LinkerScripts,
        count: 257,
    };
    assert!(rt; is_told(rt.alloc(), &error, b"Too many linker scripts: 257")?);
    Ok(())
}

#[test]
fn the_text_of_a_script_that_is_none(rt: HostRuntime) -> Result<(), Fail> {
    let error = LinkError::Script {
        origin: ScriptOrigin::ForcedExport(0),
        error: ScriptError {
            at: 9,
            kind: ScriptErrorKind::Syntax,
        },
    };
    assert!(rt;
        is_told(
            rt.alloc(),
            &error,
            b"Failed to parse forced export 0: Syntax error at 9"
        )?
    );
    Ok(())
}

#[test]
fn the_text_of_duplicates(rt: HostRuntime) -> Result<(), Fail> {
    let mut lines = one(rt.alloc(), Name::from_slice(rt.alloc(), b"foo")?)?;
    lines.push(Name::from_slice(rt.alloc(), b"\xff")?)?;
    let error = LinkError::DuplicateSymbols(lines);
    assert!(rt; is_told(rt.alloc(), &error, b"Duplicate symbols detected: foo\n\xff")?);
    Ok(())
}
