//! A text, cut around the items of a list.

ghost use Rattle.std.specs.Prelude.{◌≡◌, ◌∷◌, ◌++◌, ℕ, List, map, IfOk, IfSome};
ghost use Rattle.link_manifest_json.specs.Spans.{IsCut};

use std::alloc::{AllocError, Global};

/// A text, cut around the items of a list.
#[derive(Drop)]
pub(crate) struct Spans<'a> {
    /// What stands before the list.
    pub(crate) head: &'a str,
    /// The items but the last one.
    pub(crate) items: Vec<&'a str>,
    pub(crate) last: &'a str,
    /// The bracket that ends the list, and what stands behind it.
    pub(crate) tail: &'a str,
}

/// Where to cut. Nothing is claimed of these places: the cutting looks at the byte at each of them, and where one isn't as it must be, the text is
/// read whole.
#[derive(Drop)]
struct Cuts {
    /// The place of the list's bracket.
    open: usize,
    /// The lengths of the items but the last one.
    lengths: Vec<usize>,
    last: usize,
}

/// What a walk over the bytes of a text has passed.
#[derive(Clone, Copy)]
struct Walk {
    /// How many lists and objects are open.
    depth: usize,
    is_in_text: bool,
    is_escaped: bool,
}

impl Walk {
    /// A walk that passed nothing.
    fn new() -> Self {
        Walk {
            depth: 0,
            is_in_text: false,
            is_escaped: false,
        }
    }

    /// A key of the root may begin here.
    fn is_at_root(&self) -> bool {
        self.depth == 1 && !self.is_in_text
    }

    /// Neither text nor list nor object is open.
    fn is_outside(&self) -> bool {
        self.depth == 0 && !self.is_in_text
    }

    /// Passes a byte of a text.
    fn pass_in_text(&mut self, byte: u8) {
        if self.is_escaped {
            self.is_escaped = false;
        } else if byte == b'\\' {
            self.is_escaped = true;
        } else if byte == b'"' {
            self.is_in_text = false;
        }
    }

    /// Passes a byte.
    fn pass(&mut self, byte: u8) {
        if self.is_in_text {
            self.pass_in_text(byte);
            return;
        }
        match byte {
            b'"' => self.is_in_text = true,
            b'{' | b'[' => self.depth = self.depth.wrapping_add(1),
            b'}' | b']' => self.depth = self.depth.wrapping_sub(1),
            _ => {}
        }
    }
}

/// The place of the bracket of a list behind this key, which is to stand behind a quote.
fn list_behind(bytes: &[u8], key: &str) -> Option<usize> {
    let rest = bytes.strip_prefix(key.as_bytes())?.strip_prefix(b"\"")?;
    let rest = rest
        .trim_ascii_start()
        .strip_prefix(b":")?
        .trim_ascii_start();
    if rest.first() == Some(&b'[') {
        bytes.len().checked_sub(rest.len())
    } else {
        None
    }
}

/// The place of the bracket of the list that a key of the root has.
fn list_of(bytes: &[u8], key: &str) -> Option<usize> {
    let mut walk = Walk::new();
    for (place, byte) in bytes.iter().enumerate() {
        if *byte == b'"' && walk.is_at_root() {
            let behind = place.wrapping_add(1);
            if let Some(length) = bytes
                .get(behind..bytes.len())
                .and_then(|rest| list_behind(rest, key))
            {
                return behind.checked_add(length);
            }
        }
        walk.pass(*byte);
    }
    None
}

/// Where the items of the list end whose bracket stands at a place.
fn cuts_from(alloc: Global, bytes: &[u8], open: usize) -> Result<Option<Cuts>, AllocError> {
    let Some(list) = open
        .checked_add(1)
        .and_then(|from| bytes.get(from..bytes.len()))
    else {
        return Ok(None);
    };
    let mut lengths = Vec::new(alloc);
    let mut walk = Walk::new();
    let mut start = 0usize;
    for (place, byte) in list.iter().enumerate() {
        if walk.is_outside() {
            let length = place.wrapping_sub(start);
            match *byte {
                b']' => return Ok(Some(Cuts {
                    open,
                    lengths,
                    last: length,
                })),
                b',' => {
                    lengths.push(length)?;
                    start = place.wrapping_add(1);
                }
                _ => {}
            }
        }
        walk.pass(*byte);
    }
    Ok(None)
}

/// The texts before and behind a byte at a place.
fn split_at_byte<'a>(text: &'a str, place: usize, byte: u8) -> Option<(&'a str, &'a str)>
    ensures { IfSome result (λ parts. text.now ≡ parts.0.now ++ (byte ∷ parts.1.now)) }
{
    let (before, at) = text.split_at_checked(place)?;
    let (first, behind) = at.split_at_checked(1)?;
    if first.as_bytes()[0] != byte {
        return None;
    }
    Some((before, behind))
}

/// The texts before a byte at a place, and from it on.
fn split_before_byte<'a>(text: &'a str, place: usize, byte: u8) -> Option<(&'a str, &'a str)>
    ensures { IfSome result (λ parts. (text.now ≡ parts.0.now ++ parts.1.now) × ((r : List ℕ) × (parts.1.now ≡ byte ∷ r))) }
{
    let (before, at) = text.split_at_checked(place)?;
    let (first, _) = at.split_at_checked(1)?;
    if first.as_bytes()[0] != byte {
        return None;
    }
    Some((before, at))
}

/// A text, cut at these places, where they are as they must be.
fn cut<'a>(alloc: Global, text: &'a str, cuts: &Cuts) -> Result<Option<Spans<'a>>, AllocError>
    ensures { IfOk result (λ found. IfSome found (λ spans. IsCut text.now spans.head.now (map (λ s. s.now) spans.items.items) spans.last.now spans.tail.now)) }
{
    let Some((head, mut rest)) = split_at_byte(text, cuts.open, b'[') else {
        return Ok(None);
    };
    let mut items = Vec::new(alloc);
    'items: for length in cuts.lengths.iter() {
        let Some((item, behind)) = split_at_byte(rest, *length, b',') else {
            return Ok(None);
        };
        items.push(item)?;
        rest = behind;
    }
    let Some((last, tail)) = split_before_byte(rest, cuts.last, b']') else {
        return Ok(None);
    };
    Ok(Some(Spans {
        head,
        items,
        last,
        tail,
    }))
}

/// A text, cut around the items of the list that a key of its root has; none where it can't be cut so. The text is walked byte by byte, which takes
/// no memory, where a reader of tokens takes as much as the text has.
pub(crate) fn spans_of<'a>(
    alloc: Global,
    text: &'a str,
    key: &str,
) -> Result<Option<Spans<'a>>, AllocError>
    ensures { IfOk result (λ found. IfSome found (λ spans. IsCut text.now spans.head.now (map (λ s. s.now) spans.items.items) spans.last.now spans.tail.now)) }
{
    let bytes = text.as_bytes();
    let Some(open) = list_of(bytes, key) else {
        return Ok(None);
    };
    let Some(cuts) = cuts_from(alloc, bytes, open)? else {
        return Ok(None);
    };
    cut(alloc, text, &cuts)
}
