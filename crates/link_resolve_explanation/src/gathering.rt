//! Lists of rivals that are made anew from their heads.

ghost use Rattle.std.specs.Prelude.{◌≡◌, ◌+◌, ◌<◌, ◌≤◌, ◌^◌, ◌==◌, ◌∷◌, ◌++◌, [], ℕ, All, IfOk, IfSome, OnOk, if◌then◌else◌, length};
ghost use Rattle.link_rules.specs.Places.{is_number};
ghost use Rattle.link_resolve_explanation.specs.Gathered.{AreHeads, AreRows, checked_head, checked_heads, head_before, head_in, row_in};

use link_ids::SymbolId;
use link_resolve_rivals::RivalLists;
use std::alloc::{AllocError, Global};

/// Lists of rivals by their heads: a list is a head with the symbols behind it that have this head. So they can be asked where what knew the
/// lists is gone.
#[derive(Drop)]
pub(crate) struct GatheredLists {
    /// For each symbol the first of the list in which it stands, if it stands in one.
    heads: Vec<Option<SymbolId>>,
    /// For each symbol those behind it that have it as head, in order.
    rows: Vec<Vec<u32>>,
    ghost headed: { AreHeads heads.items },
    ghost each: { length rows.items ≡ length heads.items },
    ghost behind: { AreRows heads.items (length heads.items) rows.items },
}

impl GatheredLists {
    /// The lists with these heads, as far as each is a head: it doesn't come behind its symbol, and has itself as head. The only refusal is want of memory.
    pub(crate) fn gather(
        alloc: Global,
        found: &[Option<SymbolId>],
    ) -> Result<GatheredLists, AllocError>
        requires { length found.now ≤ 2 ^ 32 }
        ensures { IfOk result (λ lists. lists.heads.items ≡ checked_heads found.now) }
    {
        let heads = checked_heads(alloc, found)?;
        let rows = filled_rows(alloc, heads.as_slice())?;
        Ok(GatheredLists { heads, rows })
    }
}

impl RivalLists for GatheredLists {
    ghost use Rattle.std.specs.Prelude.{length};
    ghost use Rattle.link_resolve_explanation.specs.Gathered.{gathered};

    ghost listed = { λ lists. gathered lists.heads.items };

    ghost count = { λ lists. length lists.heads.items };

    fn later(&self, id: SymbolId) -> &[u32] {
        if is_head(self.heads.as_slice(), id) {
            row_in(self.rows.as_slice(), id.as_usize())
        } else {
            &[]
        }
    }
}

/// The head of the list in which a symbol stands.
fn head_in(heads: &[Option<SymbolId>], number: usize) -> Option<SymbolId>
    ensures { result ≡ head_in heads.now number }
{
    match heads.get(number) {
        Some(head) => *head,
        None => None,
    }
}

/// The symbol heads a list.
fn is_head(heads: &[Option<SymbolId>], id: SymbolId) -> bool
    ensures { result ≡ is_number (head_in heads.now id) id }
{
    match head_in(heads, id.as_usize()) {
        Some(head) => head == id,
        None => false,
    }
}

/// The head of a symbol, where it doesn't come behind the symbol and heads its own list.
fn checked_head(heads: &[Option<SymbolId>], number: usize) -> Option<SymbolId>
    ensures { result ≡ checked_head heads.now number }
{
    let head = head_in(heads, number)?;
    if head.as_usize() <= number && is_head(heads, head) {
        Some(head)
    } else {
        None
    }
}

/// Those heads of all symbols.
fn checked_heads(
    alloc: Global,
    found: &[Option<SymbolId>],
) -> Result<Vec<Option<SymbolId>>, AllocError>
    ensures { IfOk result (λ heads. heads.items ≡ checked_heads found.now) }
{
    let mut heads = Vec::with_capacity(alloc, found.len())?;
    for number in 0..found.len() {
        heads.push(checked_head(found, number))?;
    }
    Ok(heads)
}

/// The head behind which a symbol stands, if it stands behind one.
fn head_before(heads: &[Option<SymbolId>], number: usize) -> Option<usize>
    ensures value { result ≡ head_before heads.now number }
    ensures inside { IfSome result (λ head. head < number) }
{
    let head = head_in(heads, number)?.as_usize();
    if head < number { Some(head) } else { None }
}

/// The numbers of a row.
fn row_in(rows: &[Vec<u32>], number: usize) -> &[u32]
    ensures { result.now ≡ row_in rows.now number }
{
    match rows.get(number) {
        Some(row) => row.as_slice(),
        None => &[],
    }
}

/// For each symbol a row of those behind it.
fn filled_rows(alloc: Global, heads: &[Option<SymbolId>]) -> Result<Vec<Vec<u32>>, AllocError>
    requires { length heads.now ≤ 2 ^ 32 }
    ensures each { IfOk result (λ rows. length rows.items ≡ length heads.now) }
    ensures behind { IfOk result (λ rows. AreRows heads.now (length heads.now) rows.items) }
{
    let mut rows = empty_rows(alloc, heads.len())?;
    fill_rows(rows.as_mut_slice(), heads)?;
    Ok(rows)
}

/// As many empty rows.
fn empty_rows(alloc: Global, count: usize) -> Result<Vec<Vec<u32>>, AllocError>
    ensures each { IfOk result (λ rows. length rows.items ≡ count) }
    ensures empty { IfOk result (λ rows. All (λ row. row.items ≡ []) rows.items) }
{
    let mut rows = Vec::with_capacity(alloc, count)?;
    for _number in 0..count {
        rows.push(Vec::new(alloc))?;
    }
    Ok(rows)
}

/// Puts each symbol behind its head.
fn fill_rows(rows: &mut [Vec<u32>], heads: &[Option<SymbolId>]) -> Result<(), AllocError>
    requires each { length rows.old ≡ length heads.now }
    requires empty { All (λ row. row.items ≡ []) rows.old }
    requires numbers { length heads.now ≤ 2 ^ 32 }
    ensures { OnOk result (AreRows heads.now (length heads.now) rows.new) }
{
    for number in 0..heads.len() {
        put_behind(rows, heads, number)?;
    }
    Ok(())
}

/// Puts a symbol behind its head, if it stands behind one.
fn put_behind(
    rows: &mut [Vec<u32>],
    heads: &[Option<SymbolId>],
    number: usize,
) -> Result<(), AllocError>
    requires each { length rows.old ≡ length heads.now }
    requires number { number < length heads.now }
    requires numbers { length heads.now ≤ 2 ^ 32 }
    ensures { OnOk result (AreRows heads.now number rows.old → AreRows heads.now (number + 1) rows.new) }
{
    match head_before(heads, number) {
        Some(head) => {
            push_to_row(rows, head, number as u32)?;
            Ok(())
        }
        None => Ok(()),
    }
}

/// Adds a number to a row.
fn push_to_row(rows: &mut [Vec<u32>], head: usize, number: u32) -> Result<(), AllocError>
    requires { head < length rows.old }
    ensures { OnOk result ((h : ℕ) → row_in rows.new h ≡ (if head == h then row_in rows.old h ++ number ∷ [] else row_in rows.old h)) }
{
    rows[head].push(number)?;
    Ok(())
}
