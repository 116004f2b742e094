//! The flag words, which seats read and join bits to.
ghost use Rattle.std.specs.Prelude.{◌≡◌, ℕ, ◌+◌, ◌≤◌, ◌<◌, ◌==◌, ◌^◌, length, bit_or, MatchBool, Contains};
ghost use Rattle.atomic_table.specs.Seated.{TableId};
ghost use Rattle.link_claim.specs.Views.{IsMarked, MayMark, Shows, with_mark, with_missed, with_write, read_flags, saw_mark, wrote_mark};
ghost use Rattle.link_claim.specs.Seats.{FlagPlace, FlagSpan, flag_words_of, mark_of};
ghost use Rattle.std.specs.Iterator.{YieldsFirst, item_count};
ghost use Rattle.link_claim.specs.Later.{IsLater};

use crate::plan::Plan;
use crate::view::View;
use crate::words::{Words, WorkSeat};
use atomic_table::Play;
use bitflags::Flags;
use link_flags::ValueFlags;
use link_ids::{SymbolId, SymbolIdRange};
use std::marker::{Brand, Model, PhantomData};

/// The bits that a load asks for, which exist in proofs alone. Each call picks them.
trait Asked {
    ghost bits: { ℕ };
}

impl Asked for Brand {
    ghost bits = { 0 };
}

/// The kinds of step on flag words, and what each tells.
struct Look;

impl Play<(), View> for Look {
    ghost then = { read_flags };
}

struct LookFor<B> {
    asked: PhantomData<B>,
}

impl<B: Asked> Play<(), View> for LookFor<B> {
    ghost then = { saw_mark B.bits };
}

struct WriteBits;

impl Play<(), View> for WriteBits {
    ghost then = { wrote_mark };
}

/// The flag words of all symbols. Mirrors Wild's `AtomicPerSymbolFlags`. A contract sees it as the words that it is of.
#[derive(Drop)]
pub struct AtomicPerSymbolFlags<'a, P: Plan> {
    words: &'a Words<P>,
}

impl<'a, P: Plan> Model for AtomicPerSymbolFlags<'a, P> {
    ghost Value = { TableId };

    ghost view = { λ f. f.words.now };
}

impl<'a, P: Plan> AtomicPerSymbolFlags<'a, P> {
    /// The flag words among the words.
    pub fn new(words: &'a Words<P>) -> AtomicPerSymbolFlags<'a, P>
        ensures { result ≡ words.now }
    {
        AtomicPerSymbolFlags { words }
    }

    /// The flag word of the symbol. Its calls need a symbol of the work.
    pub fn get_atomic(&self, symbol: SymbolId) -> AtomicValueFlags<'a, P>
        ensures table { result.table ≡ self.now }
        ensures symbol { result.symbol ≡ symbol }
    {
        AtomicValueFlags {
            words: self.words,
            symbol,
        }
    }

    /// The flag words of the symbols of a range. Their calls need symbols of the work.
    pub fn range(&self, ids: SymbolIdRange) -> AtomicFlagsRange<'a, P>
        ensures { result ≡ record { table = self.now; start = ids.start; len = ids.len } }
    {
        AtomicFlagsRange {
            words: self.words,
            next: ids.start().as_usize(),
            left: ids.len(),
        }
    }
}

/// The flag word of one symbol. Mirrors Wild's `AtomicValueFlags`. A contract sees it as the words that it is of, and
/// whose it is.
#[derive(Drop)]
pub struct AtomicValueFlags<'a, P: Plan> {
    words: &'a Words<P>,
    symbol: SymbolId,
}

impl<'a, P: Plan> Model for AtomicValueFlags<'a, P> {
    ghost Value = { FlagPlace };

    ghost view = { λ f. record { table = f.words.now; symbol = f.symbol } };
}

/// The flags that a word holds.
pub(crate) fn flags_of_word(word: u64) -> ValueFlags
    requires { word < 2 ^ 32 }
    ensures { result.0 ≡ word }
{
    ValueFlags::from_bits_retain(word as u32)
}

/// Reads a flag word.
fn load<P: Plan>(words: &Words<P>, seat: &mut WorkSeat, symbol: usize) -> u64
    requires table { seat.old.table ≡ words.now }
    requires symbol { symbol < length seat.old.view.work.opening }
    ensures same { seat.new ≡ seat.old }
    ensures shows { Shows seat.old.view symbol result }
    ensures fits { result < 2 ^ 32 }
{
    let word = 1 + seat.files + seat.items + symbol;
    words.table.shared.load::<Look>(&mut seat.seat, word)
}

/// Reads a flag word. The mark is listed where its bits are set, and missed where one is not.
fn look_for<B: Asked, P: Plan>(
    words: &Words<P>,
    seat: &mut WorkSeat,
    symbol: usize,
    bits: u64,
) -> u64
    requires table { seat.old.table ≡ words.now }
    requires symbol { symbol < length seat.old.view.work.opening }
    requires may { MayMark seat.old.view (record { symbol = symbol; bits = B.bits }) }
    requires asked { bits ≡ B.bits }
    ensures table { seat.new.table ≡ seat.old.table }
    ensures view { MatchBool (bit_or result bits == result)
        (seat.new.view ≡ with_mark (record { symbol = symbol; bits = bits }) seat.old.view)
        (seat.new.view ≡ with_missed (record { symbol = symbol; bits = bits }) seat.old.view) }
    ensures shows { Shows seat.old.view symbol result }
    ensures fits { result < 2 ^ 32 }
{
    let word = 1 + seat.files + seat.items + symbol;
    words.table.shared.load::<LookFor<B>>(&mut seat.seat, word)
}

/// Joins bits to a flag word, whatever it holds.
fn write_bits<P: Plan>(words: &Words<P>, seat: &mut WorkSeat, symbol: usize, bits: u64) -> u64
    requires table { seat.old.table ≡ words.now }
    requires symbol { symbol < length seat.old.view.work.opening }
    requires may { MayMark seat.old.view (record { symbol = symbol; bits = bits }) }
    ensures table { seat.new.table ≡ seat.old.table }
    ensures view { seat.new.view ≡ with_write (record { symbol = symbol; bits = bits }) result seat.old.view }
    ensures shows { Shows seat.old.view symbol result }
    ensures fits { result < 2 ^ 32 }
{
    let word = 1 + seat.files + seat.items + symbol;
    let shared = &words.table.shared;
    shared.fetch_or::<WriteBits>(&mut seat.seat, word, bits)
}

/// Joins bits to a flag word, but only once a load saw one missing. Answers the word as the last step found it.
fn join_missing<P: Plan>(words: &Words<P>, seat: &mut WorkSeat, symbol: usize, bits: u64) -> u64
    requires table { seat.old.table ≡ words.now }
    requires symbol { symbol < length seat.old.view.work.opening }
    requires may { MayMark seat.old.view (record { symbol = symbol; bits = bits }) }
    ensures table { seat.new.table ≡ seat.old.table }
    ensures view { IsMarked (record { symbol = symbol; bits = bits }) result seat.old.view seat.new.view }
    ensures shows { Shows seat.old.view symbol result }
    ensures fits { result < 2 ^ 32 }
{
    let found = look_for::<Brand, P>(words, seat, symbol, bits);
    if found | bits == found {
        return found;
    }
    write_bits(words, seat, symbol, bits)
}

impl<'a, P: Plan> AtomicValueFlags<'a, P> {
    /// The flags of the word: the opening ones and those that the seat has listed, and none but the opening ones and
    /// those of the work's marks.
    pub fn get(&self, seat: &mut WorkSeat) -> ValueFlags
        requires table { seat.old.table ≡ self.now.table }
        requires symbol { self.now.symbol < length seat.old.view.work.opening }
        ensures same { seat.new ≡ seat.old }
        ensures shows { Shows seat.old.view self.now.symbol result.0 }
    {
        let word = load(self.words, seat, self.symbol.as_usize());
        flags_of_word(word)
    }

    /// Joins the flags of a root mark, or of a mark of an item known to this seat, to the word. It loads first, and writes
    /// only where it saw one missing. Answers the flags that its last step found: those before it wrote, if it did; else
    /// some that have all that was asked. Of them holds what `get` says of its answer.
    pub fn fetch_or(&self, seat: &mut WorkSeat, flags: ValueFlags) -> ValueFlags
        requires table { seat.old.table ≡ self.now.table }
        requires symbol { self.now.symbol < length seat.old.view.work.opening }
        requires may { MayMark seat.old.view (mark_of self.now flags) }
        ensures table { seat.new.table ≡ seat.old.table }
        ensures view { IsMarked (mark_of self.now flags) result.0 seat.old.view seat.new.view }
        ensures shows { Shows seat.old.view self.now.symbol result.0 }
        ensures later { IsLater seat.old.view seat.new.view }
        ensures listed { Contains seat.new.view.marks (mark_of self.now flags) }
    {
        let bits = u64::from(flags.bits());
        let found = join_missing(self.words, seat, self.symbol.as_usize(), bits);
        flags_of_word(found)
    }

    /// `fetch_or` without the answer.
    pub fn or_assign(&self, seat: &mut WorkSeat, flags: ValueFlags)
        requires table { seat.old.table ≡ self.now.table }
        requires symbol { self.now.symbol < length seat.old.view.work.opening }
        requires may { MayMark seat.old.view (mark_of self.now flags) }
        ensures table { seat.new.table ≡ seat.old.table }
        ensures view { (found : ℕ) × IsMarked (mark_of self.now flags) found seat.old.view seat.new.view }
        ensures later { IsLater seat.old.view seat.new.view }
        ensures listed { Contains seat.new.view.marks (mark_of self.now flags) }
    {
        self.fetch_or(seat, flags);
    }
}

/// The flag words of symbols that follow one another, in rising order of their ids. A contract sees the words that they
/// are of, the first symbol and how many there are.
#[derive(Drop)]
pub struct AtomicFlagsRange<'a, P: Plan> {
    words: &'a Words<P>,
    next: usize,
    left: usize,
}

impl<'a, P: Plan> Model for AtomicFlagsRange<'a, P> {
    ghost Value = { FlagSpan };

    ghost view = { λ r. record { table = r.words.now; start = r.next; len = r.left } };

    ghost invariant = { λ r. r.next + r.left ≤ 2 ^ 32 };
}

impl<'a, P: Plan> Iterator for AtomicFlagsRange<'a, P> {
    type Item = AtomicValueFlags<'a, P>;

    ghost next_gives = { YieldsFirst flag_words_of };

    ghost remaining = { item_count flag_words_of };

    fn next(&mut self) -> Option<AtomicValueFlags<'a, P>> {
        if self.left == 0 {
            return None;
        }
        let first = SymbolId::from_usize(self.next);
        self.next += 1;
        self.left -= 1;
        Some(AtomicValueFlags {
            words: self.words,
            symbol: first,
        })
    }
}
