//! The shared words, and the seats that threads step with.
ghost use Rattle.std.specs.Prelude.{◌≡◌, ◌+◌, ◌<◌, ◌^◌, [], MatchBool, IsTrue, Contains, IfOk, IfSome};
ghost use Rattle.std.specs.Bool.{OnTrue};
ghost use Rattle.atomic_table.specs.Seated.{TableId};
ghost use Rattle.link_claim.specs.Workload.{flag_base, word_count, opening_words_of};
ghost use Rattle.link_closure.specs.declared.workload.Workload.{Workload};
ghost use Rattle.link_claim.specs.Views.{no_work, first_view, spent_view, with_file, with_claim, with_item, with_begin, fresh, joined, MayRequest, MayBegin, saw_claim, took_claim, checked, took_begin, told_work};
ghost use Rattle.link_claim.specs.Rule.{Holds};
ghost use Rattle.link_claim.specs.Seats.{Place, IsPlaced};
ghost use Rattle.link_claim.specs.Later.{IsLater};

use crate::plan::Plan;
use crate::view::View;
use atomic_table::{Join, Play, Seat, Shared, Split, Table, TableRule};
use bitflags::Flags;
use link_ids::SymbolId;
use std::alloc::{AllocError, Global};
use std::marker::{Brand, Model, PhantomData};

/// The rule that the words of a plan's work keep.
pub(crate) struct Kept<P> {
    plan: PhantomData<P>,
}

impl<P: Plan> TableRule<(), View, P> for Kept<P> {
    ghost holds = { λ plan. Holds (P.work plan) };

    ghost first = { λ plan. first_view (P.work plan) };
}

/// The kinds of step on claim and begin words, and what each tells.
struct SeeClaim;

impl Play<(), View> for SeeClaim {
    ghost then = { saw_claim };
}

struct Check;

impl Play<(), View> for Check {
    ghost then = { checked };
}

struct TakeClaim;

impl Play<(), View> for TakeClaim {
    ghost then = { took_claim };
}

struct TakeBegin;

impl Play<(), View> for TakeBegin {
    ghost then = { took_begin };
}

/// The work that a load tells of, which exists in proofs alone. Each call picks it.
trait Told {
    ghost work: { Workload };
}

impl Told for Brand {
    ghost work = { no_work };
}

struct TellWork<B> {
    told: PhantomData<B>,
}

impl<B: Told> Play<(), View> for TellWork<B> {
    ghost then = { told_work B.work };
}

/// How a seat is cut in two, and how two are made one.
pub(crate) struct Pass;

impl Split<View> for Pass {
    ghost left = { λ v. v };

    ghost right = { fresh };
}

impl Join<View> for Pass {
    ghost both = { joined };

    ghost spent = { spent_view };
}

/// The words that threads share: a spare word that stays 0, a word for each file's claim and each item's begin, and a
/// flag word for each symbol. A contract sees them as the name of their table, which their seats have too.
#[derive(Drop)]
pub struct Words<P: Plan> {
    pub(crate) table: Table<(), View, P, Kept<P>, Global>,
}

impl<P: Plan> Model for Words<P> {
    ghost Value = { TableId };

    ghost view = { λ w. w.table.shared.table_id };

    ghost invariant = { λ w. w.table.shared.table_id.slots ≡ 0 };
}

/// How many words come before the flag words, and how many there are: none if no memory has so many.
fn word_counts<P: Plan>(plan: &P) -> Option<(usize, usize)>
    ensures { IfSome result (λ n. (n.0 ≡ flag_base (P.work plan.now)) × (n.1 ≡ word_count (P.work plan.now))) }
{
    let zeros = 1usize.checked_add(plan.files())?.checked_add(plan.items())?;
    let all = zeros.checked_add(plan.symbols())?;
    Some((zeros, all))
}

/// A spare word, the claim and begin words at 0, and the opening flags. There is room for a power of two of words: the list of a link that has
/// grown by a few symbols then takes as much memory as the one before, which an allocator has at hand.
fn opening_words<P: Plan>(alloc: Global, plan: &P) -> Result<Vec<u64>, AllocError>
    ensures words { IfOk result (λ v. v.items ≡ opening_words_of (P.work plan.now)) }
    ensures small { IfOk result (λ v. word_count (P.work plan.now) < 2 ^ 64) }
{
    let Some((zeros, all)) = word_counts(plan) else {
        return Err(AllocError);
    };
    let room = all.checked_next_power_of_two().unwrap_or(all);
    let mut words = Vec::with_capacity(alloc, room)?;
    words.resize(zeros, 0)?;
    for symbol in 0..plan.symbols() {
        let flags = plan.opening(SymbolId::from_usize(symbol));
        words.push(u64::from(flags.bits()))?;
    }
    Ok(words)
}

impl<P: Plan> Words<P> {
    /// The words of a plan, and a first seat, which knows nothing yet.
    pub fn create(alloc: Global, plan: &P) -> Result<(Words<P>, WorkSeat), AllocError>
        ensures table { IfOk result (λ r. r.1.table ≡ r.0) }
        ensures view { IfOk result (λ r. r.1.view ≡ first_view (P.work plan.now)) }
    {
        let words = opening_words(alloc, plan)?;
        let (table, seat) = Table::of_words(alloc, words.as_slice(), plan)?;
        let seat = WorkSeat {
            seat,
            files: plan.files(),
            items: plan.items(),
        };
        Ok((Words { table }, seat))
    }
}

/// Loads the spare word by a seat: its view names the plan's work.
fn tell_work<B: Told, P: Plan>(shared: &Shared<(), View, P, Kept<P>>, seat: &mut Seat<(), View>)
    requires table { seat.old.table_id ≡ shared.now.table_id }
    requires word { 0 < shared.now.table_id.words }
    requires live { IsTrue seat.old.me.0.live }
    requires told { P.work shared.now.key ≡ B.work }
    ensures table { seat.new.table_id ≡ seat.old.table_id }
    ensures me { seat.new.me ≡ seat.old.me }
    ensures work { seat.old.me.0.work ≡ B.work }
{
    shared.load::<TellWork<B>>(seat, 0);
}

/// Loads the spare word by each of two seats: their views name one work, that of the plan.
fn tell_one_work<P: Plan>(
    shared: &Shared<(), View, P, Kept<P>>,
    seat: &mut Seat<(), View>,
    other: &mut Seat<(), View>,
)
    requires table { seat.old.table_id ≡ shared.now.table_id }
    requires other { other.old.table_id ≡ shared.now.table_id }
    requires word { 0 < shared.now.table_id.words }
    requires live { IsTrue seat.old.me.0.live }
    requires other_live { IsTrue other.old.me.0.live }
    ensures table { seat.new.table_id ≡ seat.old.table_id }
    ensures me { seat.new.me ≡ seat.old.me }
    ensures other_table { other.new.table_id ≡ other.old.table_id }
    ensures other_me { other.new.me ≡ other.old.me }
    ensures work { other.old.me.0.work ≡ seat.old.me.0.work }
{
    tell_work::<Brand, P>(shared, seat);
    tell_work::<Brand, P>(shared, other);
}

/// What one thread steps with: the right to step on the words, and what its holder knows and has done. It takes room for
/// two numbers, and can be handed to another thread. A contract sees it as the words that it is of and its view.
#[derive(Drop)]
pub struct WorkSeat {
    pub(crate) seat: Seat<(), View>,
    pub(crate) files: usize,
    pub(crate) items: usize,
}

impl Model for WorkSeat {
    ghost Value = { Place };

    ghost view = { λ s. record { table = s.seat.table_id; view = s.seat.me.0 } };

    ghost invariant = { λ s. (s.seat.me.1 ≡ []) × IsPlaced s.seat.table_id s.seat.me.0 s.files s.items };
}

impl WorkSeat {
    /// Asks for a file that is a root, or that an item known to this seat requests. True where this call claimed it: a
    /// swap of its word found 0. False only where the word was 1 at a step of this call. Either way the file is known.
    pub fn request<P: Plan>(&mut self, words: &Words<P>, file: usize) -> bool
        requires table { self.old.table ≡ words.now }
        requires asked { MayRequest self.old.view file }
        ensures table { self.new.table ≡ self.old.table }
        ensures view { MatchBool result
            (self.new.view ≡ with_claim file self.old.view)
            (self.new.view ≡ with_file file self.old.view) }
        ensures later { IsLater self.old.view self.new.view }
        ensures known { Contains self.new.view.known file }
    {
        let shared = &words.table.shared;
        if shared.load::<SeeClaim>(&mut self.seat, 1 + file) != 0 {
            return false;
        }
        shared.swap::<TakeClaim>(&mut self.seat, 1 + file, 1) == 0
    }

    /// `request`, which also counts itself.
    pub fn request_counted<P: Plan>(
        &mut self,
        words: &Words<P>,
        file: usize,
        count: &mut u64,
    ) -> bool
        requires table { self.old.table ≡ words.now }
        requires asked { MayRequest self.old.view file }
        requires room { count.old + 1 < 2 ^ 64 }
        ensures count { count.new ≡ count.old + 1 }
        ensures table { self.new.table ≡ self.old.table }
        ensures view { MatchBool result
            (self.new.view ≡ with_claim file self.old.view)
            (self.new.view ≡ with_file file self.old.view) }
        ensures later { IsLater self.old.view self.new.view }
        ensures known { Contains self.new.view.known file }
    {
        *count += 1;
        self.request(words, file)
    }

    /// Whether the file is claimed, which makes it known. At false it was not, and is not known to this seat.
    pub fn check<P: Plan>(&mut self, words: &Words<P>, file: usize) -> bool
        requires table { self.old.table ≡ words.now }
        requires file { file < self.old.view.work.files }
        ensures table { self.new.table ≡ self.old.table }
        ensures view { MatchBool result
            (self.new.view ≡ with_file file self.old.view)
            ((self.new.view ≡ self.old.view) × ¬ Contains self.old.view.known file) }
        ensures later { IsLater self.old.view self.new.view }
        ensures known { OnTrue result (Contains self.new.view.known file) }
    {
        words.table.shared.load::<Check>(&mut self.seat, 1 + file) != 0
    }

    /// Begins an item of a known file. True where this call began it: its swap found 0. False only where the word was 1
    /// at that step. Either way the item is known.
    pub fn begin<P: Plan>(&mut self, words: &Words<P>, item: usize) -> bool
        requires table { self.old.table ≡ words.now }
        requires may { MayBegin self.old.view item }
        ensures table { self.new.table ≡ self.old.table }
        ensures view { MatchBool result
            (self.new.view ≡ with_begin item self.old.view)
            (self.new.view ≡ with_item item self.old.view) }
        ensures later { IsLater self.old.view self.new.view }
        ensures known { Contains self.new.view.known_items item }
    {
        let word = 1 + self.files + item;
        words
            .table
            .shared
            .swap::<TakeBegin>(&mut self.seat, word, 1)
            == 0
    }

    /// A new seat, which knows what this one knows, and has done nothing. It takes no memory.
    pub fn split<P: Plan>(&mut self, words: &Words<P>) -> WorkSeat
        requires { self.old.table ≡ words.now }
        ensures same { self.new ≡ self.old }
        ensures table { result.table ≡ self.old.table }
        ensures view { result.view ≡ fresh self.old.view }
    {
        let seat = words.table.shared.split_seat::<Pass>(&mut self.seat);
        WorkSeat {
            seat,
            files: self.files,
            items: self.items,
        }
    }

    /// Shows that two seats of the same words have the same work. It loads the spare word by each.
    pub fn same_work<P: Plan>(&mut self, words: &Words<P>, other: &mut WorkSeat)
        requires table { self.old.table ≡ words.now }
        requires other { other.old.table ≡ words.now }
        ensures same { self.new ≡ self.old }
        ensures other { other.new ≡ other.old }
        ensures work { other.old.view.work ≡ self.old.view.work }
    {
        tell_one_work(&words.table.shared, &mut self.seat, &mut other.seat);
    }

    /// Takes the other seat back: this one then knows and has done what both did.
    pub fn join<P: Plan>(&mut self, words: &Words<P>, mut other: WorkSeat)
        requires table { self.old.table ≡ words.now }
        requires other { other.table ≡ words.now }
        ensures table { self.new.table ≡ self.old.table }
        ensures view { self.new.view ≡ joined self.old.view other.view }
        ensures later { IsLater self.old.view self.new.view }
        ensures later_than_other { IsLater other.view self.new.view }
    {
        self.same_work(words, &mut other);
        let WorkSeat { seat, .. } = other;
        words.table.shared.join_seat::<Pass>(&mut self.seat, seat);
    }
}
