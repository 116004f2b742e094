//! The laws that every order of the steps keeps.
ghost use Rattle.std.specs.Prelude.{◌≡◌, ◌≢◌, ◌==◌, ◌≤◌, ◌<◌, ℕ, IsTrue, IsBitSet, List, count_by, ◌+◌, Contains, bit_or, slice_index, length};
ghost use Rattle.link_closure.specs.Closure.{IsLeastClosed, IsPartOfEachClosed, is_marked};
ghost use Rattle.link_closure.specs.declared.workload.Workload.{Workload};
ghost use Rattle.link_claim.specs.declared.state.Core.{Core};
ghost use Rattle.link_claim.specs.declared.state.Step.{Step};
ghost use Rattle.link_closure.specs.declared.workload.Mark.{Mark};
ghost use Rattle.link_claim.specs.declared.state.Step.TheVariants.{Mark as MarkStep};
ghost use Rattle.link_closure.specs.declared.workload.Item.{Item};
ghost use Rattle.link_closure.specs.Workload.{IsSound, IsRoot, HasEdge, HasItem, bits_for, marked, IsWithin};
ghost use Rattle.link_claim.specs.Workload.{FitsU32, flag_base};
ghost use Rattle.link_claim.specs.Views.{first_view, with_claim};
ghost use Rattle.std.specs.Int.{bit_at};
ghost use Rattle.link_claim.specs.Rule.{Sharing, Holds, IsRun, seat_at, total, times_new};
ghost use Rattle.link_claim.specs.declared.state.Claimed.{Claimed};
ghost use Rattle.link_claim.specs.declared.state.Begun.{Begun};
ghost use Rattle.link_claim.specs.declared.state.Marked.{Marked};
ghost use Rattle.link_claim.specs.declared.view.View.{View};
ghost use Rattle.link_claim.specs.Stores.{MayStore};
ghost use Rattle.link_claim.specs.Seats.{Ending, IsSettled, claimed_in, flags_in};
ghost use Rattle.link_claim.specs.Steps.{IsReached, IsAllRead, state_after, marks_of};

/// Whatever steps any number of workers take, in any order, each legal where it comes: each file stands in at most one
/// claim and each item in at most one begin, each claimed file is in every closed set, and each symbol's flags are its
/// opening flags with the listed marks. Once all is read, the claimed files are the least closed set, and the flags are
/// the opening ones with the root marks and the marks of all items of those files.
pub fn any_interleaving()
    ensures claims { (w : Workload) (c : Core) → IsSound w → IsReached w c
        → (f : ℕ) → count_by (λ k. k.file == f) c.claims ≤ 1 }
    ensures begins { (w : Workload) (c : Core) → IsSound w → IsReached w c
        → (i : ℕ) → count_by (λ k. k.item == i) c.begins ≤ 1 }
    ensures needed { (w : Workload) (c : Core) → IsSound w → IsReached w c
        → IsPartOfEachClosed (IsRoot w) (HasEdge w) (is_marked c.claimed) }
    ensures flags { (w : Workload) (c : Core) → IsSound w → IsReached w c
        → (x : ℕ) → x < length w.opening
        → slice_index c.flags x ≡ bit_or (slice_index w.opening x) (bits_for x (marks_of c)) }
    ensures least { (w : Workload) (c : Core) → IsSound w → IsReached w c → IsAllRead w c
        → IsLeastClosed (IsRoot w) (HasEdge w) w.files c.claimed }
    ensures marked { (w : Workload) (c : Core) → IsSound w → IsReached w c → IsAllRead w c
        → (x : ℕ) → x < length w.opening → slice_index c.flags x ≡ marked w (is_marked c.claimed) x }
{}

/// A flag bit that is set stays set at every step, and a mark joins just its bits, to just its symbol's flags.
pub fn flags_only_grow()
    ensures stays { (c : Core) (s : Step) (x bit : ℕ)
        → IsBitSet (slice_index c.flags x) bit → IsBitSet (slice_index (state_after c s).flags x) bit }
    ensures joined { (c : Core) (by : ℕ) (m : Mark) → m.symbol < length c.flags
        → slice_index (state_after c (MarkStep by m)).flags m.symbol ≡ bit_or (slice_index c.flags m.symbol) m.bits }
    ensures others { (c : Core) (by : ℕ) (m : Mark) (x : ℕ) → x ≢ m.symbol
        → slice_index (state_after c (MarkStep by m)).flags x ≡ slice_index c.flags x }
{}

/// However the words came to be: what the core lists for a worker whose seat is live stands in that very seat's view. So
/// no step of a seat can be listed for another live one.
pub fn each_step_is_of_its_seat()
    ensures claims { (w : Workload) (words : List ℕ) (views : List View) → (run : IsRun w words views) → (k : Claimed)
        → Contains run.core.claims k → IsTrue (seat_at w views k.worker).live
        → Contains (seat_at w views k.worker).claims k.file }
    ensures begins { (w : Workload) (words : List ℕ) (views : List View) → (run : IsRun w words views) → (k : Begun)
        → Contains run.core.begins k → IsTrue (seat_at w views k.worker).live
        → Contains (seat_at w views k.worker).begins k.item }
    ensures marks { (w : Workload) (words : List ℕ) (views : List View) → (run : IsRun w words views) → (k : Marked)
        → Contains run.core.marks k → IsTrue (seat_at w views k.worker).live
        → Contains (seat_at w views k.worker).marks k.mark }
{}

/// Whatever seats stepped on the shared words: at most one write of all of them found a given bit of a symbol's flags
/// missing, and none where it is an opening bit.
pub fn a_bit_is_new_once()
    ensures { (w : Workload) (s : Sharing) → Holds w s → (x bit : ℕ) → x < length w.opening
        → bit_at (slice_index w.opening x) bit + total (λ v. times_new x bit v.writes) s.views ≤ 1 }
{}

/// Whatever ran between: two endings of the same work that are settled have the same claimed files and the same flags. So
/// neither the number of threads nor the order of their steps changes what is left.
pub fn no_schedule_changes_the_end()
    ensures claimed { (a b : Ending) → a.view.work ≡ b.view.work → IsSettled a → IsSettled b → claimed_in a ≡ claimed_in b }
    ensures flags { (a b : Ending) → a.view.work ≡ b.view.work → IsSettled a → IsSettled b
        → (x : ℕ) → x < length a.view.work.opening → flags_in a x ≡ flags_in b x }
{}

/// Under the rule of the shared words a store can stand neither in the place of the swap that claims nor of the step that
/// joins bits, whatever was loaded before it, since other seats may have stepped in between: no store lets a seat claim a
/// root, and no store of any number keeps the rule at the flag word of a mark whose bits are not there from the start.
pub fn no_store_will_do()
    ensures claims { (w : Workload) (f : ℕ) → IsSound w → IsRoot w f
        → ¬ MayStore w (1 + f) 1 (λ u. u ≡ with_claim f (first_view w)) }
    ensures marks { (w : Workload) (i : ℕ) (it : Item) (m : Mark)
        → IsSound w → FitsU32 w → HasItem w i it → IsRoot w it.file → Contains it.marks m
        → ¬ IsWithin m.bits (bit_or (slice_index w.opening m.symbol) (bits_for m.symbol w.root_marks))
        → (n : ℕ) → ¬ MayStore w (flag_base w + m.symbol) n (λ u. Unit {0}) }
{}
