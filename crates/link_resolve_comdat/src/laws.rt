//! Laws about what is selected.

ghost use Rattle.std.specs.Prelude.{◌≡◌, ◌≢◌, ℕ, List, Bool, Some, None, false, map, slice_get};
ghost use Rattle.std.specs.List.Sorted.{IsStrictlyIncreasing};
ghost use Rattle.link_input.specs.ObjectFile.{ObjectFile};
ghost use Rattle.link_rules.specs.Places.{contains};
ghost use Rattle.link_rules.specs.World.{Stage};
ghost use Rattle.link_rules.specs.Comdat.{loaded_regular, loaded_groups, discarded_groups, is_discarded_by};
ghost use Rattle.link_rules.specs.Answer.{kept_comdats};
ghost use Rattle.link_resolve_comdat.specs.ObjectGroups.{ObjectGroups, is_discarded, pending_group, after_visit};
ghost use Rattle.link_resolve_comdat.specs.Tables.{members_of};
ghost use Rattle.link_resolve_comdat.specs.Selected.{object_groups, comdats_kept_among};

/// What is selected of the loaded regular objects of a link, whose places rise, is what the link keeps and discards.
pub fn selected_groups_are_those_of_a_link()
    ensures rise { (w : Stage) (marks : List Bool) → IsStrictlyIncreasing (map (λ o. o.0) (loaded_regular w marks)) }
    ensures discarded { (w : Stage) (marks : List Bool) (i section : ℕ) (o : ℕ × ObjectFile) → slice_get (loaded_regular w marks) i ≡ Some o
        → is_discarded (object_groups (loaded_groups w marks) o) section ≡ is_discarded_by (discarded_groups w marks) o.0 section }
    ensures kept { (w : Stage) (marks : List Bool) → comdats_kept_among (loaded_groups w marks) ≡ kept_comdats w marks }
{}

/// A group that was visited is no longer pending, through whatever section it is asked for; each other group stays as it was. A
/// section that is a member of no group leads to none.
pub fn a_group_is_visited_once()
    ensures once { (o : ObjectGroups) (section again group : ℕ) → pending_group o section ≡ Some group → pending_group (after_visit o section) again ≢ Some group }
    ensures others { (o : ObjectGroups) (section again group other : ℕ) → pending_group o section ≡ Some group
        → pending_group o again ≡ Some other → other ≢ group → pending_group (after_visit o section) again ≡ Some other }
    ensures members { (o : ObjectGroups) (section : ℕ) → contains section (members_of o.groups) ≡ false → pending_group o section ≡ None }
{}
