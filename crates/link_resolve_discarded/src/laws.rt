//! Laws about the sections that are left out.

ghost use Rattle.std.specs.Prelude.{◌≡◌, ℕ, List, Bool, map};
ghost use Rattle.link_rules.specs.Comdat.{discarded_groups, is_discarded_by};
ghost use Rattle.link_rules.specs.Selection.{surviving_origin, surviving_strengths};
ghost use Rattle.link_rules.specs.World.{Stage};
ghost use Rattle.link_resolve_discarded.specs.Discarded.{discarded_in};
ghost use Rattle.link_resolve_discarded.specs.Indexed.{AreGroupsOf, IndexedGroups};

/// What `LoadedGroups::select` answers for the objects of a stage of a link says of each section whether the link discards it, and so of
/// each symbol how strongly it binds there.
pub fn discarded_sections_are_those_of_a_link()
    ensures sections { (w : Stage) (marks : List Bool) (g : IndexedGroups) → AreGroupsOf marks w.objects g
        → (f section : ℕ) → is_discarded_by (discarded_in g) f section ≡ is_discarded_by (discarded_groups w marks) f section }
    ensures strengths { (w : Stage) (marks : List Bool) (g : IndexedGroups) → AreGroupsOf marks w.objects g
        → map (λ x. surviving_origin marks (discarded_in g) x.origin) w.symbols ≡ surviving_strengths w marks (discarded_groups w marks) }
{}
