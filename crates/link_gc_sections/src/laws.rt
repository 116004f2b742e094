//! Laws about live sections.

ghost use Rattle.std.specs.Prelude.{◌≡◌, Bool, List};
ghost use Rattle.link_gc_sections.specs.LiveSections.{AreLive, AreLiveIn};
ghost use Rattle.link_gc_sections.specs.SectionText.{IsSectionText};
ghost use Rattle.link_rules.specs.Places.{Bytes};
ghost use Rattle.link_rules.specs.Undefined.{Resolution};
ghost use Rattle.link_rules.specs.World.{World};

/// There is one set of live sections, and one text that tells of it.
pub fn live_sections_are_one_set()
    ensures sections { (r : Resolution) (a b : List Bool) → AreLive r a → AreLive r b → a ≡ b }
    ensures world { (w : World) (a b : List Bool) → AreLiveIn w a → AreLiveIn w b → a ≡ b }
    ensures text { (w : World) (a b : Bytes) → IsSectionText w a → IsSectionText w b → a ≡ b }
{}
