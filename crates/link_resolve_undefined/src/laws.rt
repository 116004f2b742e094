//! A law of the definitions, as a function that does nothing.

ghost use Rattle.std.specs.Prelude.{◌≡◌};
ghost use Rattle.link_rules.specs.FinalFlags.{final_flags};
ghost use Rattle.link_rules.specs.Undefined.{Resolution};
ghost use Rattle.link_rules.specs.Visibility.{narrowed_flags};
ghost use Rattle.link_resolve_undefined.specs.Flagged.{flagged, new_words, with_signatures};

/// What narrowed flags become, with those of signatures, are the flags at the end.
pub fn signatures_are_left()
    ensures { (r : Resolution) → with_signatures r (flagged r (narrowed_flags r.selection) (new_words r)) ≡ final_flags r }
{}
