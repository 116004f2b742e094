//! Laws: functions that do nothing, whose clauses say of which selections a database tells.

ghost use Rattle.link_db.specs.Database.{Database};
ghost use Rattle.link_resolve.specs.Known.{IsSelection, Known};
ghost use Rattle.link_rules.specs.Places.{Bytes};
ghost use Rattle.link_rules.specs.Rules.{PlatformRules};
ghost use Rattle.link_rules.specs.Selection.{Selection};
ghost use Rattle.link_resolve_explanation.specs.Told.{AreRivalsSettled, IsTold};

use link_input::Platform;

/// A database that lists the definitions of names tells of the selection at its stage.
pub fn a_selection_is_told<P: Platform>()
    ensures { (platform : PlatformRules) (demangle : Bytes → Bytes) (db : Database P) (known : Known) (l : Selection)
        → IsSelection platform demangle db known l → IsTold platform.weak_overrides_common db known l }
{}

/// So does what `resolve_alternative_symbol_definitions` leaves of it, though the later definitions of names are given up.
pub fn a_settled_selection_is_told<P: Platform>()
    ensures { (platform : PlatformRules) (demangle : Bytes → Bytes) (old new : Database P) (known : Known) (l : Selection)
        → IsSelection platform demangle old known l → AreRivalsSettled old new → IsTold platform.weak_overrides_common new known l }
{}
