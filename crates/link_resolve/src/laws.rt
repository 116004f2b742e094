//! A law of the definitions, as a function that does nothing.

ghost use Rattle.std.specs.Prelude.{◌≡◌};
ghost use Rattle.link_rules.specs.Marking.{marked_flags};
ghost use Rattle.link_rules.specs.Places.{each_from};
ghost use Rattle.link_rules.specs.Rivals.{versioned_table};
ghost use Rattle.link_rules.specs.Selection.{Selection};
ghost use Rattle.link_rules.specs.Visibility.{narrowed_flags, narrowed_symbol};
ghost use Rattle.link_db.specs.Database.{Database};
ghost use Rattle.link_db.specs.RustScript.{flags_by_script};
ghost use Rattle.link_resolve.specs.Known.{Known};
ghost use Rattle.link_resolve.specs.Settled.{IsSettled};

use link_input::Platform;

/// Once rivals are settled, what a version script of the Rust form makes of their flags, if there is one, is what the definitions say.
pub fn the_rust_form_narrows<P: Platform>()
    ensures { (db : Database P) (known : Known) (l : Selection) → IsSettled db known l → db.table ≡ versioned_table l
        → flags_by_script db l.stage.rules.rust_names (each_from (narrowed_symbol l.stage (marked_flags l)) 0 l.stage.symbols) ≡ narrowed_flags l }
{}
