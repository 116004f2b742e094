//! A version script of the Rust form lists what is not local.

use crate::database::SymbolDb;
use crate::rust_form::{close_local, free_symbol};
use link_flags::PerSymbolFlags;
use link_input::Platform;
use link_names::Name;

impl<P: Platform> SymbolDb<P> {
    ghost use Rattle.std.specs.Prelude.{◌≡◌, length};
    ghost use Rattle.link_flags.specs.FlagWords.{numbers_of, words_of};
    ghost use Rattle.link_db_texts.specs.Holds.{AreRulesOf, platform_of};
    ghost use Rattle.link_rules.specs.Places.{Bytes, each_from};
    ghost use Rattle.link_rules.specs.Rules.{Rules};
    ghost use Rattle.link_db.specs.Database.{HasTable, symbol_names};
    ghost use Rattle.link_db.specs.RustForm.{freed};
    ghost use Rattle.link_db.specs.RustScript.{flags_by_script, freed_by, freed_symbols};
    ghost use Rattle.link_db.specs.Seen.{seen};

    /// Does what a version script of the Rust form says, which makes all definitions local at first: what the names that it lists stand for is
    /// not local, and no other file may take the place of what stays local. Another script changes nothing.
    pub fn handle_rust_version_script(&self, flags: &mut PerSymbolFlags)
        requires table { HasTable (seen self.now) }
        requires flags { length (words_of flags.old) ≡ length (symbol_names (seen self.now)) }
        ensures flags { (demangle : Bytes → Bytes) (rules : Rules) → AreRulesOf (platform_of P.Platform) demangle (seen self.now).rules rules
            → numbers_of (words_of flags.new) ≡ flags_by_script (seen self.now) rules.rust_names (numbers_of (words_of flags.old)) }
        ensures len { length (words_of flags.new) ≡ length (words_of flags.old) }
    {
        match self.rules.rust_names() {
            Some(names) => {
                self.free_names(flags, names);
                close_local(flags);
            }
            None => {}
        }
    }

    /// What the names stand for is not local.
    fn free_names(&self, flags: &mut PerSymbolFlags, names: &[Name])
        requires table { HasTable (seen self.now) }
        requires flags { length (words_of flags.old) ≡ length (symbol_names (seen self.now)) }
        ensures numbers { numbers_of (words_of flags.new) ≡ each_from (freed (freed_symbols (seen self.now) names.now)) 0 (numbers_of (words_of flags.old)) }
        ensures len { length (words_of flags.new) ≡ length (words_of flags.old) }
    {
        for name in names {
            self.free_name(flags, name.as_slice());
        }
    }

    /// What the name stands for is not local.
    fn free_name(&self, flags: &mut PerSymbolFlags, name: &[u8])
        requires table { HasTable (seen self.now) }
        requires flags { length (words_of flags.old) ≡ length (symbol_names (seen self.now)) }
        ensures numbers { numbers_of (words_of flags.new) ≡ each_from (freed (freed_by (seen self.now) name.now)) 0 (numbers_of (words_of flags.old)) }
        ensures len { length (words_of flags.new) ≡ length (words_of flags.old) }
    {
        match self.get_unversioned(name) {
            Some(id) => free_symbol(flags, self.definition(id)),
            None => {}
        }
    }
}
