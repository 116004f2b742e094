//! Names that are wrapped.

ghost use Rattle.std.specs.Prelude.{◌≡◌, ◌++◌, IfOk};

use crate::symbol_mapping::SymbolMapping;
use link_db_buckets::key_hash;
use link_ids::SymbolId;
use link_input::Platform;
use link_names::Name;
use std::alloc::{AllocError, Global};

/// A name with a prefix.
fn prefixed(alloc: Global, prefix: &[u8], name: &[u8]) -> Result<Name, AllocError>
    ensures { IfOk result (λ whole. whole ≡ prefix.now ++ name.now) }
{
    let mut bytes = Vec::new(alloc);
    bytes.extend_from_slice(prefix)?;
    bytes.extend_from_slice(name)?;
    Ok(Name::new(bytes))
}

impl<P: Platform> SymbolMapping<P> {
    ghost use Rattle.std.specs.Prelude.{◌<◌, IfSome, IsTrue, None, OnErr, OnOk, is_some, length, if◌then◌else◌};
    ghost use Rattle.link_db_files.specs.HeldFiles.{names_in};
    ghost use Rattle.link_rules.specs.Names.{mapping_with, wrapped};
    ghost use Rattle.link_db_mapping.specs.Changes.{with_override};
    ghost use Rattle.link_db_mapping.specs.Mapped.{mapping_of};
    ghost use Rattle.link_db_mapping.specs.Seen.{seen};

    /// The symbol to which a plain name is mapped.
    fn mapped_name(&self, name: &Name) -> Option<SymbolId>
        ensures value { result ≡ mapping_of (seen self.now) name.now }
        ensures within { IfSome result (λ id. id < length (names_in (seen self.now).files)) }
    {
        self.mapped(key_hash(name.as_slice(), None), name.as_slice(), None)
    }

    /// The symbol to which a name is mapped, where its real name is mapped to none.
    fn original(&self, name: &Name, real: &Name) -> Option<SymbolId>
        ensures value { result ≡ (if is_some (mapping_of (seen self.now) real.now) then None else mapping_of (seen self.now) name.now) }
        ensures within { IfSome result (λ id. id < length (names_in (seen self.now).files)) }
    {
        match self.mapped_name(real) {
            Some(_) => None,
            None => self.mapped_name(name),
        }
    }

    /// Overrides one name, and another that is mapped to something: both or none.
    fn override_both(
        &mut self,
        first: Name,
        first_id: SymbolId,
        second: Name,
        second_id: SymbolId,
    ) -> Result<(), AllocError>
        requires first_id { first_id < length (names_in (seen self.old).files) }
        requires second_id { second_id < length (names_in (seen self.old).files) }
        requires mapped { IsTrue (is_some (mapping_of (seen self.old) second)) }
        ensures ok { OnOk result (seen self.new ≡ with_override second second_id (with_override first first_id (seen self.old))) }
        ensures err { OnErr result (seen self.new ≡ seen self.old) }
    {
        let first = self.hold(first)?;
        let second = self.hold(second)?;
        let _before = self.override_held(first, first_id)?;
        self.remap_held(second, second_id);
        Ok(())
    }
    /// Overrides a name with its wrapper, and its real name with what it had, as far as there are such.
    fn override_some(
        &mut self,
        name: Name,
        wrapper: Option<SymbolId>,
        real: Name,
        original: Option<SymbolId>,
    ) -> Result<(), AllocError>
        requires wrapper { IfSome wrapper (λ id. id < length (names_in (seen self.old).files)) }
        requires original { IfSome original (λ id. id < length (names_in (seen self.old).files)) }
        requires mapped { IsTrue (is_some original) → IsTrue (is_some (mapping_of (seen self.old) name)) }
        requires apart { name ≡ real → ⊥ }
        ensures ok { OnOk result (mapping_of (seen self.new) ≡ mapping_with real original (mapping_with name wrapper (mapping_of (seen self.old)))) }
        ensures err { OnErr result (seen self.new ≡ seen self.old) }
        ensures lists { (seen self.new).lists ≡ (seen self.old).lists }
        ensures files { (seen self.new).files ≡ (seen self.old).files }
    {
        match (wrapper, original) {
            (Some(wrapper), Some(original)) => self.override_both(real, original, name, wrapper),
            (Some(wrapper), None) => {
                let _before = self.override_name(name, wrapper)?;
                Ok(())
            }
            (None, Some(original)) => {
                let _before = self.override_name(real, original)?;
                Ok(())
            }
            (None, None) => Ok(()),
        }
    }

    /// Wraps a name: it is mapped to the symbol of its wrapper, and its real name to the one that it had, as far as there are such (GNU ld,
    /// `--wrap`). Mirrors a step of Wild's `SymbolDb::apply_wrapped_symbol_overrides`.
    ///
    /// After a refusal, which is want of memory, all is as before.
    pub fn wrap(&mut self, alloc: Global, name: &[u8]) -> Result<(), AllocError>
        ensures ok { OnOk result (mapping_of (seen self.new) ≡ wrapped (mapping_of (seen self.old)) name.now) }
        ensures err { OnErr result (seen self.new ≡ seen self.old) }
        ensures lists { (seen self.new).lists ≡ (seen self.old).lists }
        ensures files { (seen self.new).files ≡ (seen self.old).files }
    {
        let real = prefixed(alloc, b"__real_", name)?;
        let wrapper = prefixed(alloc, b"__wrap_", name)?;
        let name = Name::from_slice(alloc, name)?;
        let wrapper = self.mapped_name(&wrapper);
        let original = self.original(&name, &real);
        self.override_some(name, wrapper, real, original)
    }
}
