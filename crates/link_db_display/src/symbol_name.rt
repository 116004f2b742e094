//! The name of a symbol, as messages show it.

use link_names::{NameView, text_of, write_name};
use link_script::Demangler;
use std::fmt;

/// The name of a symbol, demangled where there is a demangler: a name that is not UTF-8 is shown by the numbers of its bytes. Mirrors
/// Wild's `SymbolNameDisplay`.
#[derive(Debug, Drop)]
pub struct SymbolNameDisplay<'a, D: Demangler> {
    pub name: NameView<'a>,
    /// None where names are shown as they are.
    pub demangler: Option<&'a D>,
}

impl<'a, D: Demangler> fmt::Display for SymbolNameDisplay<'a, D> {
    ghost use Rattle.std.specs.Prelude.{Some, option_map};
    ghost use Rattle.link_db_display.specs.SymbolText.{shown_name};

    ghost output = { λ n. Some (shown_name (option_map (λ d. D.demangled d.now) n.demangler) n.name) };

    fn fmt<W: fmt::Write>(&self, f: &mut fmt::Formatter<W>) -> fmt::Result {
        match (self.demangler, text_of(self.name.as_slice())) {
            (Some(demangler), Some(text)) => f.write_str(demangler.demangle(text)),
            _ => write_name(f, self.name.as_slice()),
        }
    }
}
