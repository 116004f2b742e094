//! What linker scripts and stub libraries are called, and how many symbols they have.

ghost use Rattle.std.specs.Prelude.{◌≡◌, ◌+◌, length};

use crate::world::{ProcessedLinkerScript, StubLibrary};
use std::fmt;

impl ProcessedLinkerScript {
    /// How many symbols it defines.
    pub fn num_symbols(&self) -> usize
        ensures { result ≡ length self.now.symbol_defs }
    {
        self.symbol_defs.len()
    }
}

impl fmt::Display for ProcessedLinkerScript {
    ghost use Rattle.std.specs.Prelude.{Some};
    ghost use Rattle.link_names.specs.NameText.{name_text};

    ghost output = { λ s. Some (name_text s.input) };

    fn fmt<W: fmt::Write>(&self, f: &mut fmt::Formatter<W>) -> fmt::Result {
        self.input.fmt(f)
    }
}

impl StubLibrary {
    /// How many names it has, strong and weak ones.
    pub fn num_symbols(&self) -> usize
        ensures { result ≡ length self.now.strong + length self.now.weak }
    {
        let strong = self.strong.as_slice();
        let weak = self.weak.as_slice();
        strong.len() + weak.len()
    }
}

impl fmt::Display for StubLibrary {
    ghost use Rattle.std.specs.Prelude.{Some};
    ghost use Rattle.link_names.specs.NameText.{name_text};

    ghost output = { λ s. Some (name_text s.input) };

    fn fmt<W: fmt::Write>(&self, f: &mut fmt::Formatter<W>) -> fmt::Result {
        self.input.fmt(f)
    }
}
