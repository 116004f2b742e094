//! How mangled names read.

ghost use Rattle.link_tests_db.specs.Reading.{read_name};

use link_script::Demangler;

/// A demangler that knows one mangled name, `_RNvC1a3foo`, which reads `a::foo`.
#[derive(Clone, Copy, Debug)]
pub struct OneName;

impl Demangler for OneName {
    ghost use Rattle.link_tests_db.specs.Reading.{read_name};

    ghost demangled = { λ d name. read_name name };

    fn demangle<'a>(&'a self, name: &'a str) -> &'a str {
        if name == "_RNvC1a3foo" {
            "a::foo"
        } else {
            name
        }
    }
}
