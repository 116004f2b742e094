//! A name that is looked up, and how it reads demangled.

ghost use Rattle.std.specs.Prelude.{◌≡◌, List, ℕ};
ghost use Rattle.std.specs.Option.{option_map};
ghost use Rattle.link_script.specs.Lookup.{asked, seen, name_of, text_of};

/// How the names of a language read: what a demangler answers is a function of it and the name.
pub trait Demangler {
    ghost demangled: { Self → List ℕ → List ℕ };

    /// The name as it reads demangled; a name that is not mangled stays as it is.
    fn demangle<'a>(&'a self, name: &'a str) -> &'a str
        ensures { result.now ≡ demangled self.now name.now };
}

/// Names as they are.
#[derive(Clone, Copy, Debug, PartialEq, Eq)]
pub struct Plain;

impl Demangler for Plain {
    ghost demangled = { λ p name. name };

    fn demangle<'a>(&'a self, name: &'a str) -> &'a str {
        name
    }
}

impl<D: Demangler> Demangler for &D {
    ghost demangled = { λ d name. D.demangled d.now name };

    fn demangle<'a>(&'a self, name: &'a str) -> &'a str {
        (**self).demangle(name)
    }
}

/// A name that is looked up: its bytes, its text if it is UTF-8, and that text demangled.
#[derive(Clone, Copy)]
pub struct Lookup<'a> {
    pub bytes: &'a [u8],
    pub text: Option<&'a str>,
    pub demangled: Option<&'a str>,
}

/// The name as it is looked up.
pub fn look_up<'a, D: Demangler>(name: &'a [u8], demangler: &'a D) -> Lookup<'a>
    ensures { seen result ≡ asked (D.demangled demangler.now) name.now }
{
    match str::from_utf8(name) {
        Ok(text) => Lookup {
            bytes: name,
            text: Some(text),
            demangled: Some(demangler.demangle(text)),
        },
        Err(_) => Lookup {
            bytes: name,
            text: None,
            demangled: None,
        },
    }
}

/// The name that a plain pattern sees, and where `cxx` one of C++.
pub fn name_of<'a>(name: &Lookup<'a>, cxx: bool) -> Option<&'a [u8]>
    ensures { option_map (λ n. n.now) result ≡ name_of (seen name.now) cxx }
{
    if !cxx {
        return Some(name.bytes);
    }
    match name.demangled {
        Some(text) => Some(text.as_bytes()),
        None => None,
    }
}

/// The text that a plain pattern sees, and where `cxx` one of C++.
pub fn text_of<'a>(name: &Lookup<'a>, cxx: bool) -> Option<&'a str>
    ensures { option_map (λ t. t.now) result ≡ text_of (seen name.now) cxx }
{
    if cxx { name.demangled } else { name.text }
}
