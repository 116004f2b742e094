//! Profiles of reading: how strictly a script's entries are ended.

ghost use Rattle.std.specs.Prelude.{◌≡◌};
ghost use Rattle.link_script_syntax.specs.Profile.{token_end, is_end};

/// How version scripts and GNU export lists are read. The profiles differ in one thing: which byte ends a name or pattern
/// outside extern blocks.
#[derive(Clone, Copy, Debug, PartialEq, Eq)]
pub enum ScriptProfile {
    /// As Wild reads them: a `;` ends it. A `}` in front of the `;` is part of the name.
    Wild,
    /// A `;` or a `}` ends it, whichever comes first, and a `}` is left to be read. So the last entry needs no `;`, as it does for
    /// GNU ld.
    Lenient,
}

/// Which bytes end a name or pattern.
#[derive(Clone, Copy, Debug, PartialEq, Eq)]
pub enum TokenEnd {
    Semicolon,
    Brace,
    SemicolonOrBrace,
}

impl TokenEnd {
    /// Whether this byte ends a name or pattern.
    pub fn is_end(self, byte: u8) -> bool
        ensures { result ≡ is_end self byte }
    {
        match self {
            TokenEnd::Semicolon => byte == b';',
            TokenEnd::Brace => byte == b'}',
            TokenEnd::SemicolonOrBrace => byte == b';' || byte == b'}',
        }
    }
}

/// What ends a name or pattern outside extern blocks.
pub fn token_end(profile: ScriptProfile) -> TokenEnd
    ensures { result ≡ token_end profile }
{
    match profile {
        ScriptProfile::Wild => TokenEnd::Semicolon,
        ScriptProfile::Lenient => TokenEnd::SemicolonOrBrace,
    }
}
