//! The words of a manifest, and what each stands for.

ghost use Rattle.std.specs.Prelude.{◌≡◌, ℕ, List, option_map, option_and_then};
ghost use Rattle.link_names.specs.Names.{value_in};
ghost use Rattle.link_manifest.specs.Words.{word_read, platform_words, output_words, placement_words, binding_words, visibility_words, kind_words};

use crate::fault::{Kind, ManifestError, Problem};
use crate::path::fault_here;
use crate::reading::Readable;
use json::Value;
use link_flags::Visibility;
use link_input::{OutputKind, SymbolBinding, SymbolKind};
use link_manifest_json::to_text;
use std::alloc::Global;
use std::marker::PhantomData;

/// A platform by its name.
#[derive(Clone, Copy, Drop)]
pub(crate) enum PlatformName {
    Elf,
    Mach,
}

/// Where a symbol of the linker stands, without the section.
#[derive(Clone, Copy, Drop)]
pub(crate) enum PlacementName {
    SectionStart,
    SectionEnd,
    SectionGroupEnd,
    TlsEnd,
    LoadBase,
    PlatformSpecific,
}

/// What words stand for.
pub(crate) trait Word: Sized + Drop {
    /// The words, and what each stands for.
    ghost words: { List (List ℕ × Self) };

    /// What this word stands for.
    fn of_word(word: &str) -> Option<Self>
        ensures { result ≡ value_in words word.now };
}

impl Word for PlatformName {
    ghost words = { platform_words };

    fn of_word(word: &str) -> Option<PlatformName> {
        match word {
            "elf" => Some(PlatformName::Elf),
            "macho" => Some(PlatformName::Mach),
            _ => None,
        }
    }
}

impl Word for OutputKind {
    ghost words = { output_words };

    fn of_word(word: &str) -> Option<OutputKind> {
        match word {
            "static" => Some(OutputKind::StaticExecutable),
            "dynamic" => Some(OutputKind::DynamicExecutable),
            "shared" => Some(OutputKind::SharedObject),
            "partial" => Some(OutputKind::Partial),
            _ => None,
        }
    }
}

impl Word for PlacementName {
    ghost words = { placement_words };

    fn of_word(word: &str) -> Option<PlacementName> {
        match word {
            "section_start" => Some(PlacementName::SectionStart),
            "section_end" => Some(PlacementName::SectionEnd),
            "section_group_end" => Some(PlacementName::SectionGroupEnd),
            "tls_end" => Some(PlacementName::TlsEnd),
            "load_base" => Some(PlacementName::LoadBase),
            "platform" => Some(PlacementName::PlatformSpecific),
            _ => None,
        }
    }
}

impl Word for SymbolBinding {
    ghost words = { binding_words };

    fn of_word(word: &str) -> Option<SymbolBinding> {
        match word {
            "local" => Some(SymbolBinding::Local),
            "global" => Some(SymbolBinding::Global),
            "weak" => Some(SymbolBinding::Weak),
            "unique" => Some(SymbolBinding::Unique),
            _ => None,
        }
    }
}

impl Word for Visibility {
    ghost words = { visibility_words };

    fn of_word(word: &str) -> Option<Visibility> {
        match word {
            "default" => Some(Visibility::Default),
            "protected" => Some(Visibility::Protected),
            "hidden" => Some(Visibility::Hidden),
            _ => None,
        }
    }
}

impl Word for SymbolKind {
    ghost words = { kind_words };

    fn of_word(word: &str) -> Option<SymbolKind> {
        match word {
            "plain" => Some(SymbolKind::Plain),
            "func" => Some(SymbolKind::Func),
            "ifunc" => Some(SymbolKind::Ifunc),
            "tls" => Some(SymbolKind::Tls),
            _ => None,
        }
    }
}

/// One of the words that stand for a `W`.
pub(crate) struct OneOf<W> {
    word: PhantomData<W>,
}

/// What a text stands for that is one of the words.
fn word_of<W: Word>(text: Option<&str>) -> Option<W>
    ensures { result ≡ option_and_then (value_in W.words) (option_map (λ t. t.now) text.entry) }
{
    W::of_word(text?)
}

impl<W: Word> Readable for OneOf<W> {
    type Read = W;

    ghost read = { word_read W.words };

    fn read(alloc: Global, value: &Value<'_>) -> Result<W, ManifestError> {
        match word_of(to_text(value)) {
            Some(found) => Ok(found),
            None => Err(fault_here(alloc, Problem::Expected(Kind::Word))),
        }
    }
}
