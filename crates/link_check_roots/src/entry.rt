//! The name of the entry point.

ghost use Rattle.std.specs.Prelude.{◌≡◌, filter_map, option_map};
ghost use Rattle.std.specs.Option.{option_or};
ghost use Rattle.link_rules.specs.Places.{last_of};
ghost use Rattle.link_check_roots.specs.Given.{entry_in};

use link_input::{Options, ProcessedLinkerScript};
use link_names::Name;

/// The entry of a linker script, else that of the ones before it.
fn later_entry<'a>(last: Option<&'a Name>, script: &'a ProcessedLinkerScript) -> Option<&'a Name>
    ensures { option_map (λ n. n.now) result ≡ option_or script.now.entry (option_map (λ n. n.now) last.entry) }
{
    match &script.entry {
        Some(entry) => Some(entry),
        None => last,
    }
}

/// The entry of the last linker script that has one.
fn last_entry<'a>(scripts: &'a [ProcessedLinkerScript]) -> Option<&'a Name>
    ensures { option_map (λ n. n.now) result ≡ last_of (filter_map (λ s. s.entry) scripts.now) }
{
    let mut last = None;
    for script in scripts {
        last = later_entry(last, script);
    }
    last
}

/// The entry: that of the options, else that of the last linker script that has one, else the platform's.
pub fn entry_name<'a>(
    options: &'a Options,
    scripts: &'a [ProcessedLinkerScript],
) -> Option<&'a Name>
    ensures { option_map (λ n. n.now) result ≡ entry_in options.now scripts.now }
{
    if let Some(entry) = &options.entry {
        return Some(entry);
    }
    match last_entry(scripts) {
        Some(entry) => Some(entry),
        None => options.default_entry.as_ref(),
    }
}
