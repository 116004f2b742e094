//! The linker scripts of groups, and the name of the entry point that they give.

ghost use Rattle.std.specs.Prelude.{◌≡◌, [], ◌∷◌, filter_map, map, option_map};
ghost use Rattle.std.specs.Option.{option_or};
ghost use Rattle.link_db_files.specs.Inputs.{scripts_in};
ghost use Rattle.link_rules.specs.Places.{last_of};

use link_input::Platform;
use link_input_groups::{Group, SequencedLinkerScript};
use link_names::Name;

/// The linker scripts of a group.
pub fn scripts_of<P: Platform>(group: &Group<P>) -> &[SequencedLinkerScript]
    ensures { map (λ s. s.parsed) result.now ≡ scripts_in (group.now ∷ []) }
{
    match group {
        Group::LinkerScripts(scripts) => scripts.as_slice(),
        _ => &[],
    }
}

/// The entry of the last of these linker scripts that has one, else that of those before.
fn last_entry<'a>(
    scripts: &'a [SequencedLinkerScript],
    before: Option<&'a Name>,
) -> Option<&'a Name>
    ensures { option_map (λ n. n.now) result ≡ option_or (last_of (filter_map (λ s. s.entry) (map (λ s. s.parsed) scripts.now))) (option_map (λ n. n.now) before.entry) }
{
    let mut last = before;
    for script in scripts {
        last = script.parsed.entry.as_ref().or(last);
    }
    last
}

/// The entry of the last linker script of these groups that has one.
pub fn entry_of_scripts<P: Platform>(groups: &[Group<P>]) -> Option<&Name>
    ensures { option_map (λ n. n.now) result ≡ last_of (filter_map (λ s. s.entry) (scripts_in groups.now)) }
{
    let mut last = None;
    for group in groups {
        last = last_entry(scripts_of(group), last);
    }
    last
}
