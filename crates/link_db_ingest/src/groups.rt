//! Reads the symbols of groups, side by side.

ghost use Rattle.std.specs.Prelude.{◌≡◌, IfOk};
ghost use Rattle.std.specs.List.{AllZip, flat_map};
ghost use Rattle.link_input_groups.specs.Groups.{files_of};
ghost use Rattle.link_rules.specs.World.{Stage};
ghost use Rattle.link_db_texts.specs.Holds.{platform_of};
ghost use Rattle.link_db_ingest.specs.Files.{AllCanBeRead, CanBeRead, IsStageBy, file_definitions, file_flags, numbers_of};
ghost use Rattle.link_db_ingest.specs.Parts.{HasAllFlags, IsReadOf};

use crate::group::read_group;
use crate::read_symbols::ReadSymbols;
use link_db_texts::TextRules;
use link_input::{OutputKind, Platform};
use link_input_groups::Group;
use link_script::Demangler;
use rayon::prelude::*;
use std::alloc::{AllocError, Global};
use std::thread::Threads;

/// What is read of the symbols of each group, by the rules of a link, its output, and how names demangle, the groups side by side.
/// Its only refusal is want of memory.
pub fn read_groups<R: Threads + Sync, P: Platform + Sync, D: Demangler + Sync>(
    rt: &R,
    alloc: Global,
    rules: &TextRules<P>,
    output: OutputKind,
    demangler: &D,
    groups: &[Group<P>],
) -> Result<Vec<ReadSymbols>, AllocError>
    requires { AllCanBeRead groups.now }
    ensures definitions { IfOk result (λ parts. flat_map (λ part. part.definitions.items) parts.items
        ≡ flat_map file_definitions (flat_map (λ g. files_of g) groups.now)) }
    ensures flags { IfOk result (λ parts. (w : Stage) → IsStageBy (platform_of P.Platform) (D.demangled demangler.now) rules.now output w
        → flat_map (λ part. numbers_of part.flags.items) parts.items ≡ flat_map (file_flags w) (flat_map (λ g. files_of g) groups.now)) }
    ensures count { IfOk result (λ parts. AllZip (λ group part. HasAllFlags group part) groups.now parts.items) }
{
    groups
        .par_iter()
        .with_min_len(1)
        .map(
            |group: &Group<P>| -> Result<ReadSymbols, AllocError>
                requires { CanBeRead group.now }
                ensures { IfOk result (IsReadOf (platform_of P.Platform) (D.demangled demangler.entry.now) rules.entry.now output group.now) }
            { read_group(alloc, rules, output, demangler, group) },
        )
        .collect::<Result<Vec<ReadSymbols>, AllocError>>(rt, alloc)?
}
