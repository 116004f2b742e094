//! Why the objects of a link are loaded, and which of several definitions of a name counts.

ghost use Rattle.std.specs.Prelude.{◌≡◌, ◌++◌, [], List, IfOk, OnOk, codes, decimal, slice_get, string_bytes};
ghost use Rattle.std.specs.List.{flat_map, slice_index_or};
ghost use Rattle.std.specs.Option.{option_map_or};
ghost use Rattle.link_db_files.specs.GroupFiles.{symbols_in};
ghost use Rattle.link_db_files.specs.HeldFiles.{HeldFiles, names_in, version_of};
ghost use Rattle.link_rules.specs.declared.explanation.Explanation.{Explanation as Explained};
ghost use Rattle.link_rules.specs.declared.explanation.FoundRoot.{FoundRoot};
ghost use Rattle.link_rules.specs.Explained.{Explains};
ghost use Rattle.link_rules.specs.Selection.{Selection};
ghost use Rattle.link_core_answer.specs.Seen.{seen};
ghost use Rattle.link_report.specs.Why.{case_text, listed_name, name_at, reason_text, rule_line, version_at, why_line, why_text};

use crate::lines::{write_symbol_name, write_version};
use link_core_answer::Linked;
use link_ids::SymbolId;
use link_input::Platform;
use link_names::NameView;
use link_rules::{ChoiceCase, Explanation, LoadedReason, NameChoice, Reason};
use std::alloc::{AllocError, Global};
use std::fmt::Write;

/// The explanation of a link, line by line: why each object is loaded, and then which of several definitions of a name counts, and
/// by which case.
///
/// Names are those of the link's symbols. An id that is none of these has the empty name. The only refusal is want of memory.
pub fn why_text<P: Platform>(
    alloc: Global,
    linked: &Linked<P>,
    explanation: &Explanation,
) -> Result<Vec<u8>, AllocError>
    ensures { let held = (seen linked.now).db.mapping.files in
        IfOk result (λ text. text.items ≡ why_text (λ s. slice_index_or (names_in held) s []) (version_of held) explanation.now) }
{
    let mut text = String::new(alloc);
    write_why_lines(&mut text, explanation.reasons.as_slice())?;
    write_rule_lines(&mut text, linked, explanation.choices.as_slice())?;
    Ok(text.into_bytes())
}

/// Adds the lines of reasons.
fn write_why_lines(text: &mut String, reasons: &[LoadedReason]) -> Result<(), AllocError>
    ensures { OnOk result (string_bytes text.new ≡ string_bytes text.old ++ flat_map why_line reasons.now) }
{
    for reason in reasons {
        write_why_line(text, reason)?;
    }
    Ok(())
}

/// Adds the line of a loaded object and its reason.
fn write_why_line(text: &mut String, loaded: &LoadedReason) -> Result<(), AllocError>
    ensures { OnOk result (string_bytes text.new ≡ string_bytes text.old ++ why_line loaded.now) }
{
    write!(text, "why {} ", loaded.object)?;
    write_reason(text, &loaded.reason)?;
    text.push_str("\n")
}

/// Adds a reason.
fn write_reason(text: &mut String, reason: &Reason) -> Result<(), AllocError>
    ensures { OnOk result (string_bytes text.new ≡ string_bytes text.old ++ reason_text reason.now) }
{
    match reason {
        Reason::Required => text.push_str("required"),
        Reason::Root(name) => {
            text.push_str("root ")?;
            write_symbol_name(text, &NameView::new(name.as_slice()))
        }
        Reason::Reference { symbol, object } => write!(text, "symbol {symbol} of {object}"),
    }
}

/// Adds the lines of choices.
fn write_rule_lines<P: Platform>(
    text: &mut String,
    linked: &Linked<P>,
    choices: &[NameChoice],
) -> Result<(), AllocError>
    ensures { let held = (seen linked.now).db.mapping.files in
        OnOk result (string_bytes text.new ≡ string_bytes text.old
        ++ flat_map (rule_line (λ s. slice_index_or (names_in held) s []) (version_of held)) choices.now) }
{
    for choice in choices {
        write_rule_line(text, linked, choice)?;
    }
    Ok(())
}

/// Adds the line of a choice, by the name of the first of the definitions.
fn write_rule_line<P: Platform>(
    text: &mut String,
    linked: &Linked<P>,
    choice: &NameChoice,
) -> Result<(), AllocError>
    ensures { let held = (seen linked.now).db.mapping.files in
        OnOk result (string_bytes text.new ≡ string_bytes text.old ++ rule_line (λ s. slice_index_or (names_in held) s []) (version_of held) choice.now) }
{
    text.push_str("rule ")?;
    write_name_of_first(text, linked, choice.symbols.as_slice(), choice.is_versioned)?;
    write!(text, " {} {}", choice.chosen, case_text(choice.case))?;
    write_ids(text, choice.symbols.as_slice())?;
    text.push_str("\n")
}

/// Adds the name of the first of some definitions.
fn write_name_of_first<P: Platform>(
    text: &mut String,
    linked: &Linked<P>,
    ids: &[SymbolId],
    is_versioned: bool,
) -> Result<(), AllocError>
    ensures { let held = (seen linked.now).db.mapping.files in
        OnOk result (string_bytes text.new ≡ string_bytes text.old
        ++ option_map_or (listed_name (λ s. slice_index_or (names_in held) s []) (version_of held) is_versioned) (slice_get ids.now 0) []) }
{
    match ids.first() {
        None => Ok(()),
        Some(first) => write_listed_name(text, linked, *first, is_versioned),
    }
}

/// Adds the name of the symbol, with its version where definitions of a name and version are meant. An id that is no symbol has neither.
fn write_listed_name<P: Platform>(
    text: &mut String,
    linked: &Linked<P>,
    id: SymbolId,
    is_versioned: bool,
) -> Result<(), AllocError>
    ensures { let held = (seen linked.now).db.mapping.files in
        OnOk result (string_bytes text.new ≡ string_bytes text.old ++ listed_name (λ s. slice_index_or (names_in held) s []) (version_of held) is_versioned id) }
{
    if id.as_usize() >= linked.num_symbols() {
        return Ok(());
    }
    write!(text, "{}", linked.symbol_name(id))?;
    if is_versioned {
        write_version(text, &linked.symbol_version(id))?;
    }
    Ok(())
}

/// Adds ids, each behind a blank.
fn write_ids(text: &mut String, ids: &[SymbolId]) -> Result<(), AllocError>
    ensures { OnOk result (string_bytes text.new ≡ string_bytes text.old ++ flat_map (λ s. codes " " ++ decimal s) ids.now) }
{
    for id in ids {
        write!(text, " {id}")?;
    }
    Ok(())
}

/// The word of a case.
fn case_text<'a>(case: ChoiceCase) -> &'a str
    ensures { result.now ≡ case_text case }
{
    match case {
        ChoiceCase::Strong => "strong",
        ChoiceCase::Common => "common",
        ChoiceCase::Weak => "weak",
        ChoiceCase::Surviving => "surviving",
        ChoiceCase::Loaded => "loaded",
        ChoiceCase::First => "first",
    }
}

/// The text of what explains a link has the names and versions of the link's own symbols, where the files held are those of the
/// link: each choice goes by the name of a symbol of a file.
pub fn choices_go_by_the_names_of_files<P: Platform>()
    ensures { (l : Selection) (roots : List FoundRoot) (explanation : Explained) (held : HeldFiles P)
        → Explains l roots explanation → symbols_in held.groups ≡ l.stage.symbols
        → why_text (λ s. slice_index_or (names_in held) s []) (version_of held) explanation
        ≡ why_text (name_at l.stage.symbols) (version_at l.stage.symbols) explanation }
{}
