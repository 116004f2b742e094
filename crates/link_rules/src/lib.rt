//! What a link means: the definitions that every contract of the linker cites, and the laws about them. Here are types and
//! definitions alone; `link_core` computes what they say.
#![tactic(auto)]

mod explanation;
mod laws_examples;
mod laws_explanation;
mod laws_work;
mod laws_world;
mod linked;
mod refusal;

pub use explanation::{ChoiceCase, Explanation, FoundRoot, LoadedReason, NameChoice, Reason};
pub use laws_examples::definitions_at_work;
pub use laws_explanation::{
    a_link_has_one_explanation, a_link_passes_its_stages_once, an_explanation_leads_back,
    loaded_objects_follow_from_all_roots,
};
pub use laws_work::{
    each_stage_has_its_loaded_objects, each_stage_is_orderly, items_are_their_object,
    stages_have_the_symbols_of_their_files, work_is_the_link,
};
pub use laws_world::{
    a_definition_is_its_own, a_world_has_one_answer, batches_have_one_end, kept_group_in_any_order,
    platforms_have_these_rules, sorted_texts_are_sorted, texts_are_matched,
    the_cutting_does_not_show, undefined_entries_are_references,
};
pub use linked::{GivenVersion, KeptGroup};
pub use refusal::{LinkError, ScriptOrigin};
