//! Laws about the explanation of a link.

ghost use Rattle.std.specs.Prelude.{◌≡◌, ◌<◌, ◌≤◌, ◌++◌, ◌∷◌, [], ℕ, All, Bool, List, IsTrue, Ok, length};
ghost use Rattle.link_closure.specs.Closure.{IsLeastClosed, is_marked};
ghost use Rattle.link_rules.specs.declared.explanation.Explanation.{Explanation};
ghost use Rattle.link_rules.specs.declared.explanation.FoundRoot.{FoundRoot};
ghost use Rattle.link_rules.specs.declared.explanation.LoadedReason.{LoadedReason};
ghost use Rattle.link_rules.specs.World.{Stage, World};
ghost use Rattle.link_rules.specs.Selection.{Selection};
ghost use Rattle.link_rules.specs.Answer.{BatchesEnd};
ghost use Rattle.link_rules.specs.Reasons.{AreReasons, HasLevel, LeadBack, Loads, is_rooted};
ghost use Rattle.link_input.specs.InputFiles.{Batch};
ghost use Rattle.link_rules.specs.FoundRoots.{Passes, PassesFrom, found_roots, lasting_names};
ghost use Rattle.link_rules.specs.Explained.{Explains, IsExplanation};

/// A link has one explanation. Where the loaded objects are the least closed set of what is loaded without a reference and what references
/// ask for, each of them has a level, below how many objects there are, and its reasons lead back in as many steps.
pub fn an_explanation_leads_back()
    ensures one { (l : Selection) (roots : List FoundRoot) (a b : Explanation) → Explains l roots a → Explains l roots b → a ≡ b }
    ensures level { (l : Selection) (roots : List FoundRoot) (f : ℕ)
        → IsLeastClosed (λ g. IsTrue (is_rooted l.stage roots g)) (Loads l) (length l.stage.objects) l.marks
        → IsTrue (is_marked l.marks f) → (n : ℕ) × (n < length l.stage.objects) × HasLevel l roots n f }
    ensures back { (l : Selection) (roots : List FoundRoot) (reasons : List LoadedReason) (n f : ℕ)
        → IsLeastClosed (λ g. IsTrue (is_rooted l.stage roots g)) (Loads l) (length l.stage.objects) l.marks
        → AreReasons l roots reasons → HasLevel l roots n f → LeadBack reasons n f }
{}

/// The loaded objects at the end of a link are the least closed set of what is loaded without a reference, at whatever stage it was
/// found, and what the references of loaded objects ask for at the end. A link that ends well passes stages.
pub fn loaded_objects_follow_from_all_roots()
    ensures stages { (world : World) (last : Selection) → BatchesEnd world (Ok last) → (ws : List Stage) × Passes world ws last }
    ensures loaded { (world : World) (ws : List Stage) (last : Selection) → Passes world ws last
        → IsLeastClosed (λ g. IsTrue (is_rooted last.stage (found_roots ws last.stage) g)) (Loads last) (length last.stage.objects) last.marks }
{}

/// A link passes its stages in one way. With one batch more it passes one stage more, the last one. No stage has more lasting names than the last one, so
/// each of them has its place there.
pub fn a_link_passes_its_stages_once()
    ensures once { (world : World) (ws vs : List Stage) (l k : Selection) → Passes world ws l → Passes world vs k → (ws ≡ vs) × (l ≡ k) }
    ensures more { (before : Stage) (b : Batch) (later : List Batch) (c : Batch) (ws : List Stage) (l : Selection)
        → PassesFrom before b (later ++ c ∷ []) ws l → (front : List Stage) × (k : Selection) × PassesFrom before b later front k × (ws ≡ front ++ l.stage ∷ []) }
    ensures names { (world : World) (ws : List Stage) (last : Selection) → Passes world ws last
        → All (λ w. length (lasting_names w) ≤ length (lasting_names last.stage)) ws }
{}

/// A link of a world has one explanation, if it ends well. It has a reason for each loaded object, and from each the reasons lead back to an object that is
/// loaded without a reference.
pub fn a_link_has_one_explanation()
    ensures one { (world : World) (a b : Explanation) → IsExplanation world a → IsExplanation world b → a ≡ b }
    ensures back { (world : World) (explanation : Explanation) → IsExplanation world explanation
        → All (λ r. (n : ℕ) × LeadBack explanation.reasons n r.object) explanation.reasons }
{}
