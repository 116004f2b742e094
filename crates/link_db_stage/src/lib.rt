//! A database of names as a stage of a link: laws that lead from what the calls of `link_db` promise to the definitions of a whole
//! link.
#![tactic(auto)]

ghost use Rattle.std.specs.Prelude.{◌≡◌, ℕ, List, fold};
ghost use Rattle.link_db_buckets.specs.Keys.{Key};
ghost use Rattle.link_input.specs.declared.options.Options.{Options};
ghost use Rattle.link_input.specs.declared.world.Scripts.{Scripts};
ghost use Rattle.link_input.specs.InputFiles.{Batch};
ghost use Rattle.link_input.specs.Symbols.{Symbol};
ghost use Rattle.link_rules.specs.Names.{wrapped};
ghost use Rattle.link_rules.specs.Places.{Bytes};
ghost use Rattle.link_rules.specs.Rules.{PlatformRules};
ghost use Rattle.link_rules.specs.Targets.{is_open, target, target_in};
ghost use Rattle.link_rules.specs.World.{Stage};
ghost use Rattle.link_db_mapping.specs.Mapped.{Mapped, mapping_of};
ghost use Rattle.link_db.specs.Database.{Database, name_table_of};
ghost use Rattle.link_db.specs.Overrides.{IsMappedAnew};
ghost use Rattle.link_db_stage.specs.AtStage.{HasBatches, HoldsBatches, IsAtStage};
ghost use Rattle.link_db_stage.specs.SameNames.{AreOfBatches};

use link_input::Platform;

/// The definitions of each name, and what it is mapped to before names are wrapped, follow from the files alone: neither the number
/// of workers shows, and so of buckets, nor the cutting into groups.
pub fn names_follow_from_the_files<P: Platform>()
    ensures lists { (options : Options) (m n : ℕ) (batches : List Batch) (a b : Mapped P)
        → AreOfBatches options m batches a → AreOfBatches options n batches b → (key : Key) → a.lists key ≡ b.lists key }
    ensures mapping { (options : Options) (m n : ℕ) (batches : List Batch) (a b : Mapped P)
        → AreOfBatches options m batches a → AreOfBatches options n batches b → a.overridden ≡ b.overridden → (name : Bytes) → mapping_of a name ≡ mapping_of b name }
{}

/// Once the files of the batches are added and the names of the options are wrapped, a database is at the stage of these batches.
pub fn a_database_comes_to_its_stage<P: Platform>()
    ensures { (platform : PlatformRules) (demangle : Bytes → Bytes) (texts : Scripts) (first : Batch) (later : List Batch) (old new : Database P) (w : Stage)
        → HoldsBatches platform texts first later old → IsMappedAnew old new
        → ((name : Bytes) → mapping_of new.mapping name ≡ fold wrapped (mapping_of old.mapping) old.options.wrap name)
        → HasBatches platform demangle old.options texts first later w → IsAtStage platform demangle new w }
{}

/// What a database answers for a reference is the reference's target at the stage.
pub fn a_reference_stands_for_its_target<P: Platform>()
    ensures { (platform : PlatformRules) (demangle : Bytes → Bytes) (db : Database P) (w : Stage) → IsAtStage platform demangle db w
        → (u : Symbol) → target_in platform.weak_overrides_common (name_table_of db) (is_open u) u.name u.version ≡ target w u }
{}
