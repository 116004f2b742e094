//! Laws about what buckets hold. Each is a function that does nothing: its contract is the law.

ghost use Rattle.std.specs.Prelude.{◌≡◌, [], ℕ, is_some, IsTrue, Option, Some, option_map, slice_get};
ghost use Rattle.std.specs.Option.{option_and_then, option_map_or};
ghost use Rattle.link_db_buckets.specs.declared.bucket.Bucket.{Bucket};
ghost use Rattle.link_db_buckets.specs.declared.buckets.Buckets.{Buckets};
ghost use Rattle.link_db_buckets.specs.declared.head.Head.{Head};
ghost use Rattle.link_db_buckets.specs.declared.label.Label.{Label};
ghost use Rattle.link_db_buckets.specs.Keys.{Extends, Key};
ghost use Rattle.link_db_buckets.specs.Heads.{head_of, ids_of, is_used};
ghost use Rattle.link_db_buckets.specs.Bucket.{IsKeyed, definitions_in, heads_in, label_in, overridden_in};
ghost use Rattle.link_db_buckets.specs.Buckets.{AreKeyed, all_heads, buckets_in, definitions_at, label_at, mapped_at, overridden_at};

/// Where the tables of names grow, a bucket says of each name what it said.
pub fn growing_tables_keep_a_bucket()
    ensures keyed { (old new : Label → Option Key) (b : Bucket) → Extends old new → IsKeyed old b → IsKeyed new b }
    ensures definitions { (old new : Label → Option Key) (b : Bucket) (asked : Key) → Extends old new → IsKeyed old b → definitions_in new b asked ≡ definitions_in old b asked }
    ensures overridden { (old new : Label → Option Key) (b : Bucket) (asked : Key) → Extends old new → IsKeyed old b → overridden_in new b asked ≡ overridden_in old b asked }
    ensures labels { (old new : Label → Option Key) (b : Bucket) (asked : Key) → Extends old new → IsKeyed old b → label_in new b asked ≡ label_in old b asked }
{}

/// Where the tables of names grow, buckets say of each name what they said.
pub fn growing_tables_keep_buckets()
    ensures keyed { (old new : Label → Option Key) (bs : Buckets) → Extends old new → AreKeyed old bs → AreKeyed new bs }
    ensures definitions { (old new : Label → Option Key) (bs : Buckets) (asked : Key) → Extends old new → AreKeyed old bs → definitions_at new bs asked ≡ definitions_at old bs asked }
    ensures overridden { (old new : Label → Option Key) (bs : Buckets) (asked : Key) → Extends old new → AreKeyed old bs → overridden_at new bs asked ≡ overridden_at old bs asked }
    ensures labels { (old new : Label → Option Key) (bs : Buckets) (asked : Key) → Extends old new → AreKeyed old bs → label_at new bs asked ≡ label_at old bs asked }
{}

/// What buckets say of a name is what is found among the heads of all of them: no hash number and no number of buckets shows.
pub fn buckets_do_not_show()
    ensures definitions { (names : Label → Option Key) (bs : Buckets) (asked : Key) → AreKeyed names bs → definitions_at names bs asked ≡ option_map_or ids_of (head_of names (all_heads bs) asked) [] }
    ensures overridden { (names : Label → Option Key) (bs : Buckets) (asked : Key) → AreKeyed names bs → overridden_at names bs asked ≡ option_and_then (λ h. h.overridden) (head_of names (all_heads bs) asked) }
    ensures labels { (names : Label → Option Key) (bs : Buckets) (asked : Key) → AreKeyed names bs → label_at names bs asked ≡ option_map (λ h. h.label) (head_of names (all_heads bs) asked) }
{}

/// Where buckets have the labels that they had before the tables grew, as after a refused `apply`, the tables may go back: the buckets
/// then say of each name what they say.
pub fn tables_go_back()
    ensures keyed { (fewer names : Label → Option Key) (before after : Buckets) → Extends fewer names → AreKeyed fewer before → AreKeyed names after
        → ((asked : Key) → label_at names after asked ≡ label_at names before asked) → AreKeyed fewer after }
    ensures definitions { (fewer names : Label → Option Key) (before after : Buckets) (asked : Key) → Extends fewer names → AreKeyed fewer before → AreKeyed names after
        → ((asked : Key) → label_at names after asked ≡ label_at names before asked) → definitions_at fewer after asked ≡ definitions_at names after asked }
    ensures overridden { (fewer names : Label → Option Key) (before after : Buckets) (asked : Key) → Extends fewer names → AreKeyed fewer before → AreKeyed names after
        → ((asked : Key) → label_at names after asked ≡ label_at names before asked) → overridden_at fewer after asked ≡ overridden_at names after asked }
    ensures labels { (fewer names : Label → Option Key) (before after : Buckets) (asked : Key) → Extends fewer names → AreKeyed fewer before → AreKeyed names after
        → ((asked : Key) → label_at names after asked ≡ label_at names before asked) → label_at fewer after asked ≡ label_at names after asked }
{}

/// A key has a label exactly where it is mapped to something. Each head in use is what the buckets say of a name, and it is the only one of this name: who walks over all heads in use
/// meets each name that is mapped to something once.
pub fn heads_are_names()
    ensures labels { (names : Label → Option Key) (bs : Buckets) (asked : Key) → is_some (label_at names bs asked) ≡ is_some (mapped_at names bs asked) }
    ensures heads { (names : Label → Option Key) (bs : Buckets) (place : ℕ) (b : Bucket) (at : ℕ) (h : Head) → AreKeyed names bs → slice_get (buckets_in bs) place ≡ Some b → slice_get (heads_in b) at ≡ Some h → IsTrue (is_used h)
        → (key : Key) × (names h.label ≡ Some key) × (label_at names bs key ≡ Some h.label) × (definitions_at names bs key ≡ ids_of h) × (overridden_at names bs key ≡ h.overridden) }
{}
