//! Names that are mapped to their first definitions again.

ghost use Rattle.std.specs.Prelude.{◌≡◌, None, if◌then◌else◌};
ghost use Rattle.std.specs.List.{list_any};
ghost use Rattle.link_db_buckets.specs.Buckets.{AreKeyed, definitions_at, overridden_at};
ghost use Rattle.link_db_buckets.specs.Keys.{Key, same_key};
ghost use Rattle.link_db_mapping.specs.Keys.{plain_key};

use link_db_buckets::{Buckets, Names, key_hash};
use link_names::Name;

/// Takes away what these plain names are overridden with.
pub(crate) fn restore_all<T: Names>(buckets: &mut Buckets, table: &T, names: &[Name])
    requires { AreKeyed (T.key_at table.now) buckets.old }
    ensures keyed { AreKeyed (T.key_at table.now) buckets.new }
    ensures overridden { (asked : Key) → overridden_at (T.key_at table.now) buckets.new asked
        ≡ (if list_any (λ name. same_key (plain_key name) asked) names.now then None else overridden_at (T.key_at table.now) buckets.old asked) }
    ensures definitions { (asked : Key) → definitions_at (T.key_at table.now) buckets.new asked ≡ definitions_at (T.key_at table.now) buckets.old asked }
{
    for name in names {
        let name = name.as_slice();
        buckets.restore(table, key_hash(name, None), name, None);
    }
}
