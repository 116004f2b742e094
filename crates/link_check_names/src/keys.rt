//! Keys of names in a tree.

ghost use Rattle.std.specs.Prelude.{◌≡◌, option_map};
ghost use Rattle.link_check_names.specs.Keys.{key_for, key_of};

use link_names::hash_bytes;

/// The key of a name, with its version where it has one. The number of the name stands in front: where names share a long beginning,
/// most comparisons of keys end with the number.
pub fn name_key<'a>(name: &'a [u8], version: Option<&'a [u8]>) -> (u64, &'a [u8], Option<&'a [u8]>)
    ensures { key_of result ≡ key_for name.now (option_map (λ v. v.now) version.entry) }
{
    (hash_bytes(name), name, version)
}
