//! The versions that a script defines.

ghost use Rattle.std.specs.Prelude.{◌≡◌, ◌≤◌, ℕ, List, length, IfOk, IsTrue};
ghost use Rattle.link_script.specs.Script.{IsScriptOf};
ghost use Rattle.link_script_syntax.specs.declared.profile.ScriptProfile.{ScriptProfile};
ghost use Rattle.link_script_syntax.specs.declared.script.RawScript.{RawScript};
ghost use Rattle.link_script_syntax.specs.Grammar.{IsVersionScript};
ghost use Rattle.link_verdef.specs.Item.{is_lawful};
ghost use Rattle.link_verdef.specs.ScriptItems.{items_of, items_of_text};

use crate::item::VersionItem;
use link_names::{Name, Seq};
use link_script::VersionScript;
use std::alloc::{AllocError, Global};

/// The items of a script, by its versions.
fn script_items(
    alloc: Global,
    script: &VersionScript,
    soname: &[u8],
) -> Result<Seq<VersionItem>, AllocError>
    ensures value { IfOk result (λ items. items ≡ items_of script.now soname.now) }
    ensures few { IfOk result (λ items. length items ≤ 32_767) }
{
    let mut items = Seq::new(alloc);
    let VersionScript::Regular(script) = script else {
        return Ok(items);
    };
    let Some((base, versions)) = script.version_iter().split_first() else {
        return Ok(items);
    };
    if versions.is_empty() {
        return Ok(items);
    }
    items.push(VersionItem {
        name: Name::from_slice(alloc, soname)?,
        parent: base.parent_index,
    })?;
    for version in versions {
        items.push(VersionItem {
            name: version.name.clone()?,
            parent: version.parent_index,
        })?;
    }
    Ok(items)
}

/// The versions that a file of this soname defines by a script: its base under the soname, and each version of the script.
/// A script without named versions, or of the form that the Rust compiler writes, has none.
///
/// `VersionItems::new` makes a list of them that can be written. Of a script that was read from a text it always does.
pub fn items_of(
    alloc: Global,
    script: &VersionScript,
    soname: &[u8],
) -> Result<Seq<VersionItem>, AllocError>
    ensures value { IfOk result (λ items. items ≡ items_of script.now soname.now) }
    // The same by the text that the script was read from.
    ensures of_text { (raw : RawScript) → IsScriptOf raw script.now → IfOk result (λ items. items ≡ items_of_text raw soname.now) }
    // A file can define what a text spells.
    ensures lawful { (profile : ScriptProfile) (text : List ℕ) (raw : RawScript) → IsVersionScript profile text raw → IsScriptOf raw script.now →
        IfOk result (λ items. IsTrue (is_lawful items)) }
{
    script_items(alloc, script, soname)
}
