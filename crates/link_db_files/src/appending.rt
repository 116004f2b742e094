//! Lists that grow together.

ghost use Rattle.std.specs.Prelude.{◌≡◌, ◌++◌, OnErr, OnOk};

use std::alloc::AllocError;

/// Puts a list behind another one. Behind an empty one it takes its place, so that nothing is copied. After a refusal, which is want of
/// memory, the other one is as before.
pub(crate) fn append_list<A: Drop>(list: &mut Vec<A>, mut more: Vec<A>) -> Result<(), AllocError>
    ensures ok { OnOk result (list.new.items ≡ list.old.items ++ more.items) }
    ensures err { OnErr result (list.new.items ≡ list.old.items) }
{
    if list.is_empty() {
        *list = more;
        return Ok(());
    }
    list.append(&mut more)
}

/// Puts two lists behind two others. After a refusal, which is want of memory, these are as before.
pub fn append_both<A: Drop, B: Drop>(
    left: &mut Vec<A>,
    more_left: Vec<A>,
    right: &mut Vec<B>,
    more_right: Vec<B>,
) -> Result<(), AllocError>
    ensures left { OnOk result (left.new.items ≡ left.old.items ++ more_left.items) }
    ensures right { OnOk result (right.new.items ≡ right.old.items ++ more_right.items) }
    ensures left_unchanged { OnErr result (left.new.items ≡ left.old.items) }
    ensures right_unchanged { OnErr result (right.new.items ≡ right.old.items) }
{
    let held = left.len();
    append_list(left, more_left)?;
    if let Err(error) = append_list(right, more_right) {
        left.truncate(held);
        return Err(error);
    }
    Ok(())
}
