//! Marks of the objects that hold what names are mapped to.

ghost use Rattle.std.specs.Prelude.{◌≡◌, fold};
ghost use Rattle.link_check_roots.specs.Marks.{marked_by, object_named, with_mark};

use link_check_names::LinkNames;
use link_names::Name;

/// The place of the object that holds what a name is mapped to.
fn object_named<'a>(names: &LinkNames<'a>, name: &'a Name) -> Option<usize>
    ensures { result ≡ object_named names.now name.now }
{
    let id = names.first_definition(name.as_slice())?;
    let symbol = names.symbols().get(id.as_usize())?;
    symbol.object()
}

/// Marks an object, if there is one.
fn mark(marks: &mut [bool], object: Option<usize>)
    ensures { marks.new ≡ with_mark marks.old object }
{
    if let Some(object) = object {
        if object < marks.len() {
            marks[object] = true;
        }
    }
}

/// Marks the object that holds what a name is mapped to.
pub fn mark_name<'a>(marks: &mut [bool], names: &LinkNames<'a>, name: &'a Name)
    ensures { marks.new ≡ marked_by names.now marks.old name.now }
{
    mark(marks, object_named(names, name));
}

/// The same for each of these names.
pub fn mark_names<'a>(marks: &mut [bool], names: &LinkNames<'a>, roots: &'a [Name])
    ensures { marks.new ≡ fold (marked_by names.now) marks.old roots.now }
{
    for name in roots {
        mark_name(marks, names, name);
    }
}
