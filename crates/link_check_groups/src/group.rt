//! A section group of an object, as the object lends it.

ghost use Rattle.std.specs.Prelude.{◌≡◌, ◌<◌, ◌++◌, OnOk, Some, length, slice_get};
ghost use Rattle.link_rules.specs.Comdat.{groups_of};
ghost use Rattle.link_check_groups.specs.Groups.{claimed_place, groups_if_loaded};

use link_check_claims::ClaimedGroup;
use link_closure::is_marked;
use link_input::{ParsedInputObject, Platform, SectionGroup};
use std::alloc::AllocError;
use std::marker::Model;

/// A section group of an object. A contract sees the group with its place and its signature.
#[derive(Drop)]
pub struct ObjectGroup<'a> {
    /// The place of its object among all objects.
    object: usize,
    /// Its place among the groups of the object.
    index: usize,
    signature: &'a [u8],
    group: &'a SectionGroup,
}

impl<'a> Model for ObjectGroup<'a> {
    ghost use Rattle.link_rules.specs.Comdat.{PlacedGroup};

    ghost Value = { PlacedGroup };

    ghost view = { λ g. record { place = (g.object, g.index); signature = g.signature.now; group = g.group.now } };
}

impl<'a> ObjectGroup<'a> {
    /// The group at this place among those of an object. The number of groups is the test.
    fn new<P: Platform>(place: usize, object: &'a ParsedInputObject<P>, index: usize) -> Self
        requires { index < length object.now.object.groups }
        ensures { slice_get (groups_of (place, object.now)) index ≡ Some result }
    {
        let table = object.object();
        ObjectGroup {
            object: place,
            index,
            signature: table.signature(index).name().as_slice(),
            group: table.group(index),
        }
    }

    /// The place of its object, and its own among the groups of the object.
    pub fn place(&self) -> (usize, usize)
        ensures { result ≡ self.now.place }
    {
        (self.object, self.index)
    }

    /// The place of its object.
    pub fn object(&self) -> usize
        ensures { result ≡ self.now.place.0 }
    {
        self.object
    }

    /// The name that says which groups are the same.
    pub fn signature(&self) -> &'a [u8]
        ensures { result.now ≡ self.now.signature }
    {
        self.signature
    }

    /// Of the groups of its signature only one is kept.
    pub fn is_comdat(&self) -> bool
        ensures { result ≡ self.now.group.is_comdat }
    {
        self.group.is_comdat
    }

    /// Its header section.
    pub fn header(&self) -> u32
        ensures { result ≡ self.now.group.index }
    {
        self.group.index
    }

    /// Its members, in order.
    pub fn members(&self) -> &'a [u32]
        ensures { result.now ≡ self.now.group.members }
    {
        self.group.members()
    }

    /// Its place, as a claim tells it.
    pub fn claimed(&self) -> ClaimedGroup
        ensures { result ≡ claimed_place self.now.place }
    {
        ClaimedGroup {
            object: self.object,
            group: self.index,
        }
    }
}

/// Adds the groups of the object at this place.
fn push_groups<'a, P: Platform>(
    groups: &mut Vec<ObjectGroup<'a>>,
    place: usize,
    object: &'a ParsedInputObject<P>,
) -> Result<(), AllocError>
    ensures { OnOk result (groups.new.items ≡ groups.old.items ++ groups_of (place, object.now)) }
{
    for index in 0..object.object().groups().len() {
        groups.push(ObjectGroup::new(place, object, index))?;
    }
    Ok(())
}

/// Adds the groups of the object at this place, if it is loaded and is not shared.
pub fn push_if_loaded<'a, P: Platform>(
    groups: &mut Vec<ObjectGroup<'a>>,
    marks: &[bool],
    place: usize,
    object: &'a ParsedInputObject<P>,
) -> Result<(), AllocError>
    ensures { OnOk result (groups.new.items ≡ groups.old.items ++ groups_if_loaded marks.now (place, object.now)) }
{
    if is_marked(marks, place) && !object.is_dynamic() {
        push_groups(groups, place, object)?;
    }
    Ok(())
}
