//! The sections of a group, one after another.

ghost use Rattle.std.specs.Prelude.{◌≡◌};
ghost use Rattle.link_resolve_comdat.specs.ObjectGroups.{sections_of};

use link_input::SectionGroup;
use std::marker::Model;

/// The members of a section group in order, and then its header. A contract sees the list of those that are left.
#[derive(Debug, Drop)]
pub struct GroupSections<'a> {
    members: &'a [u32],
    header: Option<u32>,
}

impl<'a> Model for GroupSections<'a> {
    ghost use Rattle.std.specs.Prelude.{List, ℕ, ◌++◌, option_to_list};

    ghost Value = { List ℕ };

    ghost view = { λ s. s.members.now ++ option_to_list s.header };
}

impl<'a> GroupSections<'a> {
    /// The sections of the group.
    pub(crate) fn new(group: &'a SectionGroup) -> Self
        ensures { result ≡ sections_of group.now }
    {
        GroupSections {
            members: group.members(),
            header: Some(group.index),
        }
    }
}

impl<'a> Iterator for GroupSections<'a> {
    ghost use Rattle.std.specs.Iterator.{YieldsFirst, item_count};

    type Item = u32;

    ghost next_gives = { YieldsFirst (λ sections. sections) };

    ghost remaining = { item_count (λ sections. sections) };

    fn next(&mut self) -> Option<u32> {
        match self.members.split_first() {
            Some((first, rest)) => {
                self.members = rest;
                Some(*first)
            }
            None => self.header.take(),
        }
    }
}
