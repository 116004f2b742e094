//! The names in buckets, one after another.

ghost use Rattle.std.specs.Iterator.{YieldsFirst, item_count};

use crate::bucket::Bucket;
use crate::head::Head;
use crate::label::Label;
use std::marker::Model;
use std::slice;

/// A label of each name that is mapped to something, with what the name is mapped to. A contract sees the list of those that are left.
#[derive(Drop)]
pub struct MappedLabels<'a> {
    heads: slice::Iter<'a, Head>,
    buckets: slice::Iter<'a, Bucket>,
}

impl<'a> Model for MappedLabels<'a> {
    ghost use Rattle.std.specs.Prelude.{◌++◌, ℕ, List};
    ghost use Rattle.std.specs.List.{flat_map};
    ghost use Rattle.std.specs.Slice.Iter.{iter_rest};
    ghost use Rattle.link_db_buckets.specs.declared.label.Label.{Label};
    ghost use Rattle.link_db_buckets.specs.Bucket.{heads_in};
    ghost use Rattle.link_db_buckets.specs.Heads.{mapped_labels};

    ghost Value = { List (Label × ℕ) };

    ghost view = { λ w. mapped_labels (iter_rest w.heads ++ flat_map heads_in (iter_rest w.buckets)) };
}

impl<'a> MappedLabels<'a> {
    ghost use Rattle.std.specs.Prelude.{◌≡◌};
    ghost use Rattle.std.specs.List.{flat_map};
    ghost use Rattle.link_db_buckets.specs.Bucket.{heads_in};
    ghost use Rattle.link_db_buckets.specs.Heads.{mapped_labels};

    /// Those of the heads in these buckets.
    pub(crate) fn new(buckets: &'a [Bucket]) -> Self
        ensures { result ≡ mapped_labels (flat_map heads_in buckets.now) }
    {
        let none: &[Head] = &[];
        MappedLabels {
            heads: none.iter(),
            buckets: buckets.iter(),
        }
    }
}

impl<'a> Iterator for MappedLabels<'a> {
    type Item = (Label, u32);

    ghost next_gives = { YieldsFirst (λ w. w) };

    ghost remaining = { item_count (λ w. w) };

    fn next(&mut self) -> Option<(Label, u32)> {
        loop {
            while let Some(head) = self.heads.next() {
                if let Some(id) = head.mapped() {
                    return Some((head.label(), id));
                }
            }
            let bucket = self.buckets.next()?;
            self.heads = bucket.heads().iter();
        }
    }
}
