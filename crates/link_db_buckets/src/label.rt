//! Labels, which lead to names, and the tables that hold these.

/// What leads to a name in the tables.
#[derive(Clone, Copy, Debug, PartialEq, Eq)]
pub enum Label {
    /// The name of the symbol of this id, without its version.
    Plain(u32),
    /// The name of the symbol of this id with its version.
    Versioned(u32),
    /// A name that the database itself holds, by its place.
    Added(u32),
}

/// The tables that hold the names of symbols.
pub trait Names {
    ghost use Rattle.std.specs.Prelude.{◌≡◌, Option, List, ℕ};
    ghost use Rattle.link_db_buckets.specs.declared.label.Label.{Label};
    ghost use Rattle.link_db_buckets.specs.Keys.{Key, key_of, leads_to, have_one_key};

    /// The name and version to which a label leads.
    ghost key_at: { Self → Label → Option Key };

    /// Whether the label leads to this name and version.
    fn has_key(&self, label: Label, name: &[u8], version: Option<&[u8]>) -> bool
        ensures { result ≡ leads_to (key_at self.now) label (key_of name.now version.entry) };

    /// Whether both labels lead to the same name and version.
    fn have_same_key(&self, a: Label, b: Label) -> bool
        ensures { result ≡ have_one_key (key_at self.now) a b };
}
