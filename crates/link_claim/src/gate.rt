//! Calls round each work item.
ghost use Rattle.std.specs.Prelude.{◌≡◌, ℕ};

use std::marker::{Model, PhantomData};

/// It is called round the reading of each work item, by the thread that reads it. What it may do is its own.
/// Who reads items calls it through a `Passage`.
pub trait Gate {
    /// Before the item is read, once it is begun.
    fn before(&self, item: usize);

    /// After the item was read.
    fn after(&self, item: usize);
}

/// It does nothing.
#[derive(Clone, Copy, Debug)]
pub struct OpenGate;

impl Gate for OpenGate {
    fn before(&self, _item: usize) {}

    fn after(&self, _item: usize) {}
}

/// An item between the two calls of a gate of this type: what is read of it is read meanwhile. A contract sees it as the number of the item.
// It is no `Drop`, so it can't be let go: whoever entered has to leave, and whoever left has no passage any more.
pub struct Passage<G> {
    item: usize,
    gate: PhantomData<G>,
}

impl<G> Model for Passage<G> {
    ghost Value = { ℕ };

    ghost view = { λ p. p.item };
}

impl<G: Gate> Passage<G> {
    /// Calls the gate before the item is read.
    pub fn enter(gate: &G, item: usize) -> Passage<G>
        ensures { result ≡ item }
    {
        gate.before(item);
        Passage {
            item,
            gate: PhantomData,
        }
    }

    /// The item.
    pub fn item(&self) -> usize
        ensures { result ≡ self.now }
    {
        self.item
    }

    /// Calls the gate once the item was read.
    /// What the gate does is left open.
    pub fn leave(self, gate: &G) {
        let Passage { item, gate: _ } = self;
        gate.after(item);
    }
}
