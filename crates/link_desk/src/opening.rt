//! Which ledger a desk is of, and what its session was opened with.

ghost use Rattle.link_input.specs.declared.options.Options.{Options};
ghost use Rattle.link_input.specs.declared.world.Scripts.{Scripts};
ghost use Rattle.link_desk.specs.Openings.{no_options, no_texts};

use std::marker::Brand;
use std::sync::ledger::Ledger;

/// A ledger, with the options and texts of its desk's session. Contracts alone see these: a caller names them where it
/// makes a desk of a `Brand`, and so the state that comes back from a desk is one of the same options and texts.
pub trait Opening: Ledger {
    ghost options: { Options };

    ghost texts: { Scripts };
}

impl Opening for Brand {
    ghost options = { no_options };

    ghost texts = { no_texts };
}
