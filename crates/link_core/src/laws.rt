//! What is so of any link and any session, as functions that do nothing.

ghost use Rattle.std.specs.Prelude.{◌≡◌};
ghost use Rattle.link_rules.specs.Selection.{Selection};
ghost use Rattle.link_rules.specs.World.{World};
ghost use Rattle.link_core.specs.Steps.{Selects};

use crate::session::Session;
use link_input::ElfLike;
use link_script::Plain;

/// A world selects once. So what a session's `current`, `object_of`, `is_loaded` and `num_loaded` answer between two batches, each by a selection of its
/// own, is of one and the same selection.
pub fn a_world_selects_once()
    ensures { (w : World) (a b : Selection) → Selects w a → Selects w b → a ≡ b }
{}

/// Takes what can be sent to another thread.
fn is_sent<T: Send>(_: &T) {}

/// A session can be sent to another thread, as a server does that holds it behind a lock: it keeps no words that threads shared.
/// It does nothing, and promises nothing: that it can be written shows it.
pub fn a_session_can_be_sent(session: &Session<ElfLike, Plain>) {
    is_sent(session);
}
