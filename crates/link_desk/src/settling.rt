//! How a state is compared with the passes.

ghost use Rattle.std.specs.Prelude.{◌≡◌, ◌<◌, IfErr};
ghost use Rattle.link_desk.specs.Closing.{IsDifferent, IsSettled};
ghost use Rattle.link_desk.specs.Passes.{parts_in};
ghost use Rattle.link_desk.specs.Replay.{IsReplayed};

use crate::closing::{CloseError, gathered, take_wrong};
use crate::opening::Opening;
use crate::pass::{Kept, Pass};
use crate::state::DeskState;

/// The state, where all calls are gathered and each is right.
pub(crate) fn settle<L: Opening>(
    state: DeskState<L>,
    mut passes: Vec<Pass<L>>,
) -> Result<DeskState<L>, CloseError<L>>
    ensures settled { IsSettled state passes.items result }
    ensures replayed { IsReplayed L.options L.texts state }
    ensures whole { 0 < L.parts → parts_in passes.items ≡ L.parts → IfErr result IsDifferent }
{
    let DeskState {
        session,
        history,
        mut claimed,
        mut book,
    } = state;
    let wrong = take_wrong(history.as_slice(), claimed.as_mut_slice(), &mut passes);
    let sum = gathered(&mut book, passes);
    if sum < history.len() {
        return Err(CloseError::SharesMissing {
            book: history.len(),
            sum,
            total: book.close(),
        });
    }
    let state = DeskState {
        session,
        history,
        claimed,
        book,
    };
    match wrong {
        Some((pass, Kept { place, entry })) => Err(CloseError::Differs {
            state,
            pass,
            call: entry,
            place,
        }),
        None => Ok(state),
    }
}
