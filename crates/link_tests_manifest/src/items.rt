//! That the items of a list are read by threads beside each other, on the road that `manifest_of` takes. What they are is in the contracts.

use json::{Scratch, Value};
use link_manifest_json::{cut_root, get, items_read, to_u64};
use std::sync::atomic::{AtomicU64, Ordering};
use std::test::Fail;

/// How many turns a thread waits at most, so that a test ends also where nobody comes.
const TURNS: u64 = 100_000_000;

/// It lets a thread through once two have come, or after many turns.
#[derive(Drop)]
struct Meeting {
    came: AtomicU64,
    late: AtomicU64,
}

impl Meeting {
    fn new() -> Self {
        Meeting {
            came: AtomicU64::new(0),
            late: AtomicU64::new(0),
        }
    }

    fn wait(&self) {
        self.came.fetch_add(1, Ordering::SeqCst);
        for _ in 0..TURNS {
            if self.came.load(Ordering::SeqCst) >= 2 {
                return;
            }
        }
        self.late.fetch_add(1, Ordering::SeqCst);
    }
}

/// The number of an item.
fn number_of(item: &Value<'_>) -> Option<u64> {
    to_u64(get(item, "n")?)
}

#[test]
fn items_are_read_beside_each_other(rt: HostRuntime) -> Result<(), Fail> {
    let alloc = rt.alloc();
    let (mut front, mut back) = (Scratch::new(alloc), Scratch::new(alloc));
    let text = r#"{"a":[1],"list":[{"n":1},{"n":2},{"n":3,"s":"]\",{["}],"b":"\"]"}"#;
    let Some(root) = cut_root(alloc, text, &mut front, &mut back, "list")? else {
        return Err(Fail::from("no cut"));
    };
    let meeting = Meeting::new();
    let read = |item: &Value<'_>| -> Option<u64> {
        meeting.wait();
        number_of(item)
    };
    let Some(made) = items_read(&rt, alloc, 2, &root, &read)? else {
        return Err(Fail::from("an item that is read"));
    };
    let met = meeting.came.load(Ordering::SeqCst) == 3 && meeting.late.load(Ordering::SeqCst) == 0;
    assert!(rt; met && made.as_slice() == [Some(1), Some(2), Some(3)].as_slice());
    Ok(())
}
