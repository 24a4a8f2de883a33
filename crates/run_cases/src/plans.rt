//! The calls that are to fail, as `shelf 2 10, put 0`: the number of the call among those of the store or of the output,
//! and how many bytes it keeps, if any. `room 20` is the output's room.

use run_ports::Fail;
use std::alloc::Global;

/// The room of an output where nothing is said.
const USUAL_ROOM: u32 = 10_000;

/// The calls of this object that are to fail.
pub fn fails_of(alloc: Global, calls: &str, object: &str) -> Option<Vec<Fail>> {
    let mut fails = Vec::new(alloc);
    push_fails(calls, object, &mut fails)?;
    Some(fails)
}

fn push_fails(calls: &str, object: &str, fails: &mut Vec<Fail>) -> Option<()> {
    for call in calls.split(", ") {
        let (word, rest) = call.split_once(' ').unwrap_or(("", call));
        if word == object {
            fails.push(fail_of(rest)?).ok()?;
        }
    }
    Some(())
}

fn fail_of(text: &str) -> Option<Fail> {
    match text.split_once(' ') {
        None => Some(Fail {
            call: text.parse::<u32>().ok()?,
            kept: None,
        }),
        Some((call, kept)) => Some(Fail {
            call: call.parse::<u32>().ok()?,
            kept: Some(kept.parse::<u32>().ok()?),
        }),
    }
}

/// The room of the output.
pub fn room_of(calls: &str) -> Option<u32> {
    for call in calls.split(", ") {
        if let Some(room) = call.strip_prefix("room ") {
            return room.parse::<u32>().ok();
        }
    }
    Some(USUAL_ROOM)
}
