// A failure, told: what failed and why, in one line on standard error.
#![tactic(auto)]

use std::io::Write;
use std::{io, str};

// The number of the system's error for a name that is longer than its room.
pub const NAME_TOO_LONG: i32 = 36;

// The number of the system's error for bytes that are no text.
pub const NO_TEXT: i32 = 84;

// The reason in words, without the number that std puts behind those of the system.
fn reason(told: &str) -> &str {
    match told.split_once(" (os error ") {
        Some((words, _)) => words,
        None => told,
    }
}

// Writes a line to standard error: what failed, as the caller names it, a colon and the reason. If that fails too, nothing is left to tell it.
pub fn tell(rt: &impl Eprint, what: &str, why: io::Error) {
    let mut text = [0u8; 256];
    let mut room = &mut text[..];
    let _ = write!(room, "{why}");
    let left = room.len();
    let used = 256usize.saturating_sub(left);
    let told = str::from_utf8(&text[..used]).unwrap_or("");
    let why = reason(told);
    let _ = eprintln!(rt; "{what}: {why}");
}
