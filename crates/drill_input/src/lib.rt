// The drill file that a program is given: named by its first word, or standard input where there is none, read whole into a lent room. What fails is told.
#![tactic(auto)]

ghost use Rattle.std.specs.Prelude.{◌≡◌, ◌≤◌, length, None, IfSome};

use failure;
use input;
use std::env::{Env, FillError};
use std::io::{Error, Read};
use std::rt::Files;
use std::{fs, str};

// Reads an input whole; if a read fails it is told under that name.
fn read_input<R: Eprint, I: Read>(
    rt: &R,
    reader: &mut I,
    name: &str,
    room: &mut [u8],
) -> Option<usize>
    ensures { IfSome result (λ got. got ≤ length room.new) }
{
    match input::read_whole(reader, room) {
        Ok(got) => Some(got),
        Err(why) => {
            failure::tell(rt, name, why);
            None
        }
    }
}

// Reads the file of that name.
fn read_named<R: Eprint + Files>(rt: &R, name: &str, room: &mut [u8]) -> Option<usize>
    ensures { IfSome result (λ got. got ≤ length room.new) }
{
    match fs::open(rt, name) {
        Ok(mut file) => read_input(rt, &mut file, name, room),
        Err(why) => {
            failure::tell(rt, name, why);
            None
        }
    }
}

// Tells that the file's name is none that can be opened.
fn no_name<R: Eprint>(rt: &R, error: i32) -> Option<usize>
    ensures { result ≡ None }
{
    failure::tell(rt, "the file's name", Error::from_raw_os_error(error));
    None
}

// Reads the file that the first word names, or standard input where there is no word; the names that std takes are text. How many bytes it has: as many as the room where it may have more.
pub fn read(rt: &HostRuntime, room: &mut [u8]) -> Option<usize>
    ensures { IfSome result (λ got. got ≤ length room.new) }
{
    let mut word = [0u8; 4096];
    match rt.arg(1, &mut word) {
        Ok(length) => match str::from_utf8(&word[..length]) {
            Ok(name) => read_named(rt, name, room),
            Err(_) => no_name(rt, failure::NO_TEXT),
        },
        Err(FillError::NotPresent) => read_input(rt, &mut rt.stdin(), "standard input", room),
        Err(FillError::TooLong) => no_name(rt, failure::NAME_TOO_LONG),
    }
}
