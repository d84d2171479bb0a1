// The question that a program's words ask about a drill: what the hunter reaches, the cost along listed cells, or the cost through a move.
#![tactic(auto)]

ghost use Rattle.std.specs.Prelude.{◌<◌, ◌≤◌, IfSome};
ghost use Rattle.question.specs.Hears.{Hears};

use std::env::{Env, FillError};

// One cell more than the largest plan has: a list that is longer is refused as one of this length is.
pub const ROOM: usize = 4097;

// How many bytes a word of a question may have. One that is longer is read as an empty one: it is no word of a question.
const LONGEST_WORD: usize = 4096;

// What is asked: what the hunter reaches, the cost along so many listed cells, or the cost through the move of a cell in a direction.
#[derive(Clone, Copy)]
pub enum Question {
    Reached,
    Along { cells: usize },
    Through { cell: usize, direction: usize },
}

// How many words the program is given, its own name among them.
fn word_count<E: Env>(env: &E) -> usize {
    (0..usize::MAX)
        .find(|i| matches!(env.arg(*i, &mut [0u8; 1]), Err(FillError::NotPresent)))
        .unwrap_or(usize::MAX)
}

// The word of this number, read into the lent room.
fn word<'a, E: Env>(env: &E, i: usize, room: &'a mut [u8]) -> &'a [u8] {
    let length = env.arg(i, room).unwrap_or(0);
    &room[..length]
}

// Is the word of this number this one?
fn says<E: Env>(env: &E, i: usize, expected: &[u8]) -> bool {
    word(env, i, &mut [0u8; LONGEST_WORD]) == expected
}

// The number that a word tells in decimal digits. One that is greater than a listed cell can have, 65,535, stands for it, for it is no cell of any plan either.
fn number_in(word: &[u8]) -> Option<u16> {
    if word.is_empty() {
        return None;
    }
    let mut number: u16 = 0;
    for digit in word {
        if !digit.is_ascii_digit() {
            return None;
        }
        number = number
            .saturating_mul(10)
            .saturating_add(u16::from(digit - b'0'));
    }
    Some(number)
}

// The cell that the word of this number tells.
fn cell_told<E: Env>(env: &E, i: usize) -> Option<u16> {
    number_in(word(env, i, &mut [0u8; LONGEST_WORD]))
}

// The direction that the word of this number names.
fn direction_told<E: Env>(env: &E, i: usize) -> Option<usize>
    ensures { IfSome result (λ d. d < 4) }
{
    match word(env, i, &mut [0u8; LONGEST_WORD]) {
        b"north" => Some(0),
        b"east" => Some(1),
        b"south" => Some(2),
        b"west" => Some(3),
        _ => None,
    }
}

// The question that lists the cells of the words from the third on; those for which there is room are kept.
fn hear_cells<E: Env>(env: &E, count: usize, cells: &mut [u16]) -> Option<Question>
    requires { 3 ≤ count }
    ensures { Hears result }
{
    let mut kept = cells.iter_mut();
    for i in 3..count {
        let cell = cell_told(env, i)?;
        if let Some(place) = kept.next() {
            *place = cell;
        }
    }
    Some(Question::Along { cells: count - 3 })
}

// The question that the words behind the file's name ask; the cells of a list are kept.
pub fn hear<E: Env>(env: &E, cells: &mut [u16]) -> Option<Question>
    ensures { Hears result }
{
    let count = word_count(env);
    match count {
        0 | 1 => None,
        2 => Some(Question::Reached),
        _ if says(env, 2, b"along") => hear_cells(env, count, cells),
        5 if says(env, 2, b"through") => {
            let cell = usize::from(cell_told(env, 3)?);
            let direction = direction_told(env, 4)?;
            Some(Question::Through { cell, direction })
        }
        _ => None,
    }
}
