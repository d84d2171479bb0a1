// Document 01's refusals: what each is of, and its number.
#![tactic(auto)]

ghost use Rattle.std.specs.Prelude.{◌≡◌, Some};
ghost use Rattle.refusal.specs.Numbers.{number_of, told};

use std::fmt;

// What is at fault: the size; a table's length; a given cell; a direction, or a move that leaves the plan; a cost byte;
// the tables, which are not sound; the room for what is written; a drill file's form; a search cut off after three steps for each cell.
#[derive(Clone, Copy, Debug, PartialEq, Eq)]
pub enum Refusal {
    Size,
    Length,
    Cell,
    Move,
    Cost,
    Tables,
    Room,
    File,
    CutOff,
}

// Document 01's number of it.
impl From<Refusal> for u8 {
    ghost from_gives = { λ refusal number. number ≡ number_of refusal };

    fn from(refusal: Refusal) -> u8 {
        match refusal {
            Refusal::Size => 1,
            Refusal::Length => 2,
            Refusal::Cell => 3,
            Refusal::Move => 4,
            Refusal::Cost => 5,
            Refusal::Tables => 6,
            Refusal::Room => 7,
            Refusal::File => 8,
            Refusal::CutOff => 9,
        }
    }
}

// "A refusal carries its number only."
impl fmt::Display for Refusal {
    ghost output = { λ refusal. Some (told refusal) };

    fn fmt<W: fmt::Write>(&self, f: &mut fmt::Formatter<W>) -> fmt::Result {
        let number = u8::from(*self);
        write!(f, "refused {number}")
    }
}
