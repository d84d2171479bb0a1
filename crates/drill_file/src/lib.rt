// The drill file: its trailer, its actions through a reader, and whether it is well formed.
#![tactic(auto)]

ghost use Rattle.std.specs.Prelude.{◌≡◌, ◌+◌, ◌*◌, ◌≤◌, ◌<◌, ◌^◌, length};
ghost use Rattle.refusal.specs.Numbers.{number_in};
ghost use Rattle.drill_file.specs.File.{two, trailer_of, trailer_in, action_of, action_at, actions_from, well_formed, form_number, cells_told};

use plan;
use refusal::Refusal;

// The greatest length of a drill file.
pub const GREATEST_FILE: usize = 65536;

// The length of an action.
pub const ACTION: usize = 5;

// The length of the trailer.
pub const TRAILER: usize = 12;

// What the last 12 bytes say.
#[derive(Clone, Copy, Default)]
pub struct Trailer {
    pub width: usize,
    pub height: usize,
    pub hunter: usize,
    pub target: usize,
    pub actions: usize,
    pub offset: usize,
}

// A change of cell, direction and cost; the hunter or the target placed on a cell; or a search.
#[derive(Clone, Copy)]
pub enum Action {
    Change {
        cell: usize,
        direction: usize,
        cost: u8,
    },
    Hunter(usize),
    Target(usize),
    Search,
}

// A number of two bytes, low byte first.
fn two_at(file: &[u8], at: usize) -> usize
    requires { at + 2 ≤ length file.now }
    ensures { result ≡ two file.now at }
{
    usize::from(u16::from_le_bytes([file[at], file[at + 1]]))
}

// The trailer of a file that is long enough to have one.
fn trailer_of(file: &[u8]) -> Trailer
    requires { 12 ≤ length file.now }
    ensures { result ≡ trailer_of file.now }
{
    let at = file.len() - TRAILER;
    Trailer {
        width: usize::from(file[at]),
        height: usize::from(file[at + 1]),
        hunter: two_at(file, at + 2),
        target: two_at(file, at + 4),
        actions: two_at(file, at + 6),
        offset: two_at(file, at + 8) + 65536 * two_at(file, at + 10),
    }
}

// The trailer of a file, whatever it is: zeros where it is too short to have one. The runner calls this once for a file, and passes the trailer along.
#[tactic(auto, using(crate::proofs::FileLaws::trailer_long, crate::proofs::FileLaws::trailer_short))]
pub fn trailer_in(file: &[u8]) -> Trailer
    ensures { result ≡ trailer_in file.now }
{
    if file.len() < TRAILER {
        Trailer::default()
    } else {
        trailer_of(file)
    }
}

// The action that its parts say; none where they are badly formed.
#[tactic(auto, using(crate::proofs::FileLaws::said))]
fn action_of(kind: u8, cell: usize, direction: u8, cost: u8) -> Option<Action>
    ensures { result ≡ action_of kind cell direction cost }
{
    match (kind, direction, cost) {
        (1, _, _) => Some(Action::Change {
            cell,
            direction: usize::from(direction),
            cost,
        }),
        (_, 0, 0) => match (kind, cell) {
            (2, _) => Some(Action::Hunter(cell)),
            (3, _) => Some(Action::Target(cell)),
            (4, 0) => Some(Action::Search),
            _ => None,
        },
        _ => None,
    }
}

// The action at a place of a file; none where it is badly formed or the file ends before it does.
#[tactic(auto, using(crate::proofs::FileLaws::action_past))]
fn action_at(file: &[u8], at: usize) -> Option<Action>
    ensures { result ≡ action_at file.now at }
{
    let last = file.len().checked_sub(ACTION)?;
    if last < at {
        return None;
    }
    action_of(file[at], two_at(file, at + 1), file[at + 3], file[at + 4])
}

// A reader holds the file and its place in it.
#[derive(Clone, Copy)]
pub struct Reader<'a> {
    pub file: &'a [u8],
    pub at: usize,
}

impl<'a> Reader<'a> {
    // A reader at a place of a file.
    pub fn new(file: &'a [u8], at: usize) -> Reader<'a>
        ensures { (result.file ≡ file.entry) × (result.at ≡ at) }
    {
        Reader { file, at }
    }

    // The action at the reader's place; none where it is badly formed.
    pub fn next(self) -> Option<Action>
        ensures { result ≡ action_at self.entry.file.now self.entry.at }
    {
        action_at(self.file, self.at)
    }

    // The reader past one action.
    pub fn moved(self) -> Reader<'a>
        requires { self.at + 5 < 2 ^ 64 }
        ensures { (result.file ≡ self.entry.file) × (result.at ≡ self.entry.at + 5) }
    {
        self.moved_to(self.at + ACTION)
    }

    // The reader at another place of its file.
    pub fn moved_to(self, at: usize) -> Reader<'a>
        ensures { (result.file ≡ self.entry.file) × (result.at ≡ at) }
    {
        Reader {
            file: self.file,
            at,
        }
    }
}

// Is none of so many actions from a place on badly formed? One reader goes through them.
pub fn well_formed(file: &[u8], from: usize, actions: usize) -> bool
    requires { from + 5 * actions ≤ length file.now }
    ensures { result ≡ well_formed (actions_from file.now from actions) }
{
    let mut reader = Reader::new(file, from);
    for _ in 0..actions {
        if reader.next().is_none() {
            return false;
        }
        reader = reader.moved();
    }
    true
}

// Refuses by the first rule that the form of a file breaks; its trailer is passed along.
pub fn check_form(file: &[u8], t: Trailer) -> Result<(), Refusal>
    requires { t ≡ trailer_in file.now }
    ensures { number_in result ≡ form_number file.now }
{
    if file.len() < TRAILER || GREATEST_FILE < file.len() {
        return Err(Refusal::File);
    }
    if !plan::is_size(t.width, t.height) {
        return Err(Refusal::Size);
    }
    let plan_bytes = 4 * (t.height * t.width);
    if t.offset != plan_bytes || file.len() != t.offset + ACTION * t.actions + TRAILER {
        return Err(Refusal::File);
    }
    if !well_formed(file, t.offset, t.actions) {
        return Err(Refusal::File);
    }
    Ok(())
}

// The number of cells that a trailer tells, 0 where it has no right size.
pub fn cells_told(t: Trailer) -> usize
    ensures { result ≡ cells_told t }
{
    if plan::is_size(t.width, t.height) {
        t.height * t.width
    } else {
        0
    }
}
