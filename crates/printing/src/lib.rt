// Printing: the one function that writes, and the loop that plays what is left over of a file and prints it, piece after piece.
#![tactic(auto)]

ghost use Rattle.std.specs.Prelude.{◌≡◌, ◌+◌, ◌≤◌, length, take};
ghost use Rattle.tables.specs.Lent.{lent, SameTables};
ghost use Rattle.drill.specs.Output.{output};
ghost use Rattle.printing.specs.Promises.{Piece, Printing, Moves, WrittenTo};

use drill::Played;
use drill_file::Reader;
use failure;
use play;
use tables::{Ahead, Session};
use text::Text;

// The file: the first `got` bytes of the input, which were read.
pub fn file_in(input: &[u8], got: usize) -> &[u8]
    requires { got ≤ length input.now }
    ensures { result.now ≡ take got input.now }
{
    &input[0..got]
}

// The one function that writes to standard output, and the one that moves the count on. The text is the next piece of the output of the file, the first `got` bytes of the input.
// What is then left to play: nothing once a write has failed, which is told.
fn write_piece<R: Print + Eprint>(
    rt: &R,
    input: &[u8],
    got: usize,
    text: &[u8],
    used: usize,
    left: usize,
    count: &mut Option<usize>,
) -> usize
    requires { Piece input.now got text.now used count.old }
    ensures { Moves result left 0 used count.old count.new }
{
    if let Err(why) = rt.write_all(&text[..used]) {
        failure::tell(rt, "write", why);
        *count = None;
        return 0;
    }
    if let Some(written) = count {
        *written += used;
    }
    left
}

// Prints the line of a file refused, or the lines of the actions played. How many actions are then left to play?
pub fn print<R: Print + Eprint>(
    rt: &R,
    input: &[u8],
    got: usize,
    text: &[u8],
    used: usize,
    played: Played,
    count: &mut Option<usize>,
) -> usize
    requires { Piece input.now got text.now used count.old }
    ensures { Moves result played.left 0 used count.old count.new }
{
    write_piece(rt, input, got, text, used, played.left, count)
}

// The same of what stands in a text.
pub fn print_text<R: Print + Eprint>(
    rt: &R,
    input: &[u8],
    got: usize,
    text: &Text,
    played: Played,
    count: &mut Option<usize>,
) -> usize
    requires { Piece input.now got text.now.room.now text.now.used count.old }
    ensures { Moves result played.left 0 text.now.used count.old count.new }
{
    print(rt, input, got, &text.room, text.used, played, count)
}

// Plays the actions left over of an opened file and prints each piece. One reader is made, and it goes through them all.
pub fn play_all<R: Print + Eprint>(
    rt: &R,
    input: &[u8],
    got: usize,
    file: &[u8],
    start: usize,
    actions: usize,
    s: Session,
    count: &mut Option<usize>,
    plan: &mut [u8],
    g: &mut [u32],
    ahead: &mut Ahead,
    way: &mut [u16],
    text: &mut Text,
)
    requires { Printing input.now got file.now s (lent plan.old g.old ahead.old) way.old start actions text.old.room.now count.old }
    ensures written { WrittenTo (length (output file.now)) count.new }
    ensures same_tables { SameTables ahead.old ahead.new }
    ensures same_room { text.new.room.ghost_name ≡ text.old.room.ghost_name }
{
    let mut r = Reader::new(file, start);
    let mut session = s;
    let mut left = actions;
    while 0 < left {
        let played = play::play(r, left, session, plan, g, ahead, way, text);
        left = print_text(rt, input, got, text, played, count);
        r = r.moved_to(played.at);
        session = played.session;
    }
}
