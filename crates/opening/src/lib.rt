// Opening: a drill file opened on tables of its size, or refused by its number before anything but its line is written.
#![tactic(auto)]

ghost use Rattle.std.specs.Prelude.{◌≡◌, ◌≤◌, length};
ghost use Rattle.refusal.specs.Numbers.{number_of, number_in};
ghost use Rattle.tables.specs.Lent.{lent, SameTables, Fits};
ghost use Rattle.lines.specs.Lines.{room};
ghost use Rattle.drill_file.specs.File.{trailer_in, cells_in};
ghost use Rattle.drill_file.specs.Numbers.{file_number};
ghost use Rattle.drill.specs.Promises.{Opening, Refuses, Begins};

use drill::Played;
use drill_file;
use drill_file::Trailer;
use entries;
use lines;
use refusal::Refusal;
use session;
use tables::{Ahead, Session};
use text::Text;

// Refuses by the first rule that a file breaks: its form, then open's rules, asked of the file's own bytes. Its trailer is passed along.
#[tactic(auto, using(crate::proofs::BeginLaws::form_refuses))]
fn check_file(file: &[u8], t: Trailer, plan: &[u8], g: &[u32], ahead: &Ahead) -> Result<(), Refusal>
    requires t_value { t ≡ trailer_in file.now }
    requires fits { Fits (cells_in file.now) (lent plan.now g.now ahead.now) }
    ensures { number_in result ≡ file_number file.now }
{
    drill_file::check_form(file, t)?;
    session::check_open(
        t.width,
        t.height,
        t.hunter,
        t.target,
        &file[..plan.len()],
        g,
        &ahead.rhs,
        &ahead.parent,
        &ahead.k1,
        &ahead.k2,
        &ahead.place,
        &ahead.list,
    )
}

// Refuses a file: puts the line of its number into an empty text, and leaves nothing to play.
fn refuse(refusal: Refusal, text: &mut Text) -> Played
    requires empty { text.old.used ≡ 0 }
    requires text_room { room 0 ≤ length text.old.room.now }
    ensures refuses { Refuses (number_of refusal) text.old.room.now result text.new.room.now text.new.used }
    ensures same_room { text.new.room.ghost_name ≡ text.old.room.ghost_name }
{
    lines::put_refusal(u8::from(refusal), text);
    Played {
        session: entries::placed_on(0, 0, 0, 0),
        at: 0,
        left: 0,
    }
}

// A file just opened: all of its actions are left to play.
fn opened(session: Session, t: Trailer) -> Played
    ensures { result ≡ record { session = session; at = t.offset; left = t.actions } }
{
    Played {
        session,
        at: t.offset,
        left: t.actions,
    }
}

// Opens a file, whatever it is, or refuses it; its trailer is passed along. A refused file is refused before anything but its line is written, into the emptied text.
pub fn begin(
    file: &[u8],
    t: Trailer,
    plan: &mut [u8],
    g: &mut [u32],
    ahead: &mut Ahead,
    text: &mut Text,
) -> Played
    requires t_value { t ≡ trailer_in file.now }
    requires opening { Opening file.now (lent plan.old g.old ahead.old) text.old.room.now }
    ensures begins { Begins file.now (lent plan.old g.old ahead.old) text.old.room.now result (lent plan.new g.new ahead.new) text.new.room.now text.new.used }
    ensures same_tables { SameTables ahead.old ahead.new }
    ensures same_room { text.new.room.ghost_name ≡ text.old.room.ghost_name }
{
    text.used = 0;
    if let Err(refusal) = check_file(file, t, plan, g, ahead) {
        return refuse(refusal, text);
    }
    plan.copy_from_slice(&file[..plan.len()]);
    let placed = entries::placed_on(t.width, t.height, t.hunter, t.target);
    let session = entries::begin(placed, plan, g, ahead);
    opened(session, t)
}
