// A drill's actions: each is played, and its line is put into the text.
#![tactic(auto)]

ghost use Rattle.std.specs.Prelude.{◌≡◌, ◌+◌, ◌≤◌, ◌<◌, length, Option, Some};
ghost use Rattle.decide.specs.Decides.{Decides};
ghost use Rattle.plan.specs.Cells.{Size};
ghost use Rattle.tables.specs.Lent.{lent, SameTables, cells};
ghost use Rattle.text.specs.Put.{PutIn};
ghost use Rattle.lines.specs.Lines.{room};
ghost use Rattle.drill_file.specs.declared.Action.TheVariants.{Change, Search};
ghost use Rattle.drill.specs.Promises.{told, Ready, Turns};

use change;
use drill_file::Action;
use lines;
use search;
use session;
use session::Reply;
use tables::{Ahead, Session};
use text::Text;

// What playing leaves: the record, the place in the file, and the actions left over.
#[derive(Clone, Copy)]
pub struct Played {
    pub session: Session,
    pub at: usize,
    pub left: usize,
}

// Puts the line of a call's reply, if it is refused; returns the record that it leaves.
fn put_reply(reply: Reply, text: &mut Text) -> Session
    requires { text.old.used + room 0 ≤ length text.old.room.now }
    ensures session { result ≡ reply.session }
    ensures put { PutIn text.old (told reply.answer) text.new }
    ensures same_room { text.new.room.ghost_name ≡ text.old.room.ghost_name }
{
    if let Err(refusal) = reply.answer {
        lines::put_refusal(u8::from(refusal), text);
    }
    reply.session
}

// Plays a change.
fn play_change(
    s: Session,
    plan: &mut [u8],
    g: &[u32],
    ahead: &mut Ahead,
    cell: usize,
    direction: usize,
    cost: u8,
    way: &[u16],
    text: &mut Text,
) -> Session
    requires { Ready s (lent plan.old g.now ahead.old) way.now text.old.room.now text.old.used }
    ensures turns { Turns (Some (Change cell direction cost)) s (lent plan.old g.now ahead.old) way.now text.old.room.now text.old.used result (lent plan.new g.now ahead.new) way.now text.new.room.now text.new.used }
    ensures same_tables { SameTables ahead.old ahead.new }
    ensures same_room { text.new.room.ghost_name ≡ text.old.room.ghost_name }
{
    let reply = change::change_sound(s, plan, g, ahead, cell, direction, cost);
    put_reply(reply, text)
}

// Plays a search.
fn play_search(
    s: Session,
    plan: &[u8],
    g: &mut [u32],
    ahead: &mut Ahead,
    way: &mut [u16],
    text: &mut Text,
) -> Session
    requires { Ready s (lent plan.now g.old ahead.old) way.old text.old.room.now text.old.used }
    ensures turns { Turns (Some Search) s (lent plan.now g.old ahead.old) way.old text.old.room.now text.old.used result (lent plan.now g.new ahead.new) way.new text.new.room.now text.new.used }
    ensures same_tables { SameTables ahead.old ahead.new }
    ensures same_room { text.new.room.ghost_name ≡ text.old.room.ghost_name }
{
    let found = search::search_sound(s, plan, g, ahead, way);
    lines::put_answer(found.answer, way, text);
    found.session
}

// Plays an action; one that is badly formed leaves all as it was.
pub fn play_action(
    action: Option<Action>,
    s: Session,
    plan: &mut [u8],
    g: &mut [u32],
    ahead: &mut Ahead,
    way: &mut [u16],
    text: &mut Text,
) -> Session
    requires { Ready s (lent plan.old g.old ahead.old) way.old text.old.room.now text.old.used }
    ensures turns { Turns action s (lent plan.old g.old ahead.old) way.old text.old.room.now text.old.used result (lent plan.new g.new ahead.new) way.new text.new.room.now text.new.used }
    ensures same_tables { SameTables ahead.old ahead.new }
    ensures same_room { text.new.room.ghost_name ≡ text.old.room.ghost_name }
{
    let Some(action) = action else {
        return s;
    };
    match action {
        Action::Change {
            cell,
            direction,
            cost,
        } => play_change(s, plan, g, ahead, cell, direction, cost, way, text),
        Action::Hunter(cell) => put_reply(session::place_hunter(s, cell), text),
        Action::Target(cell) => put_reply(session::place_target(s, cell), text),
        Action::Search => play_search(s, plan, g, ahead, way, text),
    }
}

// Is an action left over, and has the text room for the longest line?
pub fn goes_on(s: Session, left: usize, used: usize, bytes: usize) -> bool
    requires { Size s.width s.height × (used ≤ bytes) }
    ensures { Decides result ((0 < left) × (used + room (cells s) ≤ bytes)) }
{
    if left == 0 {
        return false;
    }
    let longest = 64 + 6 * (s.height * s.width);
    longest <= bytes - used
}
