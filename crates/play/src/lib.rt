// Playing: the actions of a drill, read through one reader that moves.
#![tactic(auto)]

ghost use Rattle.std.specs.Prelude.{◌≡◌};
ghost use Rattle.tables.specs.Lent.{lent, SameTables};
ghost use Rattle.drill.specs.Promises.{Playing, Plays};

use drill;
use drill::Played;
use drill_file::Reader;
use tables::{Ahead, Session};
use text::Text;

// Plays the actions that are left over, as long as the emptied text has room for the longest line. The reader passed goes through them.
pub fn play<'a>(
    r: Reader<'a>,
    actions: usize,
    s: Session,
    plan: &mut [u8],
    g: &mut [u32],
    ahead: &mut Ahead,
    way: &mut [u16],
    text: &mut Text,
) -> Played
    requires { Playing r.file.now s (lent plan.old g.old ahead.old) way.old r.at actions }
    ensures plays { Plays r.entry.file.now s (lent plan.old g.old ahead.old) way.old r.entry.at actions text.old.room.now result (lent plan.new g.new ahead.new) way.new text.new.room.now text.new.used }
    ensures same_tables { SameTables ahead.old ahead.new }
    ensures same_room { text.new.room.ghost_name ≡ text.old.room.ghost_name }
{
    text.used = 0;
    let mut reader = r;
    let mut session = s;
    let mut left = actions;
    while drill::goes_on(session, left, text.used, text.room.len()) {
        session = drill::play_action(reader.next(), session, plan, g, ahead, way, text);
        reader = reader.moved();
        left -= 1;
    }
    Played {
        session,
        at: reader.at,
        left,
    }
}
