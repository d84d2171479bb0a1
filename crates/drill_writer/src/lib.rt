// The drill file written: a plan, a hunter, a target and actions put into lent room as the reader takes them.
#![tactic(auto)]

ghost use Rattle.std.specs.Prelude.{◌≡◌, ◌+◌, ◌<◌, ◌≤◌, length};
ghost use Rattle.refusal.specs.Numbers.{number_in};
ghost use Rattle.drill_writer.specs.Drill.{trailer_bytes};
ghost use Rattle.drill_writer.specs.Promise.{ActionRules, WriteRules, Writes};

use drill_file;
use drill_file::{ACTION, GREATEST_FILE, TRAILER, Trailer};
use plan;
use refusal::Refusal;
use text::Text;

// Refuses by the first rule that actions behind a plan of so many bytes and the room for their file break.
#[tactic(auto, using(decide::proofs::RuledLaws::in_order))]
fn check_actions(plan: usize, actions: &[u8], room: usize) -> Result<(), Refusal>
    requires { plan ≤ 16384 }
    ensures { ActionRules plan actions.now (plan + length actions.now + 12) room (number_in result) }
{
    let count = actions.len() / ACTION;
    // A slice has fewer than 2^63 bytes, so this sum does not wrap.
    let file = plan + actions.len() + TRAILER;
    if ACTION * count != actions.len() {
        return Err(Refusal::File); // what is left over is no action
    }
    if GREATEST_FILE < file {
        return Err(Refusal::File); // more actions than the length allows
    }
    if !drill_file::well_formed(actions, 0, count) {
        return Err(Refusal::File); // an action badly formed
    }
    if room < file {
        return Err(Refusal::Room);
    }
    Ok(())
}

// Refuses by the first rule that a drill and the room for its file break.
#[tactic(auto, using(decide::proofs::RuledLaws::in_order))]
fn check(
    width: usize,
    height: usize,
    hunter: usize,
    target: usize,
    plan: &[u8],
    actions: &[u8],
    room: usize,
) -> Result<(), Refusal>
    ensures { WriteRules width height hunter target plan.now actions.now room (number_in result) }
{
    if !plan::is_size(width, height) {
        return Err(Refusal::Size);
    }
    let cells = height * width;
    if plan.len() != 4 * cells {
        return Err(Refusal::Length);
    }
    if cells <= hunter || cells <= target {
        return Err(Refusal::Cell);
    }
    if !plan::edges_hold(width, height, plan) {
        return Err(Refusal::Move);
    }
    if !plan::bytes_hold(width, height, plan) {
        return Err(Refusal::Cost);
    }
    check_actions(plan.len(), actions, room)
}

// The bytes of a trailer.
fn trailer_bytes(t: Trailer) -> [u8; 12]
    requires { (t.width < 256) × (t.height < 256) }
    ensures { result ≡ trailer_bytes t }
{
    let [hunter_low, hunter_high, ..] = t.hunter.to_le_bytes();
    let [target_low, target_high, ..] = t.target.to_le_bytes();
    let [actions_low, actions_high, ..] = t.actions.to_le_bytes();
    let [offset_lowest, offset_low, offset_high, offset_highest, ..] = t.offset.to_le_bytes();
    [
        t.width as u8,
        t.height as u8,
        hunter_low,
        hunter_high,
        target_low,
        target_high,
        actions_low,
        actions_high,
        offset_lowest,
        offset_low,
        offset_high,
        offset_highest,
    ]
}

// Writes the drill file of a plan, its hunter and target and its actions, five bytes each, into the lent room, and tells how many bytes it has.
#[tactic(auto, using(crate::proofs::WriteLaws::writes))]
pub fn write(
    width: usize,
    height: usize,
    hunter: usize,
    target: usize,
    plan: &[u8],
    actions: &[u8],
    file: &mut [u8],
) -> Result<usize, Refusal>
    ensures { Writes width height hunter target plan.now actions.now file.old result file.new }
{
    check(width, height, hunter, target, plan, actions, file.len())?;
    let trailer = trailer_bytes(Trailer {
        width,
        height,
        hunter,
        target,
        actions: actions.len() / ACTION,
        offset: 4 * (height * width),
    });
    let mut written = Text {
        room: file,
        used: 0,
    };
    written.put_word(plan);
    written.put_word(actions);
    written.put_word(&trailer);
    Ok(written.used)
}
