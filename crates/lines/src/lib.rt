// The lines that are printed, put behind one another into a lent room.
#![tactic(auto)]

ghost use Rattle.std.specs.Prelude.{◌≡◌, ◌+◌, ◌*◌, ◌≤◌, ◌++◌, length, take, Ok};
ghost use Rattle.answer.specs.Answer.{count_of};
ghost use Rattle.answer.specs.declared.Answer.TheVariants.{Way};
ghost use Rattle.text.specs.Text.{bytes, decimal};
ghost use Rattle.text.specs.Put.{PutIn};
ghost use Rattle.lines.specs.Lines.{spaced, refused_line, line, room};

use answer::Answer;
use refusal::Refusal;
use text::Text;

// Puts the cells of a way, each after a space.
fn put_cells(cells: &[u16], text: &mut Text)
    requires { text.old.used + 6 * length cells.now ≤ length text.old.room.now }
    ensures put { PutIn text.old (spaced cells.now) text.new }
    ensures same_room { text.new.room.ghost_name ≡ text.old.room.ghost_name }
{
    for cell in cells {
        text.put_word(b" ");
        text.put_decimal(u64::from(*cell));
    }
}

// Puts a word, a number and a line feed.
#[tactic(auto, using(text::proofs::DecimalLaws::decimal_few))]
fn put_labelled(word: &[u8], n: u64, text: &mut Text)
    requires { text.old.used + length word.now + 21 ≤ length text.old.room.now }
    ensures put { PutIn text.old (word.now ++ decimal n ++ bytes "\n") text.new }
    ensures same_room { text.new.room.ghost_name ≡ text.old.room.ghost_name }
{
    text.put_word(word);
    text.put_decimal(n);
    text.put_word(b"\n");
}

// Puts the line of a way.
#[tactic(auto, using(text::proofs::DecimalLaws::decimal_few))]
fn put_way(cost: u32, steps: usize, cells: &[u16], text: &mut Text)
    requires { text.old.used + room (length cells.now) ≤ length text.old.room.now }
    ensures put { PutIn text.old (line (Ok (Way cost steps (length cells.now))) cells.now) text.new }
    ensures same_room { text.new.room.ghost_name ≡ text.old.room.ghost_name }
{
    text.put_word(b"way ");
    text.put_decimal(u64::from(cost));
    text.put_word(b" steps ");
    text.put_decimal(steps as u64);
    text.put_word(b":");
    put_cells(cells, text);
    text.put_word(b"\n");
}

// Puts the line of a refusal, whatever its number.
#[tactic(auto, unfolding(text::specs::Text::bytes))]
pub fn put_refusal(number: u8, text: &mut Text)
    requires { text.old.used + room 0 ≤ length text.old.room.now }
    ensures put { PutIn text.old (refused_line number) text.new }
    ensures same_room { text.new.room.ghost_name ≡ text.old.room.ghost_name }
{
    put_labelled(b"refused ", u64::from(number), text);
}

// Puts the line of a search's answer; the way list has its cells.
#[tactic(auto, unfolding(text::specs::Text::bytes))]
pub fn put_answer(answer: Result<Answer, Refusal>, way: &[u16], text: &mut Text)
    requires { (count_of answer ≤ length way.now) × (text.old.used + room (count_of answer) ≤ length text.old.room.now) }
    ensures put { PutIn text.old (line answer (take (count_of answer) way.now)) text.new }
    ensures same_room { text.new.room.ghost_name ≡ text.old.room.ghost_name }
{
    match answer {
        Ok(Answer::Caught(cell)) => put_labelled(b"caught at ", cell as u64, text),
        Ok(Answer::NoWay(steps)) => put_labelled(b"none steps ", steps as u64, text),
        Ok(Answer::Way { cost, steps, cells }) => put_way(cost, steps, &way[..cells], text),
        Err(refusal) => put_refusal(u8::from(refusal), text),
    }
}
