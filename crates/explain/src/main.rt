// Why this way, why none: answers a question about the plan, the hunter and the target that a drill file opens with.
// What is told is what the calls of `reach`, `along` and `through` promise; that the lines say it is tested, not proved.
#![tactic(auto)]

use along;
use drill_file;
use drill_file::Trailer;
use drill_input;
use failure;
use question;
use question::Question;
use reach;
use std::io;
use through;

// The names of the directions, in their order.
const NAMES: [&str; 4] = ["north", "east", "south", "west"];

// Prints a line for each row: its number, and its cells as the bits of one number.
fn print_rows(rt: &impl Print, rows: &[u64]) -> io::Result<()> {
    for (row, bits) in rows.iter().enumerate() {
        println!(rt; "row {row} {bits}")?;
    }
    Ok(())
}

// Prints a line for each shut move, told as 4 × cell + direction.
fn print_moves(rt: &impl Print, moves: &[u16]) -> io::Result<()> {
    for told in moves {
        let cell = told / 4;
        let direction = NAMES[usize::from(told % 4)];
        println!(rt; "shut {cell} {direction}")?;
    }
    Ok(())
}

// Prints a line for each listed cell and its cost.
fn print_costs(rt: &impl Print, cells: &[u16], costs: &[u32]) -> io::Result<()> {
    for (cell, cost) in cells.iter().zip(costs) {
        println!(rt; "cost {cell} {cost}")?;
    }
    Ok(())
}

// Tells what the hunter reaches, in rooms that are large enough for every plan.
fn tell_reached(rt: &impl Print, t: Trailer, plan: &[u8]) -> io::Result<()> {
    let mut rows = [0u64; 64];
    let mut moves = [0u16; 16384];
    match reach::reached(t.width, t.height, t.hunter, plan, &mut rows, &mut moves) {
        Ok(reached) => {
            let cells = reached.cells;
            println!(rt; "reached {cells}")?;
            print_rows(rt, &rows[0..t.height])?;
            print_moves(rt, &moves[0..reached.moves])
        }
        Err(refusal) => println!(rt; "{refusal}"),
    }
}

// Tells the running cost along listed cells.
fn tell_along(rt: &impl Print, t: Trailer, plan: &[u8], cells: &[u16]) -> io::Result<()> {
    let mut costs = [0u32; question::ROOM];
    match along::along(t.width, t.height, plan, cells, &mut costs) {
        Ok(count) => print_costs(rt, cells, &costs[0..count]),
        Err(refusal) => println!(rt; "{refusal}"),
    }
}

// Tells the least cost through a move.
fn tell_through(
    rt: &impl Print,
    t: Trailer,
    plan: &[u8],
    cell: usize,
    direction: usize,
) -> io::Result<()> {
    match through::through(t.width, t.height, t.hunter, t.target, plan, cell, direction) {
        Ok(Some(cost)) => println!(rt; "through {cost}"),
        Ok(None) => println!(rt; "no walk"),
        Err(refusal) => println!(rt; "{refusal}"),
    }
}

// Answers a question about the plan, the hunter and the target of a drill.
fn answer(
    rt: &impl Print,
    t: Trailer,
    plan: &[u8],
    question: Question,
    cells: &[u16],
) -> io::Result<()> {
    match question {
        Question::Reached => tell_reached(rt, t, plan),
        Question::Along { cells: count } => {
            // A list that is longer than its room is too long for every plan, with the cells that were kept too.
            let kept = count.min(cells.len());
            tell_along(rt, t, plan, &cells[0..kept])
        }
        Question::Through { cell, direction } => tell_through(rt, t, plan, cell, direction),
    }
}

// Answers a question about a drill file, unless the file is badly formed.
fn explain(rt: &impl Print, file: &[u8], question: Question, cells: &[u16]) -> io::Result<()> {
    let t = drill_file::trailer_in(file);
    match drill_file::check_form(file, t) {
        Ok(()) => answer(rt, t, &file[0..t.offset], question, cells),
        Err(refusal) => println!(rt; "{refusal}"),
    }
}

// Answers a question about the drill file that the first word names, of which 65,537 bytes tell that it is too long.
fn explain_file(rt: &HostRuntime, question: Question, cells: &[u16]) {
    let mut input = [0u8; 65537];
    let Some(got) = drill_input::read(rt, &mut input) else {
        return;
    };
    if let Err(why) = explain(rt, &input[0..got], question, cells) {
        failure::tell(rt, "write", why);
    }
}

// Words that are no question are told on standard error, and then nothing is answered.
fn main(rt: HostRuntime) {
    let mut cells = [0u16; question::ROOM];
    match question::hear(&rt, &mut cells) {
        Some(question) => explain_file(&rt, question, &cells),
        None => {
            let _ = eprintln!(rt;
                "usage: explain DRILL [along CELL.. | through CELL north|east|south|west]"
            );
        }
    }
}
