// The library in a few lines: three rooms in a row, the way from the first to the last, and none once the door to the last is shut.
#![tactic(auto)]

use answer::Answer;
use change;
use plan::SHUT;
use refusal::Refusal;
use search;
use session;
use std::io;
use tables::{Ahead, Session};

// Prints an answer on a line.
fn say(rt: &impl Print, answer: Result<Answer, Refusal>) -> io::Result<()> {
    match answer {
        Ok(Answer::Caught(cell)) => println!(rt; "caught at {cell}"),
        Ok(Answer::NoWay(steps)) => println!(rt; "none steps {steps}"),
        Ok(Answer::Way { cost, steps, .. }) => println!(rt; "way {cost} steps {steps}"),
        Err(refusal) => println!(rt; "{refusal}"),
    }
}

// Searches, prints the answer, and returns the record for the next call.
fn seek(
    rt: &impl Print,
    s: Session,
    plan: &[u8],
    g: &mut [u32],
    ahead: &mut Ahead,
    way: &mut [u16],
) -> io::Result<Session> {
    let found = search::search(s, plan, g, ahead, way);
    say(rt, found.answer)?;
    Ok(found.session)
}

// Opens, searches, shuts the move from room 1 to the east (1), and searches again. The plan has four bytes a room, from north to west;
// what the tables hold at first does not matter, since open fills them.
fn main(rt: HostRuntime) -> io::Result<()> {
    let mut plan = [SHUT, 1, SHUT, SHUT, SHUT, 1, SHUT, 1, SHUT, SHUT, SHUT, 1];
    let mut g = [0u32; 3];
    let mut rhs = [0u32; 3];
    let mut parent = [0u8; 3];
    let mut k1 = [0u32; 3];
    let mut k2 = [0u32; 3];
    let mut place = [0u16; 3];
    let mut list = [0u16; 3];
    let mut way = [0u16; 3];
    let mut ahead = Ahead {
        rhs: &mut rhs,
        parent: &mut parent,
        k1: &mut k1,
        k2: &mut k2,
        place: &mut place,
        list: &mut list,
    };
    let opened = session::open(3, 1, 0, 2, &plan, &mut g, &mut ahead);
    let first = seek(&rt, opened.session, &plan, &mut g, &mut ahead, &mut way)?;
    let shut = change::change_move(first, &mut plan, &g, &mut ahead, 1, 1, SHUT);
    seek(&rt, shut.session, &plan, &mut g, &mut ahead, &mut way)?;
    Ok(())
}
