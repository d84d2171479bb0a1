// What a search answers: caught, none, or the way, whose cells from parent to parent are written hunter first into a lent list.
#![tactic(auto)]

ghost use Rattle.answer.specs.Way.{Followed, Leading, Counts, Shows};
ghost use Rattle.answer.specs.Answer.{told_by, Answering, Answers};

use entries;
use entries::Aim;
use refusal::Refusal;
use tables::INFINITE;

// Caught at a cell; no way, after so many steps; or a way: its cost, the steps, and the number of its cells.
#[derive(Clone, Copy)]
pub enum Answer {
    Caught(usize),
    NoWay(usize),
    Way {
        cost: u32,
        steps: usize,
        cells: usize,
    },
}

// How many cells the parents pass from the target to the hunter.
#[tactic(auto, using(crate::proofs::WayLaws::passing))]
fn passed(a: Aim, parent: &[u8]) -> usize
    requires { Followed a parent.now }
    ensures { Counts a parent.now result }
{
    let mut n = 1usize;
    let mut s = a.target;
    while s != a.hunter {
        s = entries::parent_of(a, parent, s);
        n += 1;
    }
    n
}

// The cells from parent to parent, hunter first, into the list: from its last cell, the target, down to its first. Returns their number.
#[tactic(auto, using(crate::proofs::WayLaws::writing))]
fn write_way(a: Aim, parent: &[u8], way: &mut [u16]) -> usize
    requires { Leading a parent.now way.old }
    ensures { Shows a parent.now way.old result way.new }
{
    let count = passed(a, parent);
    let mut s = a.target;
    for i in (1..count).rev() {
        way[i] = s as u16;
        s = entries::parent_of(a, parent, s);
    }
    way[0] = s as u16;
    count
}

// The answer after the last step: cut off, none, or the way, which is written.
#[tactic(auto, using(crate::proofs::AnswerLaws::answering))]
pub fn answered(
    a: Aim,
    ended: bool,
    steps: usize,
    rhs: &[u32],
    parent: &[u8],
    way: &mut [u16],
) -> Result<Answer, Refusal>
    requires { Answering a rhs.now parent.now way.old }
    ensures { Answers a ended steps rhs.now parent.now way.old (told_by result way.new) way.new }
{
    if !ended {
        return Err(Refusal::CutOff);
    }
    let far = rhs[a.target];
    if far == INFINITE {
        return Ok(Answer::NoWay(steps));
    }
    let near = rhs[a.hunter];
    let cells = write_way(a, parent, way);
    Ok(Answer::Way {
        cost: far - near,
        steps,
        cells,
    })
}
