// One search: the refusals, the take-over, the steps, and the answer with its way.
#![tactic(auto)]

ghost use Rattle.std.specs.Prelude.{◌≤◌, length};
ghost use Rattle.refusal.specs.Numbers.{number_in};
ghost use Rattle.tables.specs.Lent.{lent, SameTables, cells};
ghost use Rattle.tables.specs.Sound.{Sound};
ghost use Rattle.answer.specs.Answer.{told_by, Answering, Answers};
ghost use Rattle.search.specs.Promise.{SearchRules, Searched, Searches};

use answer;
use answer::Answer;
use entries;
use entries::Aim;
use refusal::Refusal;
use session;
use steps;
use steps::Ran;
use tables::{Ahead, Session};
use take_over;

// What a search returns: the record as it leaves it, and the answer.
#[derive(Clone, Copy)]
pub struct Outcome {
    pub session: Session,
    pub answer: Result<Answer, Refusal>,
}

// Are the tables sound, and has the way list room for all cells?
#[tactic(auto, using(crate::proofs::RefusalLaws::refusing))]
fn check(s: Session, plan: &[u8], g: &[u32], ahead: &Ahead, way: &[u16]) -> Result<(), Refusal>
    ensures { SearchRules s (lent plan.now g.now ahead.now) way.now (number_in result) }
{
    session::check_tables(
        s,
        plan,
        g,
        &ahead.rhs,
        &ahead.parent,
        &ahead.k1,
        &ahead.k2,
        &ahead.place,
        &ahead.list,
    )?;
    if way.len() < s.height * s.width {
        return Err(Refusal::Room);
    }
    Ok(())
}

// The answer after the run, read out of the tables ahead of g.
fn answered(a: Aim, ran: Ran, ahead: &Ahead, way: &mut [u16]) -> Result<Answer, Refusal>
    requires { Answering a ahead.now.rhs.now ahead.now.parent.now way.old }
    ensures { Answers a ran.ended ran.steps ahead.now.rhs.now ahead.now.parent.now way.old (told_by result way.new) way.new }
{
    answer::answered(a, ran.ended, ran.steps, &ahead.rhs, &ahead.parent, way)
}

// A search of sound tables: for a caller who knows that they are, so that the check is not paid. At most three steps for each cell.
pub fn search_sound(
    s: Session,
    plan: &[u8],
    g: &mut [u32],
    ahead: &mut Ahead,
    way: &mut [u16],
) -> Outcome
    requires { Sound s (lent plan.now g.old ahead.old) × (cells s ≤ length way.old) }
    ensures searched { Searched s (lent plan.now g.old ahead.old) way.old result (lent plan.now g.new ahead.new) way.new }
    ensures same_tables { SameTables ahead.old ahead.new }
{
    if s.hunter == s.target {
        way[0] = s.hunter as u16;
        return Outcome {
            session: s,
            answer: Ok(Answer::Caught(s.hunter)),
        };
    }
    let taken = take_over::take_over(s, plan, g, ahead);
    let a = entries::aim_of(taken);
    let limit = 3 * (s.height * s.width);
    let ran = steps::run(a, plan, g, ahead, taken.count, limit);
    Outcome {
        session: Session {
            count: ran.count,
            searches: taken.searches + 1,
            ..taken
        },
        answer: answered(a, ran, ahead, way),
    }
}

// One search, for any record and any content of the lent tables.
pub fn search(s: Session, plan: &[u8], g: &mut [u32], ahead: &mut Ahead, way: &mut [u16]) -> Outcome
    ensures searches { Searches s (lent plan.now g.old ahead.old) way.old result (lent plan.now g.new ahead.new) way.new }
    ensures same_tables { SameTables ahead.old ahead.new }
{
    match check(s, plan, g, ahead, way) {
        Ok(()) => search_sound(s, plan, g, ahead, way),
        Err(refusal) => Outcome {
            session: s,
            answer: Err(refusal),
        },
    }
}
