// The public call that changes a move, the same without the check for tables known to be sound, and what a changed move asks of the cell that it enters.
#![tactic(auto)]

ghost use Rattle.std.specs.Prelude.{◌+◌};
ghost use Rattle.decide.specs.Ruled.{Passed};
ghost use Rattle.refusal.specs.Numbers.{number_in};
ghost use Rattle.plan.specs.Cells.{Size};
ghost use Rattle.tables.specs.Lent.{lent, SameTables};
ghost use Rattle.tables.specs.Sound.{Sound};
ghost use Rattle.session.specs.Refusals.{TableRules};
ghost use Rattle.change.specs.Refusals.{MoveRules, Workable};
ghost use Rattle.change.specs.Effects.{Deciding, Asks};
ghost use Rattle.change.specs.Promise.{WorkedIn, Changes};

use entries;
use entries::{Asked, Found};
use plan;
use refusal::Refusal;
use session;
use session::Reply;
use tables::{Ahead, Session};

// Does the move stay in the plan, and is the byte a cost or shut?
#[tactic(auto, using(decide::proofs::RuledLaws::in_order))]
fn check_move(s: Session, u: usize, d: usize, cost: u8) -> Result<(), Refusal>
    requires { Size s.width s.height }
    ensures { MoveRules s u d cost (number_in result) }
{
    if s.height * s.width <= u {
        return Err(Refusal::Cell);
    }
    if !plan::is_move(s.width, s.height, u, d) {
        return Err(Refusal::Move);
    }
    if !plan::is_byte(cost) {
        return Err(Refusal::Cost);
    }
    Ok(())
}

// What a changed move asks of the cell v that it enters, where it has parent code k. The plan has the new cost.
#[tactic(auto, using(crate::proofs::EffectLaws::asking))]
fn effect_of(
    s: Session,
    plan: &[u8],
    g: &[u32],
    ahead: &Ahead,
    v: usize,
    k: u8,
    u: usize,
    old: u8,
    new: u8,
) -> Option<Asked>
    requires { Deciding s plan.now g.now ahead.now.rhs.now ahead.now.parent.now v u }
    ensures { Asks s plan.now g.now ahead.now.rhs.now ahead.now.parent.now v k u old new result }
{
    if v == s.origin {
        return None;
    }
    if new < old {
        let sum = g[u] as usize + new as usize;
        if sum < ahead.rhs[v] as usize {
            return Some(Asked {
                cell: v,
                found: Found {
                    rhs: sum as u32,
                    parent: k,
                },
            });
        }
    }
    if old < new && ahead.parent[v] == k {
        return Some(Asked {
            cell: v,
            found: entries::anew(entries::aim_of(s), plan, g, v),
        });
    }
    None
}

// Gives the move from cell u in direction d its new cost, and works it in at the cell entered. Returns the queue's count.
fn work_in(
    s: Session,
    plan: &mut [u8],
    g: &[u32],
    ahead: &mut Ahead,
    u: usize,
    d: usize,
    cost: u8,
) -> usize
    requires { Workable s (lent plan.old g.now ahead.old) u d cost }
    ensures worked_in { WorkedIn s (lent plan.old g.now ahead.old) u d cost result (lent plan.new g.now ahead.new) }
    ensures same_tables { SameTables ahead.old ahead.new }
{
    let v = plan::entered(s.width, u, d);
    let k = plan::back_code(d);
    let i = 4 * u + d;
    let old = plan[i];
    plan[i] = cost;
    let Some(asked) = effect_of(s, plan, g, ahead, v, k, u, old, cost) else {
        return s.count;
    };
    let a = entries::aim_of(s);
    let at = plan::spot_of(s.width, asked.cell);
    entries::take(a, g, ahead, s.count, asked.cell, at, asked.found)
}

// Changes a move in sound tables: for a caller who knows that they are, so that the check is not paid. The promise is that of the call below.
#[tactic(auto, using(crate::proofs::RefusalLaws::refusing))]
pub fn change_sound(
    s: Session,
    plan: &mut [u8],
    g: &[u32],
    ahead: &mut Ahead,
    u: usize,
    d: usize,
    cost: u8,
) -> Reply
    requires { Sound s (lent plan.old g.now ahead.old) }
    ensures changes { Changes s (lent plan.old g.now ahead.old) u d cost result (lent plan.new g.now ahead.new) }
    ensures same_tables { SameTables ahead.old ahead.new }
{
    match check_move(s, u, d, cost) {
        Ok(()) => {
            let count = work_in(s, plan, g, ahead, u, d, cost);
            Reply {
                session: Session { count, ..s },
                answer: Ok(()),
            }
        }
        Err(refusal) => Reply {
            session: s,
            answer: Err(refusal),
        },
    }
}

// Are the tables of the session of its size, and sound?
fn check_tables(s: Session, plan: &[u8], g: &[u32], ahead: &Ahead) -> Result<(), Refusal>
    ensures { TableRules s (lent plan.now g.now ahead.now) Passed (number_in result) }
{
    session::check_tables(
        s,
        plan,
        g,
        &ahead.rhs,
        &ahead.parent,
        &ahead.k1,
        &ahead.k2,
        &ahead.place,
        &ahead.list,
    )
}

// Changes a move: gives cell u's move in direction d a cost, and works that in.
#[tactic(auto, using(crate::proofs::RefusalLaws::refusing))]
pub fn change_move(
    s: Session,
    plan: &mut [u8],
    g: &[u32],
    ahead: &mut Ahead,
    u: usize,
    d: usize,
    cost: u8,
) -> Reply
    ensures changes { Changes s (lent plan.old g.now ahead.old) u d cost result (lent plan.new g.now ahead.new) }
    ensures same_tables { SameTables ahead.old ahead.new }
{
    match check_tables(s, plan, g, ahead) {
        Ok(()) => change_sound(s, plan, g, ahead, u, d, cost),
        Err(refusal) => Reply {
            session: s,
            answer: Err(refusal),
        },
    }
}
