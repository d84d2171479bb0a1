// The public calls that make a record: open, place hunter, place target. The answers and refusals of every call on a session.
#![tactic(auto)]

ghost use Rattle.decide.specs.Ruled.{Passed};
ghost use Rattle.refusal.specs.Numbers.{number_in};
ghost use Rattle.tables.specs.Lent.{tables, lent, SameTables};
ghost use Rattle.session.specs.Refusals.{PlaceRules, OpenRules, TableRules};
ghost use Rattle.session.specs.Promises.{hunter_at, target_at, Places, Opens};

use entries;
use plan;
use refusal::Refusal;
use tables;
use tables::{Ahead, Session};

// What a call returns: the record as it leaves it, and done or refused.
#[derive(Clone, Copy)]
pub struct Reply {
    pub session: Session,
    pub answer: Result<(), Refusal>,
}

// Is the size one, and the cell in the plan?
#[tactic(auto, using(decide::proofs::RuledLaws::in_order))]
fn check_place(s: Session, cell: usize) -> Result<(), Refusal>
    ensures { PlaceRules s cell (number_in result) }
{
    if !plan::is_size(s.width, s.height) {
        return Err(Refusal::Size);
    }
    if s.height * s.width <= cell {
        return Err(Refusal::Cell);
    }
    Ok(())
}

// The record with a cell placed, or as it came where the cell is refused.
fn place(s: Session, placed: Session, cell: usize) -> Reply
    ensures { Places s placed cell result }
{
    let answer = check_place(s, cell);
    let session = if answer.is_ok() { placed } else { s };
    Reply { session, answer }
}

// Places the hunter: one field of the record changes. The next search takes it over.
pub fn place_hunter(s: Session, cell: usize) -> Reply
    ensures { Places s (hunter_at s cell) cell result }
{
    place(s, Session { hunter: cell, ..s }, cell)
}

// Places the target: one field of the record changes. The next search takes it over.
pub fn place_target(s: Session, cell: usize) -> Reply
    ensures { Places s (target_at s cell) cell result }
{
    place(s, Session { target: cell, ..s }, cell)
}

// Are the size, the tables' lengths, the cells and the plan's bytes what an open asks for?
#[tactic(auto, using(decide::proofs::RuledLaws::in_order))]
pub fn check_open(
    width: usize,
    height: usize,
    hunter: usize,
    target: usize,
    plan: &[u8],
    g: &[u32],
    rhs: &[u32],
    parent: &[u8],
    k1: &[u32],
    k2: &[u32],
    place: &[u16],
    list: &[u16],
) -> Result<(), Refusal>
    ensures { OpenRules width height hunter target (tables plan.now g.now rhs.now parent.now k1.now k2.now place.now list.now) (number_in result) }
{
    if !plan::is_size(width, height) {
        return Err(Refusal::Size);
    }
    if !tables::lengths_hold(width, height, plan, g, rhs, parent, k1, k2, place, list) {
        return Err(Refusal::Length);
    }
    let cells = height * width;
    if cells <= hunter || cells <= target {
        return Err(Refusal::Cell);
    }
    if !plan::edges_hold(width, height, plan) {
        return Err(Refusal::Move);
    }
    if !plan::bytes_hold(width, height, plan) {
        return Err(Refusal::Cost);
    }
    Ok(())
}

// The same, asked of the tables ahead of g.
fn check_ahead(
    width: usize,
    height: usize,
    hunter: usize,
    target: usize,
    plan: &[u8],
    g: &[u32],
    ahead: &Ahead,
) -> Result<(), Refusal>
    ensures { OpenRules width height hunter target (lent plan.now g.now ahead.now) (number_in result) }
{
    check_open(
        width,
        height,
        hunter,
        target,
        plan,
        g,
        &ahead.rhs,
        &ahead.parent,
        &ahead.k1,
        &ahead.k2,
        &ahead.place,
        &ahead.list,
    )
}

// Opens a session on a plan: fills all other tables fresh.
pub fn open(
    width: usize,
    height: usize,
    hunter: usize,
    target: usize,
    plan: &[u8],
    g: &mut [u32],
    ahead: &mut Ahead,
) -> Reply
    ensures opens { Opens width height hunter target (lent plan.now g.old ahead.old) result (lent plan.now g.new ahead.new) }
    ensures same_tables { SameTables ahead.old ahead.new }
{
    let checked = check_ahead(width, height, hunter, target, plan, g, ahead);
    match checked {
        Ok(()) => {
            let placed = entries::placed_on(width, height, hunter, target);
            let begun = entries::begin(placed, plan, g, ahead);
            Reply {
                session: begun,
                answer: Ok(()),
            }
        }
        Err(refusal) => Reply {
            session: entries::placed_on(0, 0, 0, 0),
            answer: Err(refusal),
        },
    }
}

// Are the tables of a session of its size, and sound?
#[tactic(auto, using(decide::proofs::RuledLaws::in_order))]
pub fn check_tables(
    s: Session,
    plan: &[u8],
    g: &[u32],
    rhs: &[u32],
    parent: &[u8],
    k1: &[u32],
    k2: &[u32],
    place: &[u16],
    list: &[u16],
) -> Result<(), Refusal>
    ensures { TableRules s (tables plan.now g.now rhs.now parent.now k1.now k2.now place.now list.now) Passed (number_in result) }
{
    if !plan::is_size(s.width, s.height) {
        return Err(Refusal::Size);
    }
    if !tables::lengths_hold(s.width, s.height, plan, g, rhs, parent, k1, k2, place, list) {
        return Err(Refusal::Length);
    }
    if !tables::is_sound(s, plan, g, rhs, parent, k1, k2, place, list) {
        return Err(Refusal::Tables);
    }
    Ok(())
}
