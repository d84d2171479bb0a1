// The library for programs that are not written in Rattle: each public call as a C function, on numbers and lent tables.
// An enum cannot cross, so an answer is told in numbers. `include/rongdhesi.h` declares all of this for C.
#![tactic(auto)]

ghost use Rattle.std.specs.Prelude.{◌≡◌};
ghost use Rattle.refusal.specs.Numbers.{number_of};
ghost use Rattle.tables.specs.Lent.{tables};
ghost use Rattle.tables.specs.Told.{told_done, told_refusal};
ghost use Rattle.session.specs.Refusals.{told_by as told_by_call};
ghost use Rattle.session.specs.Promises.{hunter_at, target_at, Places, Opens};
ghost use Rattle.change.specs.Promise.{Changes};
ghost use Rattle.search.specs.Promise.{Searches};
ghost use Rattle.drill_writer.specs.Promise.{written_told, Writes};
ghost use Rattle.reach.specs.Promise.{Reports};
ghost use Rattle.along.specs.Along.{Costed};
ghost use Rattle.through.specs.Through.{Passes};
ghost use Rattle.rongdhesi.specs.Told.{reply_of, OutcomeTold, byte_of, written_of, CallTold, SearchTold, Measures, WritingTold};
ghost use Rattle.rongdhesi.specs.Reasons.{reached_of, running_of, through_of, Gives};

use along;
use answer::Answer;
use change;
use drill_writer;
use plan;
use reach;
use reach::Counts;
use refusal::Refusal;
use search;
use search::Outcome;
use session;
use tables::{Ahead, Session};
use through;

// The kinds of answer, numbered from 0.
#[derive(Clone, Copy)]
enum Kind {
    Done,
    Way,
    NoWay,
    Caught,
    Refused,
}

// What a call returns: the record as it leaves it, and the answer's five numbers. What an answer lacks is 0.
#[repr(C)]
#[derive(Clone, Copy)]
pub struct Reply {
    pub session: Session,
    pub kind: usize,
    pub refusal: usize,
    pub cost: usize,
    pub steps: usize,
    pub cells: usize,
}

// The lengths that a size gives: the plan's, and that of every other table, which is also the way list's least; or the refusal of the size.
#[repr(C)]
#[derive(Clone, Copy)]
pub struct Lengths {
    pub refusal: usize,
    pub plan: usize,
    pub cells: usize,
}

// What writing a drill file returns: the refusal's number, and how many bytes were written. What an answer lacks is 0.
#[repr(C)]
#[derive(Clone, Copy)]
pub struct Written {
    pub refusal: usize,
    pub bytes: usize,
}

// What a question about a plan returns; what an answer lacks is 0. The cells reached and the shut moves that lead out of them ..
#[repr(C)]
#[derive(Clone, Copy)]
pub struct Reached {
    pub refusal: usize,
    pub cells: usize,
    pub moves: usize,
}

// .. how many running costs were written ..
#[repr(C)]
#[derive(Clone, Copy)]
pub struct Running {
    pub refusal: usize,
    pub costs: usize,
}

// .. and whether there is a walk (1 or 0), and its least cost.
#[repr(C)]
#[derive(Clone, Copy)]
pub struct Through {
    pub refusal: usize,
    pub walk: usize,
    pub cost: usize,
}

// Document 01's number of a refusal, as it crosses.
fn number(refusal: Refusal) -> usize
    ensures { result ≡ number_of refusal }
{
    usize::from(u8::from(refusal))
}

// A call that is done, in numbers: there is nothing more to tell.
fn done(session: Session) -> Reply
    ensures { result ≡ reply_of session told_done }
{
    Reply {
        session,
        kind: Kind::Done as usize,
        refusal: 0,
        cost: 0,
        steps: 0,
        cells: 0,
    }
}

// A refusal in numbers: it "carries its number only".
fn refused(session: Session, refusal: Refusal) -> Reply
    ensures { result ≡ reply_of session (told_refusal (number_of refusal)) }
{
    Reply {
        kind: Kind::Refused as usize,
        refusal: number(refusal),
        ..done(session)
    }
}

// The answer of open, place or change in numbers.
fn told(called: session::Reply) -> Reply
    ensures { result ≡ reply_of called.session (told_by_call called.answer) }
{
    match called.answer {
        Ok(()) => done(called.session),
        Err(refusal) => refused(called.session, refusal),
    }
}

// The answer of a search in numbers.
fn search_told(called: Outcome) -> Reply
    ensures { OutcomeTold called result }
{
    let nothing = done(called.session);
    match called.answer {
        Ok(Answer::Caught(_)) => Reply {
            kind: Kind::Caught as usize,
            cells: 1,
            ..nothing
        },
        Ok(Answer::NoWay(steps)) => Reply {
            kind: Kind::NoWay as usize,
            steps,
            ..nothing
        },
        Ok(Answer::Way { cost, steps, cells }) => Reply {
            kind: Kind::Way as usize,
            cost: cost as usize,
            steps,
            cells,
            ..nothing
        },
        Err(refusal) => refused(called.session, refusal),
    }
}

// The cost byte that a number gives. A number above 255 is no byte: it is taken as 0, which is refused as no cost.
fn byte_of(cost: usize) -> u8
    ensures { result ≡ byte_of cost }
{
    u8::try_from(cost).unwrap_or(0)
}

// The lengths of the tables for a size.
#[unsafe(no_mangle)]
pub extern "C" fn rongdhesi_lengths(width: usize, height: usize) -> Lengths
    ensures { Measures width height result }
{
    if !plan::is_size(width, height) {
        return Lengths {
            refusal: number(Refusal::Size),
            plan: 0,
            cells: 0,
        };
    }
    let cells = height * width;
    Lengths {
        refusal: 0,
        plan: 4 * cells,
        cells,
    }
}

// Opens a session on a plan: fills all other tables fresh.
#[unsafe(no_mangle)]
pub extern "C" fn rongdhesi_open(
    width: usize,
    height: usize,
    hunter: usize,
    target: usize,
    plan: &[u8],
    g: &mut [u32],
    rhs: &mut [u32],
    parent: &mut [u8],
    k1: &mut [u32],
    k2: &mut [u32],
    place: &mut [u16],
    list: &mut [u16],
) -> Reply
    ensures { CallTold (λ x. Opens width height hunter target (tables plan.now g.old rhs.old parent.old k1.old k2.old place.old list.old) x (tables plan.now g.new rhs.new parent.new k1.new k2.new place.new list.new)) result }
{
    let mut ahead = Ahead {
        rhs,
        parent,
        k1,
        k2,
        place,
        list,
    };
    told(session::open(width, height, hunter, target, plan, g, &mut ahead))
}

// Places the hunter. The next search takes it over.
#[unsafe(no_mangle)]
pub extern "C" fn rongdhesi_place_hunter(s: Session, cell: usize) -> Reply
    ensures { CallTold (Places s (hunter_at s cell) cell) result }
{
    told(session::place_hunter(s, cell))
}

// Places the target. The next search takes it over.
#[unsafe(no_mangle)]
pub extern "C" fn rongdhesi_place_target(s: Session, cell: usize) -> Reply
    ensures { CallTold (Places s (target_at s cell) cell) result }
{
    told(session::place_target(s, cell))
}

// Changes a move: gives cell u's move in direction d a cost, and works that in.
#[unsafe(no_mangle)]
pub extern "C" fn rongdhesi_change_move(
    s: Session,
    plan: &mut [u8],
    g: &[u32],
    rhs: &mut [u32],
    parent: &mut [u8],
    k1: &mut [u32],
    k2: &mut [u32],
    place: &mut [u16],
    list: &mut [u16],
    u: usize,
    d: usize,
    cost: usize,
) -> Reply
    ensures { CallTold (λ x. Changes s (tables plan.old g.now rhs.old parent.old k1.old k2.old place.old list.old) u d (byte_of cost) x (tables plan.new g.now rhs.new parent.new k1.new k2.new place.new list.new)) result }
{
    let mut ahead = Ahead {
        rhs,
        parent,
        k1,
        k2,
        place,
        list,
    };
    told(change::change_move(s, plan, g, &mut ahead, u, d, byte_of(cost)))
}

// Searches a cheapest way and writes its cells into the way list, hunter first.
#[unsafe(no_mangle)]
pub extern "C" fn rongdhesi_search(
    s: Session,
    plan: &[u8],
    g: &mut [u32],
    rhs: &mut [u32],
    parent: &mut [u8],
    k1: &mut [u32],
    k2: &mut [u32],
    place: &mut [u16],
    list: &mut [u16],
    way: &mut [u16],
) -> Reply
    ensures { SearchTold (λ x. Searches s (tables plan.now g.old rhs.old parent.old k1.old k2.old place.old list.old) way.old x (tables plan.now g.new rhs.new parent.new k1.new k2.new place.new list.new) way.new) result }
{
    let mut ahead = Ahead {
        rhs,
        parent,
        k1,
        k2,
        place,
        list,
    };
    search_told(search::search(s, plan, g, &mut ahead, way))
}

// The answer of writing a drill file in numbers.
fn written_told(called: Result<usize, Refusal>) -> Written
    ensures { result ≡ written_of (written_told called) }
{
    match called {
        Ok(bytes) => Written { refusal: 0, bytes },
        Err(refusal) => Written {
            refusal: number(refusal),
            bytes: 0,
        },
    }
}

// Writes the drill file of a plan, its hunter and target and its actions, five bytes each, into the lent room.
#[unsafe(no_mangle)]
pub extern "C" fn rongdhesi_write_drill(
    width: usize,
    height: usize,
    hunter: usize,
    target: usize,
    plan: &[u8],
    actions: &[u8],
    file: &mut [u8],
) -> Written
    ensures { WritingTold (λ x. Writes width height hunter target plan.now actions.now file.old x file.new) result }
{
    written_told(drill_writer::write(width, height, hunter, target, plan, actions, file))
}

// The answers about a plan in numbers: what the hunter reaches ..
fn reached_told(called: Result<Counts, Refusal>) -> Reached
    ensures { result ≡ reached_of called }
{
    match called {
        Ok(found) => Reached {
            refusal: 0,
            cells: found.cells,
            moves: found.moves,
        },
        Err(refusal) => Reached {
            refusal: number(refusal),
            cells: 0,
            moves: 0,
        },
    }
}

// .. the running costs ..
fn running_told(called: Result<usize, Refusal>) -> Running
    ensures { result ≡ running_of called }
{
    match called {
        Ok(costs) => Running { refusal: 0, costs },
        Err(refusal) => Running {
            refusal: number(refusal),
            costs: 0,
        },
    }
}

// .. and the least cost through a move.
fn through_told(called: Result<Option<u32>, Refusal>) -> Through
    ensures { result ≡ through_of called }
{
    let nothing = Through {
        refusal: 0,
        walk: 0,
        cost: 0,
    };
    match called {
        Ok(Some(cost)) => Through {
            walk: 1,
            cost: cost as usize,
            ..nothing
        },
        Ok(None) => nothing,
        Err(refusal) => Through {
            refusal: number(refusal),
            ..nothing
        },
    }
}

// Writes the cells that the hunter can reach, a row in one number, and the shut moves that lead out of them.
#[unsafe(no_mangle)]
pub extern "C" fn rongdhesi_explain_reached(
    width: usize,
    height: usize,
    hunter: usize,
    plan: &[u8],
    rows: &mut [u64],
    moves: &mut [u16],
) -> Reached
    ensures { Gives reached_of (λ x. Reports width height hunter plan.now rows.old moves.old x rows.new moves.new) result }
{
    reached_told(reach::reached(width, height, hunter, plan, rows, moves))
}

// Writes the running cost at each listed cell.
#[unsafe(no_mangle)]
pub extern "C" fn rongdhesi_explain_along(
    width: usize,
    height: usize,
    plan: &[u8],
    cells: &[u16],
    costs: &mut [u32],
) -> Running
    ensures { Gives running_of (λ x. Costed width height plan.now cells.now costs.old x costs.new) result }
{
    running_told(along::along(width, height, plan, cells, costs))
}

// The least cost of any walk from hunter to target through the move from a cell in a direction.
#[unsafe(no_mangle)]
pub extern "C" fn rongdhesi_explain_through(
    width: usize,
    height: usize,
    hunter: usize,
    target: usize,
    plan: &[u8],
    cell: usize,
    direction: usize,
) -> Through
    ensures { Gives through_of (Passes width height hunter target plan.now cell direction) result }
{
    through_told(through::through(width, height, hunter, target, plan, cell, direction))
}
