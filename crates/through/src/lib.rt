// The least cost of any walk over a plan through one named move.
#![tactic(auto)]

ghost use Rattle.std.specs.Prelude.{◌≡◌, ◌*◌, ◌<◌};
ghost use Rattle.refusal.specs.Numbers.{number_in};
ghost use Rattle.plan.specs.Cells.{entered};
ghost use Rattle.plan.specs.Floors.{floor_plan};
ghost use Rattle.tables.specs.Lent.{lent, Fits};
ghost use Rattle.through.specs.Through.{cost_in, Readable, LeastCost, Askable, ThroughRules, Answers, Passes};

use entries;
use plan;
use plan::Floor;
use queue::ABSENT;
use refusal::Refusal;
use steps;
use tables::{Ahead, INFINITE};

// What one cell's rhs is above another's, none if it is infinite.
#[tactic(auto, using(decide::proofs::ChooseLaws::choose_yes, decide::proofs::ChooseLaws::choose_no), unfolding(crate::specs::Through::cost_in))]
fn cost_in(ahead: &Ahead, from: usize, to: usize) -> Option<u32>
    requires { Readable ahead.now.rhs.now from to }
    ensures { result ≡ cost_in ahead.now.rhs.now from to }
{
    if ahead.rhs[to] == INFINITE {
        return None;
    }
    Some(ahead.rhs[to] - ahead.rhs[from])
}

// The least cost from one cell to another, none if no chain of open moves leads there: a fresh start and the search's own loop, on lent tables.
fn searched(floor: Floor, from: usize, to: usize, g: &mut [u32], ahead: &mut Ahead) -> Option<u32>
    requires from_bound { (from < floor.height * floor.width) × (to < floor.height * floor.width) }
    requires fits { Fits (floor.height * floor.width) (lent floor.plan.now g.old ahead.old) }
    ensures { LeastCost (floor_plan floor.entry) from to result }
{
    let placed = entries::placed_on(floor.width, floor.height, from, to);
    let begun = entries::begin(placed, floor.plan, g, ahead);
    let a = entries::aim_of(begun);
    let limit = 3 * (floor.height * floor.width);
    steps::run(a, floor.plan, g, ahead, begun.count, limit);
    cost_in(ahead, from, to)
}

// The same on tables of its own.
fn least_cost(floor: Floor, from: usize, to: usize) -> Option<u32>
    requires { (from < floor.height * floor.width) × (to < floor.height * floor.width) }
    ensures { LeastCost (floor_plan floor.entry) from to result }
{
    let n = floor.height * floor.width;
    let mut g = [INFINITE; 4096];
    let mut rhs = [INFINITE; 4096];
    let mut parent = [0u8; 4096];
    let mut k1 = [0u32; 4096];
    let mut k2 = [0u32; 4096];
    let mut place = [ABSENT; 4096];
    let mut list = [ABSENT; 4096];
    let mut ahead = Ahead {
        rhs: &mut rhs[0..n],
        parent: &mut parent[0..n],
        k1: &mut k1[0..n],
        k2: &mut k2[0..n],
        place: &mut place[0..n],
        list: &mut list[0..n],
    };
    searched(floor, from, to, &mut g[0..n], &mut ahead)
}

// The least cost of any walk from hunter to target through a move that can be asked about: there, the move, and on from it.
#[tactic(auto, using(crate::proofs::ThroughLaws::adding))]
fn cost_through(
    floor: Floor,
    hunter: usize,
    target: usize,
    cell: usize,
    direction: usize,
) -> Option<u32>
    requires { Askable floor.width floor.height hunter target floor.plan.now cell direction }
    ensures { Answers (floor_plan floor.entry) hunter target cell (entered floor.entry.width cell direction) (Ok result) }
{
    let there = least_cost(floor, hunter, cell)?;
    let next = plan::entered(floor.width, cell, direction);
    let onward = least_cost(floor, next, target)?;
    Some(there + floor.plan[4 * cell + direction] as u32 + onward)
}

// Are the plan, the cells and the move what the question asks for, and is the move open?
#[tactic(auto, using(decide::proofs::RuledLaws::in_order))]
fn check(
    width: usize,
    height: usize,
    hunter: usize,
    target: usize,
    plan: &[u8],
    cell: usize,
    direction: usize,
) -> Result<(), Refusal>
    ensures { ThroughRules width height hunter target plan.now cell direction (number_in result) }
{
    if !plan::is_size(width, height) {
        return Err(Refusal::Size);
    }
    let cells = height * width;
    if plan.len() != 4 * cells {
        return Err(Refusal::Length);
    }
    if cells <= hunter || cells <= target || cells <= cell {
        return Err(Refusal::Cell);
    }
    if !plan::is_move(width, height, cell, direction) || !plan::edges_hold(width, height, plan) {
        return Err(Refusal::Move);
    }
    if !plan::bytes_hold(width, height, plan) {
        return Err(Refusal::Cost);
    }
    if plan[4 * cell + direction] == plan::SHUT {
        return Err(Refusal::Cost);
    }
    Ok(())
}

// The least cost of any walk from hunter to target through the move from a cell in a direction, none if there is no such walk.
pub fn through(
    width: usize,
    height: usize,
    hunter: usize,
    target: usize,
    plan: &[u8],
    cell: usize,
    direction: usize,
) -> Result<Option<u32>, Refusal>
    ensures { Passes width height hunter target plan.now cell direction result }
{
    check(width, height, hunter, target, plan, cell, direction)?;
    let floor = Floor {
        width,
        height,
        plan,
    };
    Ok(cost_through(floor, hunter, target, cell, direction))
}
