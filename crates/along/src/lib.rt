// The running cost along a list of cells of a plan.
#![tactic(auto)]

ghost use Rattle.std.specs.Prelude.{◌≡◌, ℕ, ◌*◌, ◌≤◌, ◌<◌, length, drop};
ghost use Rattle.decide.specs.Decides.{Decides};
ghost use Rattle.refusal.specs.Numbers.{number_in};
ghost use Rattle.plan.specs.Cells.{Size};
ghost use Rattle.plan.specs.Costs.{byte};
ghost use Rattle.plan.specs.Floors.{floor_plan};
ghost use Rattle.plan.specs.Toward.{Leads, Neighbours};
ghost use Rattle.along.specs.Along.{Listed, AllNeighbours, AllOpen, Runs, AlongRules, Way, Costable, Costed};

use plan;
use plan::Floor;
use refusal::Refusal;

// Is every listed cell one of the plan's n?
fn cells_inside(n: usize, cells: &[u16]) -> bool
    ensures { Decides result (Listed n cells.now) }
{
    cells.iter().all(|cell| usize::from(*cell) < n)
}

// Are the two cells of each listed pair neighbours? No cell is its own.
fn all_joined(width: usize, height: usize, cells: &[u16]) -> bool
    requires size { Size width height }
    requires in_bounds { (1 ≤ length cells.now) × Listed (height * width) cells.now }
    ensures { Decides result (AllNeighbours width height cells.now) }
{
    cells.iter().zip(&cells[1..]).all(|(a, b)| plan::toward(
        width,
        height,
        *a as usize,
        *b as usize,
    ).is_some())
}

// The byte of the move from cell a to its neighbour b.
fn step_byte(floor: Floor, a: usize, b: usize) -> u8
    requires { (a < floor.height * floor.width) × Neighbours floor.width floor.height a b }
    ensures { (d : ℕ) → Leads floor.entry.width floor.entry.height a d b → result ≡ byte (floor_plan floor.entry) a d }
{
    let d = plan::toward(floor.width, floor.height, a, b).unwrap();
    let at = 4 * a + d;
    floor.plan[at]
}

// Is no move of the list's way shut?
fn none_shut(floor: Floor, cells: &[u16]) -> bool
    requires { Way floor.width floor.height floor.plan.now cells.now }
    ensures { Decides result (AllOpen (floor_plan floor.entry) cells.now) }
{
    cells.iter().zip(&cells[1..]).all(|(a, b)| step_byte(floor, *a as usize, *b as usize)
        != plan::SHUT)
}

// Refuses a list of cells and the room for its costs by the first rule that they break. Every move is looked for before any cost.
#[tactic(auto, using(decide::proofs::RuledLaws::in_order))]
fn check(
    width: usize,
    height: usize,
    plan: &[u8],
    cells: &[u16],
    room: usize,
) -> Result<(), Refusal>
    ensures { AlongRules width height plan.now cells.now room (number_in result) }
{
    if !plan::is_size(width, height) {
        return Err(Refusal::Size);
    }
    let n = height * width;
    if plan.len() != 4 * n || cells.is_empty() || n < cells.len() {
        return Err(Refusal::Length);
    }
    if !cells_inside(n, cells) {
        return Err(Refusal::Cell);
    }
    if !plan::edges_hold(width, height, plan) || !all_joined(width, height, cells) {
        return Err(Refusal::Move);
    }
    if !plan::bytes_hold(width, height, plan) {
        return Err(Refusal::Cost);
    }
    let floor = Floor {
        width,
        height,
        plan,
    };
    if !none_shut(floor, cells) {
        return Err(Refusal::Cost);
    }
    if room < cells.len() {
        return Err(Refusal::Room);
    }
    Ok(())
}

// Puts the running cost of each listed cell: that of the cell before it, plus the byte of the move between them.
fn put_costs(floor: Floor, cells: &[u16], costs: &mut [u32])
    requires { Costable floor.width floor.height floor.plan.now cells.now (length costs.old) }
    ensures runs { Runs (floor_plan floor.entry) cells.now costs.new }
    ensures costs_unchanged { drop (length cells.now) costs.new ≡ drop (length cells.now) costs.old }
{
    let mut sum = 0u32;
    costs[0] = sum;
    for i in 0..cells.len() - 1 {
        sum += step_byte(floor, cells[i] as usize, cells[i + 1] as usize) as u32;
        costs[i + 1] = sum;
    }
}

// The running cost at each listed cell: 0 at the first, then plus the cost of each move. Answers how many were written.
pub fn along(
    width: usize,
    height: usize,
    plan: &[u8],
    cells: &[u16],
    costs: &mut [u32],
) -> Result<usize, Refusal>
    ensures { Costed width height plan.now cells.now costs.old result costs.new }
{
    check(width, height, plan, cells, costs.len())?;
    let floor = Floor {
        width,
        height,
        plan,
    };
    put_costs(floor, cells, costs);
    Ok(cells.len())
}
