// Why this way, why none: the cells that the hunter can reach, one bit for each and a row in one number, and the shut moves that lead out of them.
#![tactic(auto)]

ghost use Rattle.std.specs.Prelude.{◌≡◌, ℕ, ◌+◌, ◌*◌, ◌/◌, ◌%◌, ◌<◌, ◌≤◌, length, sum_by};
ghost use Rattle.std.specs.Int.Count.{ones};
ghost use Rattle.decide.specs.Decides.{Decides};
ghost use Rattle.decide.specs.Ruled.{Passed};
ghost use Rattle.refusal.specs.Numbers.{number_in};
ghost use Rattle.plan.specs.Floors.{floor_plan};
ghost use Rattle.plan.specs.Reached.{At};
ghost use Rattle.reach.specs.Bits.{Marked};
ghost use Rattle.reach.specs.Reachable.{Part};
ghost use Rattle.reach.specs.Outs.{LeadsOut, Outs};
ghost use Rattle.reach.specs.Promise.{PlanRules, Reports};
ghost use Rattle.reach.specs.Filling.{Filled, Grown, Looked, Looks, Markable, Put, Within};

use plan;
use plan::{Floor, Spot};
use refusal::Refusal;

// The bits of a row. A cell waits in the fill's list as 64 × row + column: its spot comes back without a division by the width.
const BITS: usize = 64;

// Is the cell of a spot marked: is its bit 1?
fn is_marked(rows: &[u64], at: Spot) -> bool
    requires { (at.row < length rows.now) × (at.column < 64) }
    ensures { (width s : ℕ) → At width s at → Decides result (Marked width rows.now s) }
{
    (rows[at.row] >> at.column) % 2 == 1
}

// The cells marked so far: a bit for each, and a list of them, `count` long.
#[derive(Drop)]
struct Filling {
    rows: [u64; 64],
    list: [u16; 4096],
    count: usize,
}

impl Filling {
    // Marks the cell of a spot, whose bit is 0, and puts it at the list's end.
    fn mark(&mut self, at: Spot)
        requires { Markable self.old.rows self.old.list self.old.count at }
        ensures { Put self.old.rows self.old.list self.old.count at self.new.rows self.new.list self.new.count }
    {
        self.rows[at.row] += 1 << at.column;
        self.list[self.count] = (BITS * at.row + at.column) as u16;
        self.count += 1;
    }

    // Looks at the move in direction d from x, a cell of the list: if it is open, the cell that it enters is marked.
    fn visit(&mut self, floor: Floor, x: usize, d: usize)
        requires filled { Filled (floor_plan floor) self.old.rows self.old.list self.old.count }
        requires within { Within floor.width floor.height x × (d < 4) }
        ensures grown { Grown (floor_plan floor.entry) x self.old.rows self.old.list self.old.count self.new.rows self.new.list self.new.count }
        ensures looks { Looks (floor_plan floor.entry) self.new.rows x d }
    {
        let row = x / BITS;
        let column = x % BITS;
        if floor.plan[4 * (row * floor.width + column) + d] == plan::SHUT {
            return;
        }
        let to = plan::moved(Spot { row, column }, d);
        if !is_marked(&self.rows, to) {
            self.mark(to);
        }
    }

    // Looks at the four moves of x, a cell of the list.
    fn around(&mut self, floor: Floor, x: usize)
        requires filled { Filled (floor_plan floor) self.old.rows self.old.list self.old.count }
        requires within { Within floor.width floor.height x }
        ensures grown { Grown (floor_plan floor.entry) x self.old.rows self.old.list self.old.count self.new.rows self.new.list self.new.count }
        ensures looked { Looked (floor_plan floor.entry) self.new.rows x 4 }
    {
        for d in 0..4 {
            self.visit(floor, x, d);
        }
    }
}

// Marks the hunter's cell, then looks around each cell of the list, until none is left.
fn fill(floor: Floor, hunter: usize) -> [u64; 64]
    requires { hunter < floor.height * floor.width }
    ensures { Part (floor_plan floor.entry) hunter result }
{
    let mut filling = Filling {
        rows: [0; 64],
        list: [0; 4096],
        count: 0,
    };
    let at = plan::spot_of(floor.width, hunter);
    filling.mark(at);
    let mut looked = 0;
    while looked < filling.count {
        let x = filling.list[looked] as usize;
        filling.around(floor, x);
        looked += 1;
    }
    filling.rows
}

// The ones counts of the rows, summed: how many cells are marked.
fn count_of(rows: &[u64]) -> usize
    requires { length rows.now ≤ 64 }
    ensures { result ≡ sum_by ones rows.now }
{
    rows.iter().map(|row| row.count_ones() as usize).sum()
}

// Is the move of a place shut, inside the plan, and does it lead from a marked cell, which stands at a spot, to one that is not?
fn leads_out(floor: Floor, rows: &[u64], at: Spot, place: usize) -> bool
    requires { (floor.height ≤ length rows.now) × (place < 4 * (floor.height * floor.width)) × At floor.width (place / 4) at }
    ensures { Decides result (LeadsOut (floor_plan floor.entry) (Marked floor.entry.width rows.now) (place / 4) (place % 4)) }
{
    let d = place % 4;
    if floor.plan[place] != plan::SHUT
        || !is_marked(rows, at)
        || !plan::stays_in(floor.width, floor.height, at, d)
    {
        return false;
    }
    !is_marked(rows, plan::moved(at, d))
}

// The places of the moves that lead out, as far as they are found: a list of them, `count` long.
#[derive(Drop)]
struct Places {
    list: [u16; 16384],
    count: usize,
    ghost within: { count ≤ length list },
}

impl Places {
    // Puts a place at the list's end if its move leads out.
    fn put_out(&mut self, floor: Floor, rows: &[u64], at: Spot, place: usize)
        requires height_in_bounds { (floor.height ≤ length rows.now) × (place < 4 * (floor.height * floor.width)) × At floor.width (place / 4) at }
        requires outs { Outs (floor_plan floor) (Marked floor.width rows.now) self.old.list self.old.count place }
        ensures { Outs (floor_plan floor.entry) (Marked floor.entry.width rows.now) self.new.list self.new.count (place + 1) }
    {
        if leads_out(floor, rows, at, place) {
            self.list[self.count] = place as u16;
            self.count += 1;
        }
    }

    // Puts the places of a cell's moves that lead out. The compiler unrolls its loop, and each direction has its own test.
    fn put_four(&mut self, floor: Floor, rows: &[u64], at: Spot, u: usize)
        requires height_in_bounds { (floor.height ≤ length rows.now) × (u < floor.height * floor.width) × At floor.width u at }
        requires outs { Outs (floor_plan floor) (Marked floor.width rows.now) self.old.list self.old.count (4 * u) }
        ensures { Outs (floor_plan floor.entry) (Marked floor.entry.width rows.now) self.new.list self.new.count (4 * (u + 1)) }
    {
        for d in 0..4 {
            self.put_out(floor, rows, at, 4 * u + d);
        }
    }

    // Puts the places of all moves that lead out, in cell, then direction order.
    fn put_all(&mut self, floor: Floor, rows: &[u64])
        requires { (floor.height ≤ length rows.now) × (self.old.count ≡ 0) }
        ensures { Outs (floor_plan floor.entry) (Marked floor.entry.width rows.now) self.new.list self.new.count (4 * (floor.entry.height * floor.entry.width)) }
    {
        let mut at = Spot { row: 0, column: 0 };
        for u in 0..floor.height * floor.width {
            self.put_four(floor, rows, at, u);
            at = plan::onward(floor.width, at);
        }
    }
}

// Refuses a plan and a cell of it by the first rule that they break.
#[tactic(auto, using(decide::proofs::RuledLaws::in_order))]
fn check(width: usize, height: usize, hunter: usize, plan: &[u8]) -> Result<(), Refusal>
    ensures { PlanRules width height hunter plan.now Passed (number_in result) }
{
    if !plan::is_size(width, height) {
        return Err(Refusal::Size);
    }
    let cells = height * width;
    if plan.len() != 4 * cells {
        return Err(Refusal::Length);
    }
    if cells <= hunter {
        return Err(Refusal::Cell);
    }
    if !plan::edges_hold(width, height, plan) {
        return Err(Refusal::Move);
    }
    if !plan::bytes_hold(width, height, plan) {
        return Err(Refusal::Cost);
    }
    Ok(())
}

// How many cells are reached, and how many shut moves lead out of them.
#[derive(Clone, Copy)]
pub struct Counts {
    pub cells: usize,
    pub moves: usize,
}

// Finds the part and what leads out of it in arrays of its own, and writes both if there is room: a refusal changes nothing.
fn report(
    floor: Floor,
    hunter: usize,
    rows: &mut [u64],
    moves: &mut [u16],
) -> Result<Counts, Refusal>
    requires { hunter < floor.height * floor.width }
    ensures { Reports floor.entry.width floor.entry.height hunter floor.entry.plan.now rows.old moves.old result rows.new moves.new }
{
    if rows.len() < floor.height {
        return Err(Refusal::Room);
    }
    let bits = fill(floor, hunter);
    let mut outs = Places {
        list: [0; 16384],
        count: 0,
    };
    outs.put_all(floor, &bits);
    let count = outs.count;
    if moves.len() < count {
        return Err(Refusal::Room);
    }
    rows[..floor.height].copy_from_slice(&bits[..floor.height]);
    moves[..count].copy_from_slice(&outs.list[..count]);
    Ok(Counts {
        cells: count_of(&bits[..floor.height]),
        moves: count,
    })
}

// The cells that the hunter can reach, a bit for each and a row in one number, and the shut moves that lead out of them.
pub fn reached(
    width: usize,
    height: usize,
    hunter: usize,
    plan: &[u8],
    rows: &mut [u64],
    moves: &mut [u16],
) -> Result<Counts, Refusal>
    ensures { Reports width height hunter plan.now rows.old moves.old result rows.new moves.new }
{
    check(width, height, hunter, plan)?;
    let floor = Floor {
        width,
        height,
        plan,
    };
    report(floor, hunter, rows, moves)
}
