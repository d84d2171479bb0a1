// The floor plan: directions, cells, cost bytes, the estimate, and a cell's open moves.
#![tactic(auto)]

ghost use Rattle.std.specs.Prelude.{◌≡◌, ℕ, ◌+◌, ◌*◌, ◌<◌, ◌≤◌, length};
ghost use Rattle.decide.specs.Decides.{Decides};
ghost use Rattle.method.specs.Numbers.{most_cells};
ghost use Rattle.plan.specs.Directions.{shift_of, row_step, column_step, opposite};
ghost use Rattle.plan.specs.Cells.{Size, Stays, entered as entered_by};
ghost use Rattle.plan.specs.Costs.{IsByte, plan_of, Bytes, Edge, Edges, Obeys};
ghost use Rattle.plan.specs.Obeying.{Obeys-prop};
ghost use Rattle.plan.specs.Grid.{out_by, into_by};
ghost use Rattle.plan.specs.Reached.{listed, At, Placed, EdgeAsked, between};
ghost use Rattle.plan.specs.Toward.{Leads, Toward};

// The byte of a shut move.
pub const SHUT: u8 = 255;

// The greatest cost of a move.
pub const MOST_COST: u8 = 250;

// A direction's step in rows and in columns, each plus 1. A byte each, so that a read of the table is one store: with words it is built anew on the stack.
#[derive(Clone, Copy)]
pub struct Shift {
    pub row: u8,
    pub column: u8,
}

// North, east, south, west.
const SHIFTS: [Shift; 4] = [
    Shift { row: 0, column: 1 },
    Shift { row: 1, column: 2 },
    Shift { row: 2, column: 1 },
    Shift { row: 1, column: 0 },
];

// The step of a direction.
#[tactic(auto, unfolding(crate::specs::Directions::shifts))]
pub fn shift_of(d: usize) -> Shift
    requires { d < 4 }
    ensures { result ≡ shift_of d }
{
    SHIFTS[d]
}

// The direction that leads back.
pub fn back(d: usize) -> usize
    requires { d < 4 }
    ensures { result ≡ opposite d }
{
    (d + 2) % 4
}

// The parent code of the way back, which a move in direction d gives to the cell that it enters.
pub fn back_code(d: usize) -> u8
    requires { d < 4 }
    ensures { result ≡ opposite d + 1 }
{
    (back(d) + 1) as u8
}

// Are width and height each 1 to 64?
pub fn is_size(width: usize, height: usize) -> bool
    ensures { Decides result (Size width height) }
{
    (1..=64).contains(&width) && (1..=64).contains(&height)
}

// A row and a column.
#[derive(Clone, Copy)]
pub struct Spot {
    pub row: usize,
    pub column: usize,
}

// Where a cell stands: the one division, for those who do not carry the spot along.
pub fn spot_of(width: usize, cell: usize) -> Spot
    requires { 1 ≤ width }
    ensures { At width cell result }
{
    let row = cell / width;
    Spot {
        row,
        column: cell - row * width,
    }
}

// The next cell's spot, for a walk over the cells.
pub fn onward(width: usize, at: Spot) -> Spot
    requires { (at.row < 64) × (at.column < width) × (width ≤ 64) }
    ensures { (s : ℕ) → At width s at → At width (s + 1) result }
{
    if at.column + 1 == width {
        return Spot {
            row: at.row + 1,
            column: 0,
        };
    }
    Spot {
        row: at.row,
        column: at.column + 1,
    }
}

// Does the move from a spot in a direction stay in the plan? It could leave it on one side only.
pub fn stays_in(width: usize, height: usize, at: Spot, d: usize) -> bool
    requires d_bound { d < 4 }
    requires placed { Placed at }
    ensures { (s : ℕ) → At width s at → s < height * width → Decides result (Stays width height s d) }
{
    let shift = shift_of(d);
    if shift.row == 0 {
        return 0 < at.row;
    }
    if shift.row == 2 {
        return at.row + 1 < height;
    }
    if shift.column == 0 {
        return 0 < at.column;
    }
    at.column + 1 < width
}

// Is this a direction, and does the move in it from a cell stay in the plan?
pub fn is_move(width: usize, height: usize, cell: usize, d: usize) -> bool
    requires size { Size width height }
    requires inside { cell < height * width }
    ensures { Decides result ((d < 4) × Stays width height cell d) }
{
    d < 4 && stays_in(width, height, spot_of(width, cell), d)
}

// The spot that a move from a spot leads to, where it stays in the plan.
pub fn moved(at: Spot, d: usize) -> Spot
    requires d_bound { (d < 4) × Placed at }
    requires bound { (1 ≤ at.row + row_step d) × (1 ≤ at.column + column_step d) }
    ensures { (result.row + 1 ≡ at.row + row_step d) × (result.column + 1 ≡ at.column + column_step d) }
{
    let shift = shift_of(d);
    Spot {
        row: at.row + shift.row as usize - 1,
        column: at.column + shift.column as usize - 1,
    }
}

// The cell that a move enters which stays in the plan.
pub fn entered(width: usize, cell: usize, d: usize) -> usize
    requires d_bound { d < 4 }
    requires width_bound { (width ≤ 64) × (cell < most_cells) × (width + 1 ≤ cell + row_step d * width + column_step d) }
    ensures { result ≡ entered_by width cell d }
{
    let shift = shift_of(d);
    cell + shift.row as usize * width + shift.column as usize - (width + 1)
}

// The estimate between two spots.
pub fn estimate(a: Spot, b: Spot) -> usize
    requires { Placed a × Placed b }
    ensures { result ≡ between a b }
{
    a.row.abs_diff(b.row) + a.column.abs_diff(b.column)
}

// Is this byte a cost, or shut?
pub fn is_byte(b: u8) -> bool
    ensures { Decides result (IsByte b) }
{
    (1..=MOST_COST).contains(&b) || b == SHUT
}

// An open move: the parent code that it gives, the cell at its other end, its cost.
#[derive(Clone, Copy)]
pub struct Reach {
    pub code: u8,
    pub cell: usize,
    pub cost: u8,
}

// A floor plan that obeys its rules.
#[derive(Clone, Copy)]
pub struct Floor<'a> {
    pub width: usize,
    pub height: usize,
    pub plan: &'a [u8],
    pub ghost obeys: { Obeys (plan_of width height plan.now) } by { Obeys-prop (plan_of width height plan.now) },
}

impl Floor<'_> {
    ghost use Rattle.plan.specs.Floors.{floor_plan};

    // The open move out of cell u in direction d. A move that would leave an obedient plan is shut, so its byte alone tells.
    pub fn move_out(self, u: usize, d: usize) -> Option<Reach>
        requires { (u < self.height * self.width) × (d < 4) }
        ensures { listed result ≡ out_by (floor_plan self.entry) u d }
    {
        let cost = self.plan[4 * u + d];
        if cost == SHUT {
            return None;
        }
        Some(Reach {
            code: back_code(d),
            cell: entered(self.width, u, d),
            cost,
        })
    }

    // The open move into cell s from its neighbour in direction d. Where there is none, the cell that the sum names has a shut move here, or is no cell.
    pub fn move_into(self, s: usize, d: usize) -> Option<Reach>
        requires { (s < self.height * self.width) × (d < 4) }
        ensures { listed result ≡ into_by (floor_plan self.entry) s d }
    {
        let shift = shift_of(d);
        let sum = s + shift.row as usize * self.width + shift.column as usize;
        let u = sum.checked_sub(self.width + 1)?;
        let toward = back(d);
        let at = 4 * u + toward;
        let cost = *self.plan.get(at)?;
        if cost == SHUT {
            return None;
        }
        Some(Reach {
            code: (d + 1) as u8,
            cell: u,
            cost,
        })
    }
}

// Is the move from cell u in direction d shut if it would leave the plan?
fn edge_holds(width: usize, height: usize, plan: &[u8], u: usize, at: Spot, d: usize) -> bool
    requires { EdgeAsked width height plan.now u at d }
    ensures { Decides result (Edge (plan_of width height plan.now) u d) }
{
    stays_in(width, height, at, d) || plan[4 * u + d] == SHUT
}

// Is every move that would leave the plan shut? The walk is left at the first cell and direction at fault.
pub fn edges_hold(width: usize, height: usize, plan: &[u8]) -> bool
    requires size { Size width height }
    requires plan_len { length plan.now ≡ 4 * (height * width) }
    ensures { Decides result (Edges (plan_of width height plan.now)) }
{
    let cells = height * width;
    let mut at = Spot { row: 0, column: 0 };
    let mut ok = true;
    'cells: for u in 0..cells {
        for d in 0..4 {
            if !edge_holds(width, height, plan, u, at, d) {
                ok = false;
                break 'cells;
            }
        }
        at = onward(width, at);
    }
    ok
}

// Is every byte of a plan a cost or shut?
pub fn bytes_hold(width: usize, height: usize, plan: &[u8]) -> bool
    requires { length plan.now ≡ 4 * (height * width) }
    ensures { Decides result (Bytes (plan_of width height plan.now)) }
{
    plan.iter().all(|b| is_byte(*b))
}

// Does the move in direction d from cell a, which stands at a spot, lead to cell b inside the plan?
fn leads_to(width: usize, height: usize, a: usize, at: Spot, d: usize, b: usize) -> bool
    requires size { Size width height }
    requires a_bound { (a < height * width) × At width a at × (d < 4) }
    ensures { Decides result (Leads width height a d b) }
{
    stays_in(width, height, at, d) && entered(width, a, d) == b
}

// The direction of the move inside the plan that leads from cell a to cell b, if one does.
pub fn toward(width: usize, height: usize, a: usize, b: usize) -> Option<usize>
    requires size { Size width height }
    requires a_bound { a < height * width }
    ensures { Toward width height a b result }
{
    let at = spot_of(width, a);
    (0..4).find(|d| leads_to(width, height, a, at, *d, b))
}
