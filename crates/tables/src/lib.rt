// The session record and the lent tables: the exact check of soundness.
#![tactic(auto)]

ghost use Rattle.std.specs.Prelude.{◌≡◌, ◌⊎◌, ◌+◌, ◌*◌, ◌≤◌, min};
ghost use Rattle.decide.specs.Decides.{Decides};
ghost use Rattle.method.specs.Numbers.{infinite, most_estimate};
ghost use Rattle.method.specs.Tables.{NotAbove};
ghost use Rattle.queue.specs.Rules.{Lengths};
ghost use Rattle.plan.specs.Cells.{Size};
ghost use Rattle.plan.specs.Costs.{plan_of};
ghost use Rattle.tables.specs.Lent.{tables, cells, Fits};
ghost use Rattle.tables.specs.Sound.{Sound};
ghost use Rattle.tables.specs.Rules.{Numbers, SumRule, MoveRule, WayRule, OwnRule, WaitingRule, AloneRule, FirstFault};
ghost use Rattle.tables.specs.Asked.{CellAsked, AloneAsked, WayAsked};

use plan;
use plan::Spot;
use queue;

// The session record: the plan's size, hunter and target as placed, those of the last search taken over (origin and goal), km, the queue's count, and the number of searches since the last fresh start.
#[repr(C)]
#[derive(Clone, Copy)]
pub struct Session {
    pub width: usize,
    pub height: usize,
    pub hunter: usize,
    pub target: usize,
    pub origin: usize,
    pub goal: usize,
    pub km: u32,
    pub count: usize,
    pub searches: u32,
}

// What stands one step ahead of g, lent by the caller: each cell's rhs and parent, and the queue of the cells at which g and rhs differ.
#[derive(Drop)]
pub struct Ahead<'a> {
    pub rhs: &'a mut [u32],
    pub parent: &'a mut [u8],
    pub k1: &'a mut [u32],
    pub k2: &'a mut [u32],
    pub place: &'a mut [u16],
    pub list: &'a mut [u16],
}

// The infinite number.
pub const INFINITE: u32 = 4294967295;

// The greatest search number of sound tables.
const MOST_SEARCHES: u32 = 1000;

// The greatest estimate: what one search can add to km.
const MOST_ESTIMATE: u32 = 126;

// What one search can add to the greatest finite number.
const GROWTH: u32 = 1024250;

// Has every table the length that the plan's size gives?
pub fn lengths_hold(
    width: usize,
    height: usize,
    plan: &[u8],
    g: &[u32],
    rhs: &[u32],
    parent: &[u8],
    k1: &[u32],
    k2: &[u32],
    place: &[u16],
    list: &[u16],
) -> bool
    requires { Size width height }
    ensures { Decides result (Fits (height * width) (tables plan.now g.now rhs.now parent.now k1.now k2.now place.now list.now)) }
{
    let cells = height * width;
    plan.len() == 4 * cells
        && g.len() == cells
        && rhs.len() == cells
        && parent.len() == cells
        && k1.len() == cells
        && k2.len() == cells
        && place.len() == cells
        && list.len() == cells
}

// Are the record's cells in the plan, and its numbers in their bounds?
fn numbers_hold(s: Session) -> bool
    requires { Size s.width s.height }
    ensures { Decides result (Numbers s) }
{
    let cells = s.height * s.width;
    s.hunter < cells
        && s.target < cells
        && s.origin < cells
        && s.goal < cells
        && s.count <= cells
        && s.searches <= MOST_SEARCHES
        && s.km <= MOST_ESTIMATE * s.searches
}

// Does cell v, with rhs r and parent p, agree with the sum that an open move into it gives, whose parent code is k? The hunter's rhs may be above it.
fn sum_holds(hunter: usize, v: usize, r: u32, p: u8, sum: usize, k: u8) -> bool
    ensures { Decides result (SumRule hunter v r p sum k) }
{
    let own = r as usize;
    if p == k {
        return own == sum;
    }
    if own <= sum {
        return true;
    }
    v == hunter
}

// Is b a cost or shut, and does cell v agree with the move of byte b into it from a cell whose g is x? The sum is taken in 64 bits, so that no content wraps and infinite needs no test.
fn move_holds(hunter: usize, b: u8, x: u32, v: usize, r: u32, p: u8, k: u8) -> bool
    ensures { Decides result (MoveRule hunter b x v r p k) }
{
    if b <= plan::MOST_COST {
        if b == 0 {
            return false;
        }
        return sum_holds(hunter, v, r, p, x as usize + b as usize, k);
    }
    if b != plan::SHUT {
        return false;
    }
    p != k
}

// Does the move from cell u, whose g is x, in direction d agree with the plan's edge, or else with the cell that it enters?
fn way_holds(
    width: usize,
    height: usize,
    hunter: usize,
    plan: &[u8],
    rhs: &[u32],
    parent: &[u8],
    x: u32,
    u: usize,
    at: Spot,
    d: usize,
) -> bool
    requires { WayAsked width height plan.now rhs.now parent.now u at d }
    ensures { Decides result (WayRule (plan_of width height plan.now) rhs.now parent.now hunter x u d) }
{
    let b = plan[4 * u + d];
    if !plan::stays_in(width, height, at, d) {
        return b == plan::SHUT && parent[u] as usize != d + 1;
    }
    let v = plan::entered(width, u, d);
    let r = rhs[v];
    let p = parent[v];
    move_holds(hunter, b, x, v, r, p, plan::back_code(d))
}

// Is x infinite or within the bound?
fn bound_holds(bound: u32, x: u32) -> bool
    ensures { Decides result ((x ≡ infinite) ⊎ (x ≤ bound)) }
{
    if x <= bound {
        return true;
    }
    x == INFINITE
}

// Do a cell's own numbers obey their rules?
fn own_holds(bound: u32, hunter: usize, s: usize, g: u32, r: u32, p: u8) -> bool
    ensures { Decides result (OwnRule bound hunter s g r p) }
{
    if !bound_holds(bound, g) {
        return false;
    }
    if s == hunter {
        if bound < r {
            return false;
        }
        return p == 0;
    }
    if p == 0 {
        return r == INFINITE;
    }
    if 4 < p {
        return false;
    }
    r != INFINITE
}

// Is the stored key (a, b) not above the calculated one? e is the estimate to the target.
fn key_holds(a: u32, b: u32, g: u32, r: u32, e: usize, km: u32) -> bool
    requires { e ≤ most_estimate }
    ensures { Decides result (NotAbove a b (min g r + e + km) (min g r)) }
{
    let m = g.min(r);
    let first = m as usize + e + km as usize;
    let stored = a as usize;
    if stored != first {
        return stored < first;
    }
    b <= m
}

// Is cell u, whose g x and rhs y differ, queued under a stored key that is not above the calculated one? It stands at `at`, the search's target at `aim`.
fn waiting_holds(
    s: Session,
    k1: &[u32],
    k2: &[u32],
    place: &[u16],
    list: &[u16],
    x: u32,
    y: u32,
    u: usize,
    at: Spot,
    aim: Spot,
) -> bool
    requires cell_asked { CellAsked s u at aim }
    requires lengths { Lengths (cells s) k1.now k2.now place.now list.now }
    ensures { Decides result (WaitingRule s k1.now k2.now place.now list.now x y u) }
{
    queue::queued_holds(place, list, s.count, u)
        && key_holds(k1[u], k2[u], x, y, plan::estimate(at, aim), s.km)
}

// Does cell u, which stands at `at`, obey its own rules and the queue's, and does place u of the list? It is queued, and has a key to compare, exactly if g and rhs differ.
fn alone_holds(
    s: Session,
    g: &[u32],
    rhs: &[u32],
    parent: &[u8],
    k1: &[u32],
    k2: &[u32],
    place: &[u16],
    list: &[u16],
    u: usize,
    at: Spot,
    aim: Spot,
) -> bool
    requires { AloneAsked s g.now rhs.now parent.now k1.now k2.now place.now list.now u at aim }
    ensures { Decides result (AloneRule s g.now rhs.now parent.now k1.now k2.now place.now list.now u) }
{
    if !queue::entry_holds(s.width, k1, k2, place, list, s.count, u) {
        return false;
    }
    let x = g[u];
    let y = rhs[u];
    let bound = GROWTH * s.searches;
    if !own_holds(bound, s.origin, u, x, y, parent[u]) {
        return false;
    }
    if x == y {
        return queue::absent_holds(k1, k2, place, u);
    }
    waiting_holds(s, k1, k2, place, list, x, y, u, at, aim)
}

// Where the check finds a rule broken: in the record's own numbers, in a cell by itself, or in a cell's move in a direction.
#[derive(Clone, Copy)]
pub enum Fault {
    InRecord,
    InCell(usize),
    InMove(usize, usize),
}

// The first place at fault, if there is one. One walk over cells and directions, left as soon as one rule fails; row and column are carried along.
pub fn first_fault(
    s: Session,
    plan: &[u8],
    g: &[u32],
    rhs: &[u32],
    parent: &[u8],
    k1: &[u32],
    k2: &[u32],
    place: &[u16],
    list: &[u16],
) -> Option<Fault>
    requires size { Size s.width s.height }
    requires fits { Fits (cells s) (tables plan.now g.now rhs.now parent.now k1.now k2.now place.now list.now) }
    ensures { FirstFault s (tables plan.now g.now rhs.now parent.now k1.now k2.now place.now list.now) result }
{
    if !numbers_hold(s) {
        return Some(Fault::InRecord);
    }
    let cells = s.height * s.width;
    let aim = plan::spot_of(s.width, s.goal);
    let mut at = Spot { row: 0, column: 0 };
    let mut fault = None;
    'cells: for u in 0..cells {
        if !alone_holds(s, g, rhs, parent, k1, k2, place, list, u, at, aim) {
            fault = Some(Fault::InCell(u));
            break 'cells;
        }
        let x = g[u];
        for d in 0..4 {
            if !way_holds(s.width, s.height, s.origin, plan, rhs, parent, x, u, at, d) {
                fault = Some(Fault::InMove(u, d));
                break 'cells;
            }
        }
        at = plan::onward(s.width, at);
    }
    fault
}

// Are the tables sound? Yes exactly if no place is at fault.
pub fn is_sound(
    s: Session,
    plan: &[u8],
    g: &[u32],
    rhs: &[u32],
    parent: &[u8],
    k1: &[u32],
    k2: &[u32],
    place: &[u16],
    list: &[u16],
) -> bool
    requires size { Size s.width s.height }
    requires fits { Fits (cells s) (tables plan.now g.now rhs.now parent.now k1.now k2.now place.now list.now) }
    ensures { Decides result (Sound s (tables plan.now g.now rhs.now parent.now k1.now k2.now place.now list.now)) }
{
    first_fault(s, plan, g, rhs, parent, k1, k2, place, list).is_none()
}
