// A cell's queue entry set right, its rhs and parent found anew, the fresh start (record and tables), and the cell that a parent byte names.
#![tactic(auto)]

ghost use Rattle.std.specs.Prelude.{◌≡◌, ◌+◌, ◌<◌, ◌≤◌, get_or};
ghost use Rattle.method.specs.Numbers.{infinite};
ghost use Rattle.method.specs.Tables.{least_over, anew as anew_of, found_anew};
ghost use Rattle.method.specs.Session.{fresh as fresh_of};
ghost use Rattle.queue.specs.Queue.{EntryKept};
ghost use Rattle.plan.specs.Floors.{floor_plan};
ghost use Rattle.plan.specs.Grid.{into_by};
ghost use Rattle.plan.specs.Reached.{Placed, between};
ghost use Rattle.tables.specs.Lent.{lent, SameTables, frame, frame_of_size, Fits, graph_in, core};
ghost use Rattle.entries.specs.Aims.{area, frame_of, hunt, AimOf, Aimed, most_rhs, Findable, ReadyAt};
ghost use Rattle.entries.specs.Begin.{Openable, placed_on, begun, Opened};
ghost use Rattle.entries.specs.Became.{Became, Entering, Entered, EnteringIn, EnteredIn, KeptIn, Taking, Taken, found_of};
ghost use Rattle.entries.specs.Parents.{Named, Linked};

use plan;
use plan::{Floor, Spot};
use queue;
use queue::Queue;
use tables;
use tables::{Ahead, Session};

// What a search goes by: the plan's size, the hunter and the target taken over, where the target stands, and km.
#[derive(Clone, Copy)]
pub struct Aim {
    pub width: usize,
    pub height: usize,
    pub hunter: usize,
    pub target: usize,
    pub target_at: Spot,
    pub km: u32,
}

// What the last search taken over goes by.
pub fn aim_of(s: Session) -> Aim
    requires { 1 ≤ s.width }
    ensures { AimOf s result }
{
    Aim {
        width: s.width,
        height: s.height,
        hunter: s.origin,
        target: s.goal,
        target_at: plan::spot_of(s.width, s.goal),
        km: s.km,
    }
}

// The first key number of a cell at a spot whose lesser number is m.
pub fn first_key(a: Aim, m: u32, at: Spot) -> u32
    requires placed { Placed at × Placed a.target_at }
    requires km_bound { m + between at a.target_at + a.km < infinite }
    ensures { result ≡ m + between at a.target_at + a.km }
{
    m + plan::estimate(at, a.target_at) as u32 + a.km
}

// The entry of a cell set right: queued under the calculated key if g and rhs differ, else absent. Returns the queue's count.
pub fn set_right(
    a: Aim,
    g: &[u32],
    rhs: &[u32],
    k1: &mut [u32],
    k2: &mut [u32],
    place: &mut [u16],
    list: &mut [u16],
    count: usize,
    cell: usize,
    at: Spot,
) -> usize
    requires { Entering a count cell at g.now rhs.now k1.old k2.old place.old list.old }
    ensures entered { Entered a cell g.now rhs.now k1.old k2.old place.old list.old result k1.new k2.new place.new list.new }
    ensures entry_kept { EntryKept count k1.old k2.old place.old list.old result k1.new k2.new place.new list.new }
{
    let x = g[cell];
    let y = rhs[cell];
    let i = place[cell];
    let mut queue = Queue {
        width: a.width,
        k1,
        k2,
        place,
        list,
        count,
    };
    if x == y {
        if i == queue::ABSENT {
            return count;
        }
        queue.take_out(cell);
        return queue.count;
    }
    let m = x.min(y);
    let first = first_key(a, m, at);
    if i == queue::ABSENT {
        queue.put_in(cell, first, m);
        return queue.count;
    }
    queue.put_under(cell, first, m);
    queue.count
}

// The same in the tables ahead of g. Of these rhs is lent as those that are written, since the check has no rule for one field lent to be read beside others.
pub fn set_right_ahead(
    a: Aim,
    g: &[u32],
    ahead: &mut Ahead,
    count: usize,
    cell: usize,
    at: Spot,
) -> usize
    requires { EnteringIn a count cell at g.now ahead.old }
    ensures entered { EnteredIn a cell g.now ahead.old result ahead.new }
    ensures entry_kept { KeptIn count ahead.old result ahead.new }
    ensures same_tables { SameTables ahead.old ahead.new }
{
    set_right(
        a,
        g,
        &mut *ahead.rhs,
        &mut *ahead.k1,
        &mut *ahead.k2,
        &mut *ahead.place,
        &mut *ahead.list,
        count,
        cell,
        at,
    )
}

// A sum, and the parent byte of the move that gives it.
#[derive(Clone, Copy)]
pub struct Found {
    pub rhs: u32,
    pub parent: u8,
}

// What a move can ask of the cell that it enters: that this cell takes this sum and parent.
#[derive(Clone, Copy)]
pub struct Asked {
    pub cell: usize,
    pub found: Found,
}

// A cell takes a sum and its parent, and its entry is set right. Returns the queue's count.
pub fn take(
    a: Aim,
    g: &[u32],
    ahead: &mut Ahead,
    count: usize,
    cell: usize,
    at: Spot,
    f: Found,
) -> usize
    requires { Taking a count cell at f g.now ahead.old }
    ensures taken { Taken a cell f g.now ahead.old result ahead.new }
    ensures entry_kept { KeptIn count ahead.old result ahead.new }
    ensures same_tables { SameTables ahead.old ahead.new }
{
    ahead.rhs[cell] = f.rhs;
    ahead.parent[cell] = f.parent;
    set_right_ahead(a, g, ahead, count, cell, at)
}

// One more neighbour is looked at: its move is taken if it gives a smaller sum.
fn looked_at(floor: Floor, g: &[u32], s: usize, best: Found, d: usize) -> Found
    requires { Findable floor.width floor.height floor.plan.now g.now s × (d < 4) }
    ensures { found_of result ≡ least_over g.now (found_of best) (into_by (floor_plan floor.entry) s d) }
{
    let Some(reach) = floor.move_into(s, d) else {
        return best;
    };
    let sum = g[reach.cell].saturating_add(reach.cost as u32);
    if best.rhs <= sum {
        return best;
    }
    Found {
        rhs: sum,
        parent: reach.code,
    }
}

// The first least sum over the neighbours in direction order, with its parent byte.
pub fn anew(a: Aim, plan: &[u8], g: &[u32], s: usize) -> Found
    requires { Findable a.width a.height plan.now g.now s }
    ensures { found_of result ≡ anew_of (graph_in (frame_of a) plan.now) g.now s }
{
    let floor = Floor {
        width: a.width,
        height: a.height,
        plan,
    };
    let mut best = Found {
        rhs: tables::INFINITE,
        parent: 0,
    };
    for d in 0..4 {
        best = looked_at(floor, g, s, best, d);
    }
    best
}

// A cell's rhs, parent and entry found anew. Returns the queue's count.
pub fn found_anew(
    a: Aim,
    plan: &[u8],
    g: &[u32],
    ahead: &mut Ahead,
    count: usize,
    cell: usize,
    at: Spot,
) -> usize
    requires { ReadyAt a most_rhs count cell at (lent plan.now g.now ahead.old) }
    ensures became { Became a result (lent plan.now g.now ahead.new) (found_anew (hunt a plan.now) (core (lent plan.now g.now ahead.old)) cell) }
    ensures entry_kept { KeptIn count ahead.old result ahead.new }
    ensures same_tables { SameTables ahead.old ahead.new }
{
    let f = anew(a, plan, g, cell);
    take(a, g, ahead, count, cell, at, f)
}

// All tables as at a fresh start: all infinite and absent, but for the hunter, whose rhs is 0 and who is queued under its key. Returns the queue's count, which is 1.
fn fresh(a: Aim, plan: &[u8], g: &mut [u32], ahead: &mut Ahead) -> usize
    requires aimed { Aimed a plan.now × (a.km ≡ 0) }
    requires fits { Fits (area a) (lent plan.now g.old ahead.old) }
    ensures became { Became a result (lent plan.now g.new ahead.new) (fresh_of (graph_in (frame_of a) plan.now) a.hunter a.target) }
    ensures value { result ≡ 1 }
    ensures same_tables { SameTables ahead.old ahead.new }
{
    g.fill(tables::INFINITE);
    ahead.rhs.fill(tables::INFINITE);
    ahead.parent.fill(0);
    ahead.k1.fill(0);
    ahead.k2.fill(0);
    ahead.place.fill(queue::ABSENT);
    ahead.list.fill(queue::ABSENT);
    let hunter = a.hunter;
    ahead.rhs[hunter] = 0;
    let at = plan::spot_of(a.width, hunter);
    set_right_ahead(a, g, ahead, 0, hunter, at)
}

// The record of a session on a plan of this size with both cells placed, before its tables are filled.
pub fn placed_on(width: usize, height: usize, hunter: usize, target: usize) -> Session
    ensures { result ≡ placed_on (frame_of_size width height) hunter target }
{
    Session {
        width,
        height,
        hunter,
        target,
        origin: hunter,
        goal: target,
        km: 0,
        count: 0,
        searches: 0,
    }
}

// A fresh start of a session at its placed cells: fills all tables but the plan, and returns the record.
pub fn begin(s: Session, plan: &[u8], g: &mut [u32], ahead: &mut Ahead) -> Session
    requires { Openable (frame s) s.hunter s.target (lent plan.now g.old ahead.old) }
    ensures opened { (result ≡ begun (frame s) s.hunter s.target) × Opened (frame s) s.hunter s.target (lent plan.now g.old ahead.old) (lent plan.now g.new ahead.new) }
    ensures same_tables { SameTables ahead.old ahead.new }
{
    let placed = placed_on(s.width, s.height, s.hunter, s.target);
    let count = fresh(aim_of(placed), plan, g, ahead);
    Session { count, ..placed }
}

// The cell that the parent byte of s names: the byte is the direction there plus 1.
pub fn parent_of(a: Aim, parent: &[u8], s: usize) -> usize
    requires { Linked a parent.now s }
    ensures { Named a s (get_or parent.now s 0) result }
{
    plan::entered(a.width, s, parent[s] as usize - 1)
}
