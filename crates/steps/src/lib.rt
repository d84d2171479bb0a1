// The steps of a search over the lent tables: put back, lower, raise, and the loop over them, up to a limit.
#![tactic(auto)]

ghost use Rattle.std.specs.Prelude.{◌≡◌, ltb};
ghost use Rattle.method.specs.Tables.{stored_key, calculated_key};
ghost use Rattle.method.specs.Loop.{next_cell};
ghost use Rattle.method.specs.Steps.{lowered, raised, stepped};
ghost use Rattle.tables.specs.Lent.{lent, SameTables, core};
ghost use Rattle.entries.specs.Aims.{hunt, most_g, Aimed, ReadyAt};
ghost use Rattle.entries.specs.Became.{Became, KeptIn};
ghost use Rattle.choices.specs.Moves.{Relaxing, Relaxes, Renewing, Renews, Numbers, Keyed};
ghost use Rattle.choices.specs.Next.{Choosing, next_of};
ghost use Rattle.steps.specs.Ready.{Obeying, Obeyed, Lowering, Stepping};
ghost use Rattle.steps.specs.Loop.{Started, Finished};

use choices;
use entries;
use entries::{Aim, Asked};
use plan;
use plan::Spot;
use tables;
use tables::Ahead;

// What an open move from u asks in "lower", read out of the tables ahead of g.
fn relaxation(a: Aim, plan: &[u8], ahead: &Ahead, v: u32, u: usize, d: usize) -> Option<Asked>
    requires { Relaxing a plan.now ahead.now.rhs.now v u d }
    ensures { Relaxes a plan.now ahead.now.rhs.now v u d result }
{
    choices::relaxation(a, plan, &ahead.rhs, v, u, d)
}

// What it asks in "raise".
fn finding_anew(a: Aim, plan: &[u8], g: &[u32], ahead: &Ahead, u: usize, d: usize) -> Option<Asked>
    requires { Renewing a plan.now g.now ahead.now.parent.now u d }
    ensures { Renews a plan.now g.now ahead.now.parent.now u d result }
{
    choices::finding_anew(a, plan, g, &ahead.parent, u, d)
}

// The cell that a move in direction d enters does what is asked of it; `at` is the spot that the move leaves. Returns the queue's count.
fn obey(
    a: Aim,
    g: &[u32],
    ahead: &mut Ahead,
    count: usize,
    at: Spot,
    d: usize,
    asked: Option<Asked>,
) -> usize
    requires { Obeying a count at d asked g.now ahead.old }
    ensures obeyed { Obeyed a asked g.now ahead.old result ahead.new }
    ensures entry_kept { KeptIn count ahead.old result ahead.new }
    ensures same_tables { SameTables ahead.old ahead.new }
{
    let Some(asked) = asked else {
        return count;
    };
    let to = plan::moved(at, d);
    entries::take(a, g, ahead, count, asked.cell, to, asked.found)
}

// Lower: g of u becomes its rhs, u leaves the queue, and each open move from u is looked at.
fn lower(
    a: Aim,
    plan: &[u8],
    g: &mut [u32],
    ahead: &mut Ahead,
    count: usize,
    u: usize,
    at: Spot,
) -> usize
    requires { Lowering a count u at (lent plan.now g.old ahead.old) }
    ensures became { Became a result (lent plan.now g.new ahead.new) (lowered (hunt a plan.now) (core (lent plan.now g.old ahead.old)) u) }
    ensures same_tables { SameTables ahead.old ahead.new }
{
    let v = ahead.rhs[u];
    g[u] = v;
    let mut n = entries::set_right_ahead(a, g, ahead, count, u, at);
    for d in 0..4 {
        let asked = relaxation(a, plan, ahead, v, u, d);
        n = obey(a, g, ahead, n, at, d, asked);
    }
    n
}

// Raise: g of u becomes infinite, each neighbour with parent u is found anew, and last u's entry is set right.
fn raise(
    a: Aim,
    plan: &[u8],
    g: &mut [u32],
    ahead: &mut Ahead,
    count: usize,
    u: usize,
    at: Spot,
) -> usize
    requires { ReadyAt a most_g count u at (lent plan.now g.old ahead.old) }
    ensures became { Became a result (lent plan.now g.new ahead.new) (raised (hunt a plan.now) (core (lent plan.now g.old ahead.old)) u) }
    ensures same_tables { SameTables ahead.old ahead.new }
{
    g[u] = tables::INFINITE;
    let mut n = count;
    for d in 0..4 {
        let asked = finding_anew(a, plan, g, ahead, u, d);
        n = obey(a, g, ahead, n, at, d, asked);
    }
    entries::set_right_ahead(a, g, ahead, n, u, at)
}

// Is the queued cell u, which stands at `at`, to be put back?
fn is_stale(a: Aim, g: &[u32], ahead: &Ahead, u: usize, at: Spot) -> bool
    requires { Keyed a u at g.now ahead.now.rhs.now ahead.now.k1.now ahead.now.k2.now }
    ensures { (plan : Numbers) → result ≡ ltb (stored_key (core (lent plan g.now ahead.now)) u) (calculated_key (hunt a plan) (core (lent plan g.now ahead.now)) u) }
{
    choices::stale(a, g, &ahead.rhs, &ahead.k1, &ahead.k2, u, at)
}

// One step on the least cell u: put back, lower or raise.
fn step(a: Aim, plan: &[u8], g: &mut [u32], ahead: &mut Ahead, count: usize, u: usize) -> usize
    requires { Stepping a count u (lent plan.now g.old ahead.old) }
    ensures became { Became a result (lent plan.now g.new ahead.new) (stepped (hunt a plan.now) (core (lent plan.now g.old ahead.old)) u) }
    ensures same_tables { SameTables ahead.old ahead.new }
{
    let at = plan::spot_of(a.width, u);
    if is_stale(a, g, ahead, u, at) {
        return entries::set_right_ahead(a, g, ahead, count, u, at);
    }
    if ahead.rhs[u] < g[u] {
        return lower(a, plan, g, ahead, count, u, at);
    }
    raise(a, plan, g, ahead, count, u, at)
}

// The cell to step on next, if the search goes on.
fn next(a: Aim, g: &[u32], ahead: &Ahead, count: usize) -> Option<usize>
    requires { Choosing a count g.now ahead.now.rhs.now ahead.now.k1.now ahead.now.k2.now ahead.now.place.now ahead.now.list.now }
    ensures { (plan : Numbers) → next_of result ≡ next_cell (hunt a plan) (core (lent plan g.now ahead.now)) }
{
    choices::chosen(
        a,
        g,
        &ahead.rhs,
        &ahead.k1,
        &ahead.k2,
        &ahead.place,
        &ahead.list,
        count,
    )
}

// How a run of the loop ended: by itself or at its limit, after how many steps, with how many cells queued.
#[derive(Clone, Copy)]
pub struct Ran {
    pub ended: bool,
    pub steps: usize,
    pub count: usize,
}

// The search's loop: at most `limit` steps.
pub fn run(a: Aim, plan: &[u8], g: &mut [u32], ahead: &mut Ahead, count: usize, limit: usize) -> Ran
    requires aimed { Aimed a plan.now }
    requires started { Started a limit count (lent plan.now g.old ahead.old) }
    ensures finished { Finished a limit count (lent plan.now g.old ahead.old) (lent plan.now g.new ahead.new) result.count result.steps result.ended }
    ensures same_tables { SameTables ahead.old ahead.new }
{
    let mut n = count;
    for steps in 0..limit {
        let Some(u) = next(a, g, ahead, n) else {
            return Ran {
                ended: true,
                steps,
                count: n,
            };
        };
        n = step(a, plan, g, ahead, n, u);
    }
    Ran {
        ended: next(a, g, ahead, n).is_none(),
        steps: limit,
        count: n,
    }
}
