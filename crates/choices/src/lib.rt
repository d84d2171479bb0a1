// What a step of a search chooses, reading the tables and writing nothing: the next cell, whether it is put back, and what each of its open moves does.
#![tactic(auto)]

ghost use Rattle.std.specs.Prelude.{◌≡◌, ltb};
ghost use Rattle.method.specs.Tables.{key_number, stored_key, calculated_key};
ghost use Rattle.tables.specs.Lent.{tables, core};
ghost use Rattle.entries.specs.Aims.{hunt};
ghost use Rattle.choices.specs.Moves.{Relaxing, Relaxes, Renewing, Renews, Numbers, Keyed};
ghost use Rattle.choices.specs.Next.{Choosing, Chosen};

use entries;
use entries::{Aim, Asked, Found};
use plan::{Floor, Spot};
use queue;

// What an open move from u asks in "lower" of the cell that it enters, where v is the new g of u: to take a smaller sum.
pub fn relaxation(a: Aim, plan: &[u8], rhs: &[u32], v: u32, u: usize, d: usize) -> Option<Asked>
    requires { Relaxing a plan.now rhs.now v u d }
    ensures { Relaxes a plan.now rhs.now v u d result }
{
    let floor = Floor {
        width: a.width,
        height: a.height,
        plan,
    };
    let reach = floor.move_out(u, d)?;
    if reach.cell == a.hunter {
        return None;
    }
    let sum = v + reach.cost as u32;
    if rhs[reach.cell] <= sum {
        return None;
    }
    Some(Asked {
        cell: reach.cell,
        found: Found {
            rhs: sum,
            parent: reach.code,
        },
    })
}

// What it asks in "raise": a cell whose parent is u is found anew.
pub fn finding_anew(
    a: Aim,
    plan: &[u8],
    g: &[u32],
    parent: &[u8],
    u: usize,
    d: usize,
) -> Option<Asked>
    requires { Renewing a plan.now g.now parent.now u d }
    ensures { Renews a plan.now g.now parent.now u d result }
{
    let floor = Floor {
        width: a.width,
        height: a.height,
        plan,
    };
    let reach = floor.move_out(u, d)?;
    if reach.cell == a.hunter {
        return None;
    }
    if parent[reach.cell] != reach.code {
        return None;
    }
    Some(Asked {
        cell: reach.cell,
        found: entries::anew(a, plan, g, reach.cell),
    })
}

// A key as one number, its first number in the upper half: keys are ordered as these numbers are.
fn key(first: u32, second: u32) -> u64
    ensures { result ≡ key_number first second }
{
    first as u64 * 4294967296 + second as u64
}

// Is the stored key of a queued cell below its calculated key?
pub fn stale(a: Aim, g: &[u32], rhs: &[u32], k1: &[u32], k2: &[u32], u: usize, at: Spot) -> bool
    requires { Keyed a u at g.now rhs.now k1.now k2.now }
    ensures { (plan parent place list : Numbers) → result ≡ ltb (stored_key (core (tables plan g.now rhs.now parent k1.now k2.now place list)) u) (calculated_key (hunt a plan) (core (tables plan g.now rhs.now parent k1.now k2.now place list)) u) }
{
    let m = g[u].min(rhs[u]);
    let first = entries::first_key(a, m, at);
    key(k1[u], k2[u]) < key(first, m)
}

// The least queued cell, while the least stored key is below the target's calculated key or rhs of the target is above its g.
pub fn chosen(
    a: Aim,
    g: &[u32],
    rhs: &[u32],
    k1: &[u32],
    k2: &[u32],
    place: &[u16],
    list: &[u16],
    count: usize,
) -> Option<usize>
    requires { Choosing a count g.now rhs.now k1.now k2.now place.now list.now }
    ensures { Chosen a g.now rhs.now k1.now k2.now place.now result }
{
    if count == 0 {
        return None;
    }
    let u = queue::least(list);
    let least = key(k1[u], k2[u]);
    let x = g[a.target];
    let y = rhs[a.target];
    if x < y || least < key(y.saturating_add(a.km), y) {
        return Some(u);
    }
    None
}
