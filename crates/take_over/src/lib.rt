// Before its steps a search takes over the target and the hunter as placed, or starts fresh.
#![tactic(auto)]

ghost use Rattle.std.specs.Prelude.{◌≡◌};
ghost use Rattle.tables.specs.Lent.{lent, SameTables};
ghost use Rattle.tables.specs.Sound.{Sound};
ghost use Rattle.entries.specs.Became.{KeptIn};
ghost use Rattle.take_over.specs.TakeOver.{aimed_anew, hand_over, Aiming, Handing, Holds, Takes};

use entries;
use plan;
use tables;
use tables::{Ahead, Session};

// The search number from which on a search starts fresh, so that no number grows without end.
const RENEWAL: u32 = 1000;

// The target taken over: km grows by the estimate between old and new target.
fn target_taken(s: Session) -> Session
    requires { Aiming s }
    ensures { result ≡ aimed_anew s }
{
    let old = plan::spot_of(s.width, s.goal);
    let new = plan::spot_of(s.width, s.target);
    Session {
        goal: s.target,
        km: s.km + plan::estimate(old, new) as u32,
        ..s
    }
}

// The hunter taken over: its rhs is kept, its parent becomes 0, and the old hunter is found anew.
fn hand_over(s: Session, plan: &[u8], g: &[u32], ahead: &mut Ahead) -> Session
    requires { Handing s (lent plan.now g.now ahead.old) }
    ensures holds { Holds s (hand_over s (lent plan.now g.now ahead.old)) result (lent plan.now g.now ahead.new) }
    ensures entry_kept { KeptIn s.count ahead.old result.count ahead.new }
    ensures same_tables { SameTables ahead.old ahead.new }
{
    ahead.parent[s.hunter] = 0;
    let t = Session {
        origin: s.hunter,
        ..s
    };
    let a = entries::aim_of(t);
    let at = plan::spot_of(s.width, s.origin);
    let count = entries::found_anew(a, plan, g, ahead, s.count, s.origin, at);
    Session { count, ..t }
}

// Target and hunter taken over, or a fresh start: at the renewal, and where the new hunter's rhs is infinite.
pub fn take_over(s: Session, plan: &[u8], g: &mut [u32], ahead: &mut Ahead) -> Session
    requires { Sound s (lent plan.now g.old ahead.old) }
    ensures taken { Takes s (lent plan.now g.old ahead.old) result (lent plan.now g.new ahead.new) }
    ensures same_tables { SameTables ahead.old ahead.new }
{
    if RENEWAL <= s.searches {
        return entries::begin(s, plan, g, ahead);
    }
    let t = target_taken(s);
    if s.hunter == s.origin {
        return t;
    }
    if ahead.rhs[s.hunter] == tables::INFINITE {
        return entries::begin(s, plan, g, ahead);
    }
    hand_over(t, plan, g, ahead)
}
