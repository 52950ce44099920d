// A server's clock, lent by `&mut` to thin functions. The work is done by a function over the clock by value, and a function by value stands
// above each thin one, so that nobody else has to lend a clock.
#![tactic(auto)]

ghost use Rattle.std.specs.Prelude.{◌≡◌};
ghost use Rattle.lent.specs.Moves.{ticked_clock, committed_clock, committed_hybrid};

use book::{Clock, Reading, Timestamp};

fn ticked(mut c: Clock, x: Reading) -> Clock
    ensures { result ≡ ticked_clock c x }
{
    c.reading = x;
    c
}

// "the largest of itself, the commit time and the reading"
fn committed(mut c: Clock, time: Timestamp) -> Clock
    ensures { result ≡ committed_clock c time }
{
    c.hybrid = c.hybrid.max(time).max(Timestamp::from(c.reading));
    c
}

// 1. "Stores the reading."
pub fn tick(c: &mut Clock, x: Reading)
    ensures { c.new ≡ ticked_clock c.old x }
{
    *c = ticked(*c, x);
}

// 8. "Hybrid clock becomes the largest of itself, the commit time and the reading, and is answered"
pub fn commit(c: &mut Clock, time: Timestamp) -> Timestamp
    ensures { (c.new ≡ committed_clock c.old time) × (result ≡ committed_hybrid c.old time) }
{
    let d = committed(*c, time);
    *c = d;
    d.hybrid
}

pub fn after_tick(mut c: Clock, x: Reading) -> Clock
    ensures { result ≡ ticked_clock c x }
{
    tick(&mut c, x);
    c
}

pub fn after_commit(mut c: Clock, time: Timestamp) -> Clock
    ensures { result ≡ committed_clock c time }
{
    commit(&mut c, time);
    c
}
