// 1. A server's clock, taken from the room and put back whole; what it proposes; tick.
#![tactic(auto)]

ghost use Rattle.std.specs.Prelude.{◌≡◌, ◌≤◌};
ghost use Rattle.book.specs.Sizes.{time_max};
ghost use Rattle.book.specs.CommitSteps.{tick as ticked_store};
ghost use Rattle.room.specs.Layout.{store};
ghost use Rattle.clocks.specs.Clocks.{clock_of, with_clock, proposed_clock};

use book::{Answer, Clock, Reading, Server, Timestamp};
use lent::after_tick;
use room::{Cell, Room};
use times::next;

pub fn take(room: &Room, s: Server) -> Clock
    ensures { result ≡ clock_of (store room.now) s.hall.index s.partition.index }
{
    Clock {
        reading: Reading(room::get(room, Cell::Reading(s))),
        hybrid: Timestamp(room::get(room, Cell::Hybrid(s))),
        version: Timestamp(room::get(room, Cell::Entry(s, s.hall))),
    }
}

pub fn put_back(room: &mut Room, s: Server, c: Clock)
    ensures { store room.new ≡ with_clock (store room.old) s.hall.index s.partition.index c }
{
    room::put(room, Cell::Reading(s), c.reading.0);
    room::put(room, Cell::Hybrid(s), c.hybrid.0);
    room::put(room, Cell::Entry(s, s.hall), c.version.0);
}

// "the largest of reading, hybrid clock + 1, the session's last commit time + 1, S + 1"
pub fn proposed(mut c: Clock, last: Timestamp, snapshot: Timestamp) -> Clock
    requires { (c.hybrid.0 ≤ time_max) × (last.0 ≤ time_max) × (snapshot.0 ≤ time_max) }
    ensures { result ≡ proposed_clock c last.0 snapshot.0 }
{
    c.hybrid = times::present(
        c.reading,
        next(c.hybrid).max(next(last).max(next(snapshot))),
    );
    c
}

// 1. "Stores the reading."
pub fn tick(room: &mut Room, s: Server, x: Reading) -> Answer
    ensures { (result ≡ Answer.Answered 0 0) × (store room.new ≡ ticked_store (store room.old) s.hall.index s.partition.index x.0) }
{
    put_back(room, s, after_tick(take(room, s), x));
    Answer::Answered(0, 0)
}
