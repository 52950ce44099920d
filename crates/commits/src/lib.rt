// Steps 6 to 8: prepare, decide, commit.
#![tactic(auto)]

ghost use Rattle.std.specs.Prelude.{◌≡◌, ◌<◌, ◌^◌};
ghost use Rattle.book.specs.Sizes.{sessions_max, keys as keys_max};
ghost use Rattle.book.specs.Cells.{By, KeySet};
ghost use Rattle.book.specs.CommitSteps.{prepare as prepared_store, proposal, decide as decided_store, decision, commit as committed_store, commitment};
ghost use Rattle.room.specs.Layout.{store};
ghost use Rattle.commits.specs.Cache.{cached};
ghost use Rattle.commits.specs.Safe.{Coordinated, Timely, Writing};

use book::{
    Answer, KEYS_MAX, Key, PARTITIONS_MAX, Partition, Place, Server, Session, State, Status,
    Timestamp,
};
use clocks::{proposed, put_back, take};
use lent::after_commit;
use room::{Cell, Room};
use servers::writing_hall;

fn session_of(room: &Room, t: Place) -> Session
    requires { store room.now (By t.index) < sessions_max }
    ensures { result.index ≡ store room.now (By t.index) }
{
    Session::new(room::get(room, Cell::By(t)) as usize)
}

// 6. "At the writing server, proposed time = .. The hybrid clock becomes it. Answers it."
pub fn prepare(room: &mut Room, t: Place, p: Partition) -> Answer
    requires { Coordinated (store room.old) t.index × Timely (store room.old) t.index p.index }
    ensures { (result ≡ Answer.Answered (proposal (store room.old) t.index p.index) 0) × (store room.new ≡ prepared_store (store room.old) t.index p.index) }
{
    let server = Server {
        hall: writing_hall(room, t, p.index),
        partition: p,
    };
    let session = session_of(room, t);
    let last = Timestamp(room::get(room, Cell::LastCommit(session)));
    let snapshot = Timestamp(room::get(room, Cell::Snapshot(session)));
    let c = proposed(take(room, server), last, snapshot);
    put_back(room, server, c);
    room::put(room, Cell::Proposed(t, p), c.hybrid.0);
    room::put(room, Cell::State(t, p), State::Prepared as u64);
    Answer::Answered(c.hybrid.0, 0)
}

// "Commit time = largest proposed time"
fn largest_proposal(room: &Room, t: Place) -> Timestamp
    ensures { result.0 ≡ decision (store room.now) t.index }
{
    (0..PARTITIONS_MAX)
        .filter(|&p| room::get(room, Cell::State(t, Partition::new(p))) == State::Prepared as u64)
        .map(|p| Timestamp(room::get(room, Cell::Proposed(t, Partition::new(p)))))
        .max()
        .unwrap_or(Timestamp(0))
}

// "its writes move to the cache with it, over older entries"
fn move_to_cache(room: &mut Room, t: Place, s: Session, time: Timestamp)
    requires { store room.old (KeySet t.index) < 2 ^ keys_max }
    ensures { store room.new ≡ cached (store room.old) t.index s.index time.0 }
{
    let keys = room::get(room, Cell::KeySet(t));
    for k in 0..KEYS_MAX {
        if masks::has(keys, k as u64) {
            let key = Key::new(k);
            let v = room::get(room, Cell::Value(t, key));
            room::put(room, Cell::CacheValue(s, key), v);
            room::put(room, Cell::CacheTime(s, key), time.0);
        }
    }
}

// 7. "Commit time = largest proposed time, answered. The session is idle, its last commit time is this"
pub fn decide(room: &mut Room, t: Place) -> Answer
    requires { Writing (store room.old) t.index }
    ensures { (result ≡ Answer.Answered (decision (store room.old) t.index) 0) × (store room.new ≡ decided_store (store room.old) t.index) }
{
    let session = session_of(room, t);
    let time = largest_proposal(room, t);
    room::put(room, Cell::CommitTime(t), time.0);
    room::put(room, Cell::LastCommit(session), time.0);
    room::put(room, Cell::WriteSet(session), 0);
    room::put(room, Cell::Status(session), Status::Idle as u64);
    move_to_cache(room, t, session, time);
    Answer::Answered(time.0, 0)
}

// 8. "Hybrid clock becomes the largest of itself, the commit time and the reading, and is answered; the transaction is waiting."
// kept: the server as in prepare, since one function for it would ask as much, and say as much of its answer, as these lines do
pub fn commit(room: &mut Room, t: Place, p: Partition) -> Answer
    requires { Coordinated (store room.old) t.index }
    ensures { (result ≡ Answer.Answered (commitment (store room.old) t.index p.index) 0) × (store room.new ≡ committed_store (store room.old) t.index p.index) }
{
    let server = Server {
        hall: writing_hall(room, t, p.index),
        partition: p,
    };
    let time = Timestamp(room::get(room, Cell::CommitTime(t)));
    let c = after_commit(take(room, server), time);
    put_back(room, server, c);
    room::put(room, Cell::State(t, p), State::Waiting as u64);
    Answer::Answered(c.hybrid.0, 0)
}
