// Steps 2 to 5 and 14, for numbers that are not turned away.
#![tactic(auto)]

ghost use Rattle.std.specs.Prelude.{◌≡◌, false, ◌&&◌, leb};
ghost use Rattle.book.specs.Sizes.{partitions_max, places_max};
ghost use Rattle.book.specs.Cells.{◌⟨◌≔◌⟩, Transactions};
ghost use Rattle.book.specs.Folds.{count};
ghost use Rattle.book.specs.Sets.{include};
ghost use Rattle.book.specs.Servers.{present as present_of};
ghost use Rattle.book.specs.SessionSteps.{start as start_store, start_answer, read as read_store, read_answer, write as write_store, has_writes, touches as touched, end as end_store, end_answer, move as move_store};
ghost use Rattle.room.specs.Layout.{store};
ghost use Rattle.room.specs.Named.{cell_of};
ghost use Rattle.views.specs.Partitions.{Parted};
ghost use Rattle.sessions.specs.Starting.{Homed, cleaned};
ghost use Rattle.sessions.specs.Reading.{Looked};
ghost use Rattle.sessions.specs.Asking.{requested, copied, asked_all};

use book::{
    Answer, Hall, KEYS_MAX, Key, PARTITIONS_MAX, Partition, Place, Reading, Server, Session, State,
    Status, Timestamp, View,
};
use room::{Cell, Room};

// kept: `Parted` stands in contracts and not in a type as ladders' `SizedRoom`: that holds a room to read, and these write theirs; a struct
// with a `&mut` in it would have to say in each method that it keeps the loan.

// document 02, d: "the coordinator's hybrid clock, or its reading if larger"
fn present_at(room: &Room, home: Server) -> Timestamp
    ensures { result.0 ≡ present_of (store room.now) home.hall.index home.partition.index }
{
    let reading = Reading(room::get(room, Cell::Reading(home)));
    let hybrid = Timestamp(room::get(room, Cell::Hybrid(home)));
    times::present(reading, hybrid)
}

// "cache entries with time at or below S go"
fn clean_cache(room: &mut Room, s: Session, snapshot: Timestamp)
    ensures { store room.new ≡ cleaned (store room.old) s.index snapshot.0 }
{
    for k in 0..KEYS_MAX {
        let entry = Cell::CacheTime(s, Key::new(k));
        // kept: compared as words, since the loop then needs no answer to be proved, and as timestamps it does.
        if room::get(room, entry) <= snapshot.0 {
            room::put(room, entry, 0);
        }
    }
}

// 2. Start. "S becomes the larger of the coordinator's and the session's stable time", "both keep it. Write and read sets are emptied"
pub fn start(room: &mut Room, s: Session) -> Answer
    requires { Homed (store room.old) s.index }
    ensures { (result ≡ start_answer (store room.old) s.index) × (store room.new ≡ start_store (store room.old) s.index) }
{
    let home = Server::new(
        room::get(room, Cell::HomeHall(s)) as usize,
        room::get(room, Cell::HomePartition(s)) as usize,
    );
    let stable = Timestamp(room::get(room, Cell::Stable(home)));
    let before = Timestamp(room::get(room, Cell::Snapshot(s)));
    let present = present_at(room, home);
    let snapshot = stable.max(before);
    room::put(room, Cell::Stable(home), snapshot.0);
    room::put(room, Cell::Snapshot(s), snapshot.0);
    room::put(room, Cell::WriteSet(s), 0);
    room::put(room, Cell::ReadSet(s), 0);
    room::put(room, Cell::Status(s), Status::Running as u64);
    clean_cache(room, s, snapshot);
    // In a room that was not reached S may be the larger.
    Answer::Answered(snapshot.0, present.0.saturating_sub(snapshot.0))
}

// Key k with value v enters one of a session's sets; `value` is the cell of k's value there.
#[inline(always)]
fn enter(room: &mut Room, set: Cell, value: Cell, k: Key, v: u64)
    ensures { store room.new ≡ store room.old ⟨ cell_of set ≔ include (store room.old (cell_of set)) k.index ⟩ ⟨ cell_of value ≔ v ⟩ }
{
    let keys = room::get(room, set);
    room::put(room, set, masks::with(keys, k.index as u64));
    room::put(room, value, v);
}

// What a session itself has of a key. "Looks in write set, read set, cache"
fn look(room: &Room, s: Session, k: Key) -> Option<u64>
    ensures { Looked (store room.now) s.index k.index result }
{
    if masks::has(room::get(room, Cell::WriteSet(s)), k.index as u64) {
        Some(room::get(room, Cell::WriteValue(s, k)))
    } else if masks::has(room::get(room, Cell::ReadSet(s)), k.index as u64) {
        Some(room::get(room, Cell::ReadValue(s, k)))
    } else if room::get(room, Cell::CacheTime(s, k)) > 0 {
        Some(room::get(room, Cell::CacheValue(s, k)))
    } else {
        None
    }
}

// 3. Read. "then at that hall's server, at S." "What is found joins the read set"
pub fn read(room: &mut Room, s: Session, k: Key, h: Hall) -> Answer
    requires { Parted (store room.old) }
    ensures { (result ≡ read_answer (store room.old) s.index k.index h.index) × (store room.new ≡ read_store (store room.old) s.index k.index h.index) }
{
    let answer = match look(room, s, k) {
        Some(v) => Answer::Own(v),
        None => {
            let snapshot = Timestamp(room::get(room, Cell::Snapshot(s)));
            Answer::Read(views::held_view(room, h, k, snapshot))
        }
    };
    if let Answer::Own(v) | Answer::Read(View::Seen(v, _)) = answer {
        enter(room, Cell::ReadSet(s), Cell::ReadValue(s, k), k, v);
    }
    answer
}

// 4. Write. "Replaces an earlier value in the write set."
pub fn write(room: &mut Room, s: Session, k: Key, v: u64) -> Answer
    ensures { (result ≡ Answer.Answered 0 0) × (store room.new ≡ write_store (store room.old) s.index k.index v) }
{
    enter(room, Cell::WriteSet(s), Cell::WriteValue(s, k), k, v);
    Answer::Answered(0, 0)
}

// The set m has a key of partition p. (kept: a set of keys is the bits of a word, as in the cells and in `masks`.)
fn touches(room: &Room, m: u64, p: Partition) -> bool
    requires { Parted (store room.now) }
    ensures { result ≡ touched (store room.now) m p.index }
{
    (0..KEYS_MAX).any(|k| {
        masks::has(m, k as u64) && views::partition_of(room, k).index == p.index
    })
}

// The request of session s with the keys m, at place t.
fn request(room: &mut Room, s: Session, t: Place, m: u64)
    ensures { store room.new ≡ requested (store room.old) s.index t.index m }
{
    let from = room::get(room, Cell::HomeHall(s));
    room::put(room, Cell::By(t), s.index as u64);
    room::put(room, Cell::From(t), from);
    room::put(room, Cell::KeySet(t), m);
    room::put(room, Cell::Status(s), Status::Committing as u64);
    room::put(room, Cell::Transactions, t.index as u64 + 1);
}

// The transaction at place t has the values that session s wrote.
fn copy_values(room: &mut Room, s: Session, t: Place)
    ensures { store room.new ≡ copied (store room.old) s.index t.index }
{
    for k in 0..KEYS_MAX {
        let key = Key::new(k);
        let v = room::get(room, Cell::WriteValue(s, key));
        room::put(room, Cell::Value(t, key), v);
    }
}

// "each becomes asked", of the partitions that have a key of m; how many they are.
#[tactic(auto, unfolding(book::specs::Folds::count))]
fn ask_states(room: &mut Room, t: Place, m: u64) -> u64
    requires { Parted (store room.old) }
    ensures { (result ≡ count partitions_max (touched (store room.old) m)) × (store room.new ≡ asked_all (store room.old) t.index m) }
{
    // kept: a loop, which counts while it writes.
    let mut n = 0;
    for p in 0..PARTITIONS_MAX {
        let partition = Partition::new(p);
        if touches(room, m, partition) {
            room::put(room, Cell::State(t, partition), State::Asked as u64);
            n += 1;
        }
    }
    n
}

// 5. End. "Without: the session is idle, nothing else changes." With writes its keys are asked for, at the next place.
pub fn end(room: &mut Room, s: Session) -> Answer
    requires { Parted (store room.old) × ((has_writes (store room.old) s.index && leb places_max (store room.old Transactions)) ≡ false) }
    ensures { (result ≡ end_answer (store room.old) s.index) × (store room.new ≡ end_store (store room.old) s.index) }
{
    let m = room::get(room, Cell::WriteSet(s));
    if m == 0 {
        room::put(room, Cell::Status(s), Status::Idle as u64);
        return Answer::Answered(0, 0);
    }
    let t = Place::new(room::get(room, Cell::Transactions) as usize);
    request(room, s, t, m);
    copy_values(room, s, t);
    let n = ask_states(room, t, m);
    Answer::Answered(views::number_of(t).0, n)
}

// 14. Move. "Its stable time, last commit time and cache go along."
pub fn move_session(room: &mut Room, s: Session, h: u64, p: u64) -> Answer
    ensures { (result ≡ Answer.Answered 0 0) × (store room.new ≡ move_store (store room.old) s.index h p) }
{
    room::put(room, Cell::HomeHall(s), h);
    room::put(room, Cell::HomePartition(s), p);
    Answer::Answered(0, 0)
}
