// Steps 9 and 10: install, deliver.
#![tactic(auto)]

ghost use Rattle.std.specs.Prelude.{eqb, ◌≡◌, ◌<◌, ◌≤◌};
ghost use Rattle.std.specs.Option.{ForSome};
ghost use Rattle.book.specs.Sizes.{places_max, slots};
ghost use Rattle.book.specs.Cells.{First, Waiting};
ghost use Rattle.book.specs.Sets.{set_of};
ghost use Rattle.book.specs.Servers.{writer};
ghost use Rattle.book.specs.ReplicationSteps.{prepared_at, version_clock, number_installed, is_quiet, other_holder, install as installed_store, clock_carried, number_carried, deliver as delivered_store};
ghost use Rattle.room.specs.Layout.{store};
ghost use Rattle.replication.specs.Safe.{AllCoordinated, Channel, AllTimely, Outgoing};
ghost use Rattle.replication.specs.ClockAfter.{lowest_proposed, installed_clock};
ghost use Rattle.replication.specs.Installing.{due, marked};
ghost use Rattle.replication.specs.Sending.{sent, messages};
ghost use Rattle.replication.specs.Installed.{outcome_of};
ghost use Rattle.replication.specs.Delivering.{carried, freed};

use book::{
    Answer, Clock, HALLS_MAX, Hall, PLACES_MAX, Partition, Place, SLOTS_MAX, Server, Slot, State,
    Timestamp,
};
use room::{Cell, Room};
use vectors::{updated, vector_of};

const SLOTS: u64 = SLOTS_MAX as u64;

// kept: `AllCoordinated` stands in contracts and not in a type: a struct such as ladders' `SizedRoom` (44 lines) would save six private clauses.
// The transaction at place t writes the server's partition at that server.
fn writes_at(room: &Room, s: Server, t: Place) -> bool
    requires { AllCoordinated (store room.now) }
    ensures { result ≡ eqb (writer (store room.now) t.index s.partition.index) s.hall.index }
{
    servers::writing_hall(room, t, s.partition.index).index == s.hall.index
}

// And it is prepared there.
fn is_prepared(room: &Room, s: Server, t: Place) -> bool
    requires { AllCoordinated (store room.now) }
    ensures { result ≡ prepared_at (store room.now) s.hall.index s.partition.index t.index }
{
    room::get(room, Cell::State(t, s.partition)) == State::Prepared as u64 && writes_at(room, s, t)
}

// The lowest proposed time of those that are prepared at server s, if there are any.
fn lowest_prepared(room: &Room, s: Server) -> Option<Timestamp>
    requires { AllCoordinated (store room.now) }
    ensures { result ≡ lowest_proposed (store room.now) s.hall.index s.partition.index }
{
    (0..PLACES_MAX)
        .filter(|&t| is_prepared(room, s, Place::new(t)))
        .map(|t| Timestamp(room::get(room, Cell::Proposed(Place::new(t), s.partition))))
        .min()
}

// "version clock = lowest proposed time - 1; else hybrid clock and version clock both become the larger of reading and hybrid clock"
fn installed(c: Clock, lowest: Option<Timestamp>) -> Clock
    requires { ForSome lowest (λ time. 1 ≤ time.0) }
    ensures { result ≡ installed_clock c lowest }
{
    match lowest {
        Some(time) => Clock {
            version: Timestamp(time.0 - 1),
            ..c
        },
        None => {
            let present = times::present(c.reading, c.hybrid);
            Clock {
                hybrid: present,
                version: present,
                ..c
            }
        }
    }
}

// "Every waiting transaction with commit time at or below the version clock"
fn is_due(room: &Room, s: Server, version: Timestamp, t: Place) -> bool
    requires { AllCoordinated (store room.now) }
    ensures { result ≡ due (store room.now) s.hall.index s.partition.index version.0 t.index }
{
    room::get(room, Cell::State(t, s.partition)) == State::Waiting as u64
        && writes_at(room, s, t)
        && Timestamp(room::get(room, Cell::CommitTime(t))) <= version
}

// The set of those that are installed.
fn due_set(room: &Room, s: Server, version: Timestamp) -> u64
    requires { AllCoordinated (store room.now) }
    ensures { result ≡ set_of places_max (due (store room.now) s.hall.index s.partition.index version.0) }
{
    (0..PLACES_MAX)
        .filter(|&t| is_due(room, s, version, Place::new(t)))
        .fold(0, |m, t| masks::with(m, t as u64))
}

// What an install comes to: the server's clock after it, the set of those it installs, their number, and whether it is quiet.
#[derive(Clone, Copy)]
struct Installation {
    clock: Clock,
    set: u64,
    number: u64,
    quiet: bool,
}

// Worked out before anything is written. Document 02, b: "An install that installs nothing and leaves the version clock where it was shall
// send no message"; "where it was" is the server's own entry before the step.
#[tactic(auto, using(crate::specs::ClockAfter::lowest_above, crate::specs::Installed::outcome_made))]
fn outcome_of(room: &Room, s: Server) -> Installation
    requires { AllCoordinated (store room.now) × AllTimely (store room.now) s.partition.index }
    ensures { result ≡ outcome_of (store room.now) s.hall.index s.partition.index }
{
    let before = clocks::take(room, s);
    let clock = installed(before, lowest_prepared(room, s));
    let set = due_set(room, s, clock.version);
    let number = masks::count(set);
    Installation {
        clock,
        set,
        number,
        quiet: number == 0 && clock.version == before.version,
    }
}

pub fn is_quiet(room: &Room, s: Server) -> bool
    requires { AllCoordinated (store room.now) × AllTimely (store room.now) s.partition.index }
    ensures { result ≡ is_quiet (store room.now) s.hall.index s.partition.index }
{
    outcome_of(room, s).quiet
}

#[tactic(auto, using(room::specs::Bulk::begin, room::specs::Bulk::puts, room::specs::Bulk::skips))]
fn mark_installed(room: &mut Room, p: Partition, set: u64)
    ensures { store room.new ≡ marked p.index set (store room.old) }
{
    for t in 0..PLACES_MAX {
        if masks::has(set, t as u64) {
            room::put(room, Cell::State(Place::new(t), p), State::Installed as u64);
        }
    }
}

// What goes through a channel: a version clock, and the set of the transactions that were installed with it.
#[derive(Clone, Copy)]
struct Message {
    clock: Timestamp,
    set: u64,
}

fn send(room: &mut Room, s: Server, g: Hall, m: Message)
    requires { Channel (store room.old) g.index s.partition.index s.hall.index }
    ensures { store room.new ≡ sent (store room.old) s.hall.index s.partition.index g.index m.clock.0 m.set }
{
    let to = Server {
        hall: g,
        partition: s.partition,
    };
    let first = room::get(room, Cell::First(to, s.hall));
    let waiting = room::get(room, Cell::Waiting(to, s.hall));
    let slot = Slot::new(((first + waiting) % SLOTS) as usize);
    room::put(room, Cell::ClockSent(to, s.hall, slot), m.clock.0);
    room::put(room, Cell::Carries(to, s.hall, slot), m.set);
    room::put(room, Cell::Waiting(to, s.hall), waiting + 1);
}

pub fn other_holder(room: &Room, h: usize, p: usize, g: usize) -> bool
    ensures { result ≡ other_holder (store room.now) h p g }
{
    h != g && servers::holds(room, g, p)
}

// "One message with these and the version clock goes to each other holder"
#[tactic(auto, using(crate::specs::Sending::sent_none, crate::specs::Sending::channel_ahead))]
fn send_to_all(room: &mut Room, s: Server, m: Message)
    requires { Outgoing (store room.old) s.hall.index s.partition.index }
    ensures { store room.new ≡ messages (store room.old) s.hall.index s.partition.index m.clock.0 m.set (store room.old) }
{
    for g in 0..HALLS_MAX {
        if other_holder(room, s.hall.index, s.partition.index, g) {
            send(room, s, Hall::new(g), m);
        }
    }
}

// 9. "Every waiting transaction with commit time at or below the version clock is installed. .. Answers the version clock and the number installed."
pub fn install(room: &mut Room, s: Server) -> Answer
    requires { AllCoordinated (store room.old) × AllTimely (store room.old) s.partition.index × Outgoing (store room.old) s.hall.index s.partition.index }
    ensures { (result ≡ Answer.Answered (version_clock (store room.old) s.hall.index s.partition.index) (number_installed (store room.old) s.hall.index s.partition.index)) × (store room.new ≡ installed_store (store room.old) s.hall.index s.partition.index) }
{
    let o = outcome_of(room, s);
    let clock = o.clock.version;
    room::stretch::install(room, s, o.clock.hybrid, clock, o.set);
    mark_installed(room, s.partition, o.set);
    if !o.quiet {
        send_to_all(room, s, Message { clock, set: o.set });
    }
    Answer::Answered(clock.0, o.number)
}

// The oldest message of the channel to server `to` from a hall.
fn oldest(room: &Room, to: Server, from: Hall) -> Message
    requires { store room.now (First to.hall.index to.partition.index from.index) < slots }
    ensures { result ≡ carried (store room.now) to.partition.index from.index to.hall.index }
{
    let slot = Slot::new(room::get(room, Cell::First(to, from)) as usize);
    Message {
        clock: Timestamp(room::get(room, Cell::ClockSent(to, from, slot))),
        set: room::get(room, Cell::Carries(to, from, slot)),
    }
}

// "Its place is free again."
fn free_place(room: &mut Room, to: Server, from: Hall)
    requires { (store room.old (First to.hall.index to.partition.index from.index) < slots) × (1 ≤ store room.old (Waiting to.hall.index to.partition.index from.index)) }
    ensures { store room.new ≡ freed (store room.old) to.partition.index from.index to.hall.index }
{
    let first = room::get(room, Cell::First(to, from));
    let waiting = room::get(room, Cell::Waiting(to, from));
    room::put(room, Cell::First(to, from), (first + 1) % SLOTS);
    room::put(room, Cell::Waiting(to, from), waiting - 1);
}

// 10. "Takes the oldest message, installs its transactions, sets the entry for the sender. Answers the clock carried and the number installed."
pub fn deliver(room: &mut Room, to: Server, from: Hall) -> Answer
    requires { (store room.old (First to.hall.index to.partition.index from.index) < slots) × (1 ≤ store room.old (Waiting to.hall.index to.partition.index from.index)) }
    ensures { (result ≡ Answer.Answered (clock_carried (store room.old) to.partition.index from.index to.hall.index) (number_carried (store room.old) to.partition.index from.index to.hall.index)) × (store room.new ≡ delivered_store (store room.old) to.partition.index from.index to.hall.index) }
{
    let m = oldest(room, to, from);
    let v = updated(vector_of(room, to), from, m.clock);
    room::stretch::deliver(room, to, v, m.set);
    free_place(room, to, from);
    Answer::Answered(m.clock.0, masks::count(m.set))
}
