// "Turned away": each step from its numbers, or the first refusal that applies. The numbers are any.
#![tactic(auto)]

ghost use Rattle.std.specs.Prelude.{ℕ, ◌≡◌, ◌<◌, ◌≤◌, ⊤, ltb};
ghost use Rattle.book.specs.Sizes.{halls_max, partitions_max, keys};
ghost use Rattle.book.specs.Cells.{Halls, Partitions};
ghost use Rattle.book.specs.Folds.{any};
ghost use Rattle.book.specs.Servers.{holds, number_of};
ghost use Rattle.book.specs.Refusals.{tick_refusal, start_refusal, read_refusal, write_refusal, end_refusal, prepare_refusal, decide_refusal, commit_refusal, install_refusal, deliver_refusal, server_refusal, share_refusal, move_refusal, session_there, transaction_there, unused, all_prepared};
ghost use Rattle.room.specs.Layout.{store};
ghost use Rattle.ladders.specs.Sized.{Sized};
ghost use Rattle.replication.specs.Safe.{AllCoordinated, AllTimely};
ghost use Rattle.ladders.specs.Full.{full_to};
ghost use Rattle.ladders.specs.Checked.{Found, Laddered, Checked};

mod sized;

use book::{
    Below, HALLS_MAX, Hall, KEYS_MAX, Key, PARTITIONS_MAX, PLACES_MAX, Partition, Place,
    READING_MAX, Reading, Refusal, SLOTS_MAX, Server, Session, State, Status, Step, TxNumber,
    VALUE_MAX,
};
use room::{Cell, Room};
use servers::place_of;
pub use sized::SizedRoom;

// One of the first `count`.
fn below<const N: usize>(x: u64, count: u64) -> Result<Below<N>, Refusal>
    requires { count ≤ N }
    ensures { Found (ltb x count) (λ y. y.index ≡ x) result }
{
    if x < count {
        Ok(Below::new(x as usize))
    } else {
        Err(Refusal::NotThere)
    }
}

fn session(room: &SizedRoom, s: u64) -> Result<Session, Refusal>
    ensures { Found (session_there (store room.now) s) (λ x. x.index ≡ s) result }
{
    below(s, room.get(Cell::Sessions))
}

fn server(room: &SizedRoom, h: u64, p: u64) -> Result<Server, Refusal>
    ensures { Found (holds (store room.now) h p) (λ x. (x.hall.index ≡ h) × (x.partition.index ≡ p)) result }
{
    if servers::holds(room.words(), h as usize, p as usize) {
        Ok(Server::new(h as usize, p as usize))
    } else {
        Err(Refusal::NotThere)
    }
}

fn hall(room: &SizedRoom, h: u64) -> Result<Hall, Refusal>
    ensures { Found (ltb h (store room.now Halls)) (λ x. x.index ≡ h) result }
{
    below(h, room.get(Cell::Halls))
}

fn place(room: &SizedRoom, n: TxNumber) -> Result<Place, Refusal>
    ensures { Found (transaction_there (store room.now) n.0) (λ x. number_of x.index ≡ n.0) result }
{
    if 1 <= n.0 && n.0 <= room.get(Cell::Transactions) {
        Ok(place_of(n))
    } else {
        Err(Refusal::NotThere)
    }
}

fn partition(room: &SizedRoom, p: u64) -> Result<Partition, Refusal>
    ensures { Found (ltb p (store room.now Partitions)) (λ x. x.index ≡ p) result }
{
    below(p, room.get(Cell::Partitions))
}

fn key(k: u64) -> Result<Key, Refusal>
    ensures { Found (ltb k keys) (λ x. x.index ≡ k) result }
{
    below(k, KEYS_MAX as u64)
}

fn unused(z: u64) -> Result<(), Refusal>
    ensures { Found (unused z) (λ _. ⊤) result }
{
    if z == 0 {
        Ok(())
    } else {
        Err(Refusal::NotThere)
    }
}

pub fn tick(room: &SizedRoom, h: u64, p: u64, x: Reading) -> Result<Step, Refusal>
    ensures { Laddered (tick_refusal (store room.now) h p x.0) (1, h, p, x.0) result }
{
    let s = server(room, h, p)?;
    if x > Reading(READING_MAX) {
        return Err(Refusal::ReadingTooLarge);
    }
    if x < Reading(room.get(Cell::Reading(s))) {
        return Err(Refusal::ReadingBelowLast);
    }
    Ok(Step::Tick(s, x))
}

pub fn start(room: &SizedRoom, s: u64, y: u64, z: u64) -> Result<Step, Refusal>
    ensures { Laddered (start_refusal (store room.now) s y z) (2, s, y, z) result }
{
    let s = session(room, s)?;
    unused(y)?;
    unused(z)?;
    if room.get(Cell::Status(s)) != Status::Idle as u64 {
        return Err(Refusal::NotIdle);
    }
    Ok(Step::Start(s))
}

pub fn read(room: &SizedRoom, s: u64, k: u64, h: u64) -> Result<Step, Refusal>
    ensures { Laddered (read_refusal (store room.now) s k h) (3, s, k, h) result }
{
    let s = session(room, s)?;
    let p = k % room.get(Cell::Partitions);
    let k = key(k)?;
    let holder = server(room, h, p)?;
    if room.get(Cell::Status(s)) != Status::Running as u64 {
        return Err(Refusal::NotRunning);
    }
    Ok(Step::Read(s, k, holder.hall))
}

pub fn write(room: &SizedRoom, s: u64, k: u64, v: u64) -> Result<Step, Refusal>
    ensures { Laddered (write_refusal (store room.now) s k v) (4, s, k, v) result }
{
    let s = session(room, s)?;
    let k = key(k)?;
    if v > VALUE_MAX {
        return Err(Refusal::ValueTooLarge);
    }
    if room.get(Cell::Status(s)) != Status::Running as u64 {
        return Err(Refusal::NotRunning);
    }
    Ok(Step::Write(s, k, v))
}

pub fn end(room: &SizedRoom, s: u64, y: u64, z: u64) -> Result<Step, Refusal>
    ensures { Laddered (end_refusal (store room.now) s y z) (5, s, y, z) result }
{
    let s = session(room, s)?;
    unused(y)?;
    unused(z)?;
    if room.get(Cell::Status(s)) != Status::Running as u64 {
        return Err(Refusal::NotRunning);
    }
    let wrote = room.get(Cell::WriteSet(s)) != 0;
    if wrote && room.get(Cell::Transactions) >= PLACES_MAX as u64 {
        return Err(Refusal::NoPlaceLeft);
    }
    Ok(Step::End(s))
}

pub fn prepare(room: &SizedRoom, n: TxNumber, p: u64, z: u64) -> Result<Step, Refusal>
    ensures { Laddered (prepare_refusal (store room.now) n.0 p z) (6, n.0, p, z) result }
{
    let t = place(room, n)?;
    let p = partition(room, p)?;
    unused(z)?;
    if room.get(Cell::State(t, p)) != State::Asked as u64 {
        return Err(Refusal::WrongState);
    }
    Ok(Step::Prepare(t, p))
}

fn all_prepared(room: &SizedRoom, t: Place) -> bool
    ensures { result ≡ all_prepared (store room.now) t.index }
{
    (0..PARTITIONS_MAX).all(|p| {
        let state = room.get(Cell::State(t, Partition::new(p)));
        state == State::Unwritten as u64 || state == State::Prepared as u64
    })
}

pub fn decide(room: &SizedRoom, n: TxNumber, y: u64, z: u64) -> Result<Step, Refusal>
    ensures { Laddered (decide_refusal (store room.now) n.0 y z) (7, n.0, y, z) result }
{
    let t = place(room, n)?;
    unused(y)?;
    unused(z)?;
    if !all_prepared(room, t) || room.get(Cell::CommitTime(t)) != 0 {
        return Err(Refusal::WrongState);
    }
    Ok(Step::Decide(t))
}

pub fn commit(room: &SizedRoom, n: TxNumber, p: u64, z: u64) -> Result<Step, Refusal>
    ensures { Laddered (commit_refusal (store room.now) n.0 p z) (8, n.0, p, z) result }
{
    let t = place(room, n)?;
    let p = partition(room, p)?;
    unused(z)?;
    let decided = room.get(Cell::CommitTime(t)) != 0;
    if !decided || room.get(Cell::State(t, p)) != State::Prepared as u64 {
        return Err(Refusal::WrongState);
    }
    Ok(Step::Commit(t, p))
}

// The channel from s to some hall holds all the messages that it can.
fn channel_full(room: &SizedRoom, s: Server) -> bool
    ensures { result ≡ any halls_max (full_to (store room.now) s.hall.index s.partition.index) }
{
    (0..HALLS_MAX).any(|g| {
        let to = Server {
            hall: Hall::new(g),
            partition: s.partition,
        };
        replication::other_holder(room.words(), s.hall.index, s.partition.index, g)
            && room.get(Cell::Waiting(to, s.hall)) >= SLOTS_MAX as u64
    })
}

#[tactic(auto, using(crate::specs::Full::asked_once))]
pub fn install(room: &SizedRoom, h: u64, p: u64, z: u64) -> Result<Step, Refusal>
    requires { AllCoordinated (store room.now) × ((q : ℕ) → q < partitions_max → AllTimely (store room.now) q) }
    ensures { Laddered (install_refusal (store room.now) h p z) (9, h, p, z) result }
{
    let s = server(room, h, p)?;
    unused(z)?;
    // first what costs little: whether the install is quiet is asked only where a channel is full
    if channel_full(room, s) && !replication::is_quiet(room.words(), s) {
        return Err(Refusal::ChannelFull);
    }
    Ok(Step::Install(s))
}

pub fn deliver(room: &SizedRoom, p: u64, f: u64, g: u64) -> Result<Step, Refusal>
    ensures { Laddered (deliver_refusal (store room.now) p f g) (10, p, f, g) result }
{
    let from = server(room, f, p)?;
    let to = server(room, g, p)?;
    if f == g {
        return Err(Refusal::NotThere);
    }
    if room.get(Cell::Waiting(to, from.hall)) == 0 {
        return Err(Refusal::ChannelEmpty);
    }
    Ok(Step::Deliver(to, from.hall))
}

pub fn report(room: &SizedRoom, h: u64, p: u64, z: u64) -> Result<Step, Refusal>
    ensures { Laddered (server_refusal (store room.now) h p z) (11, h, p, z) result }
{
    let s = server(room, h, p)?;
    unused(z)?;
    Ok(Step::Report(s))
}

pub fn share(room: &SizedRoom, f: u64, h: u64, z: u64) -> Result<Step, Refusal>
    ensures { Laddered (share_refusal (store room.now) f h z) (12, f, h, z) result }
{
    let from = hall(room, f)?;
    let to = hall(room, h)?;
    unused(z)?;
    Ok(Step::Share(from, to))
}

// kept: as report is, since one for both would take the step's name and its code, and be no shorter
pub fn learn(room: &SizedRoom, h: u64, p: u64, z: u64) -> Result<Step, Refusal>
    ensures { Laddered (server_refusal (store room.now) h p z) (13, h, p, z) result }
{
    let s = server(room, h, p)?;
    unused(z)?;
    Ok(Step::Learn(s))
}

pub fn move_session(room: &SizedRoom, s: u64, h: u64, p: u64) -> Result<Step, Refusal>
    ensures { Laddered (move_refusal (store room.now) s h p) (14, s, h, p) result }
{
    let s = session(room, s)?;
    let to = server(room, h, p)?;
    if room.get(Cell::Status(s)) != Status::Idle as u64 {
        return Err(Refusal::NotIdle);
    }
    Ok(Step::Move(s, to))
}

// The step that these numbers name, or why it is turned away.
#[tactic(auto, using(crate::specs::Unknown::unknown), unfolding(book::specs::Steps::refusal, book::specs::Steps::rule_of))]
pub fn checked(room: &Room, code: u64, a: u64, b: u64, c: u64) -> Result<Step, Refusal>
    requires { Sized (store room.now) × AllCoordinated (store room.now) × ((q : ℕ) → q < partitions_max → AllTimely (store room.now) q) }
    ensures { Checked (store room.now) code a b c result }
{
    let room = &SizedRoom::new(room);
    // kept: codes as numbers, since they come from outside; here they become steps
    match code {
        1 => tick(room, a, b, Reading(c)),
        2 => start(room, a, b, c),
        3 => read(room, a, b, c),
        4 => write(room, a, b, c),
        5 => end(room, a, b, c),
        6 => prepare(room, TxNumber(a), b, c),
        7 => decide(room, TxNumber(a), b, c),
        8 => commit(room, TxNumber(a), b, c),
        9 => install(room, a, b, c),
        10 => deliver(room, a, b, c),
        11 => report(room, a, b, c),
        12 => share(room, a, b, c),
        13 => learn(room, a, b, c),
        14 => move_session(room, a, b, c),
        _ => Err(Refusal::NotThere),
    }
}
