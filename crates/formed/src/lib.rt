// Whether a room is well formed: "one yes or no", block by block of the book's definition.
#![tactic(auto)]

ghost use Rattle.std.specs.Prelude.{◌≡◌, ◌&&◌, eqb, leb, length};
ghost use Rattle.book.specs.Sizes.{halls_max, sessions_max, places_max};
ghost use Rattle.book.specs.Folds.{all};
ghost use Rattle.book.specs.Setup.{held_somewhere, partitions_held, good_halls, good_sessions, good_setup};
ghost use Rattle.book.specs.WellFormed.{pairs_prepared, time_bound, channel_ok, server_ok, session_ok, pair_ok, transaction_ok, well_formed};
ghost use Rattle.room.specs.Layout.{size, store};
ghost use Rattle.room.specs.Named.{cell_of};
ghost use Rattle.formed.specs.Blocks.{mask_ok, home_ok, prepared_at, entry_ok, hall_ok, most_at, shares_ok, kept_ok};

use book::{
    HALLS_MAX, Hall, KEYS_MAX, Key, MASK_MAX, PARTITIONS_MAX, PLACES_MAX, Partition, Place,
    READING_MAX, Reading, SESSIONS_MAX, SLOTS_MAX, Server, Session, Slot, State, Status, Timestamp,
};
use room::{Cell, Room, SIZE};

// A set of keys is below it.
const KEY_SETS: u64 = 1 << KEYS_MAX;

// Whether some hall that is there has p's bit in its mask.
fn held_somewhere(room: &Room, p: usize) -> bool
    ensures { result ≡ held_somewhere (store room.now) p }
{
    let halls = room::get(room, Cell::Halls);
    (0..HALLS_MAX).any(|h| {
        (h as u64) < halls && masks::has(room::get(room, Cell::Mask(Hall::new(h))), p as u64)
    })
}

// "N is one more than the highest partition held."
pub fn partitions_held(room: &Room) -> u64
    ensures { result ≡ partitions_held (store room.now) }
{
    (0..PARTITIONS_MAX)
        .filter(|&p| held_somewhere(room, p))
        .map(|p| p as u64 + 1)
        .max()
        .unwrap_or(0)
}

// "Each mask is 1 to 15"
fn masks_ok(room: &Room) -> bool
    ensures { result ≡ all halls_max (mask_ok (store room.now)) }
{
    let halls = room::get(room, Cell::Halls);
    (0..HALLS_MAX).all(|h| {
        let mask = room::get(room, Cell::Mask(Hall::new(h)));
        halls <= h as u64 || (1 <= mask && mask <= MASK_MAX)
    })
}

fn good_halls(room: &Room) -> bool
    ensures { result ≡ good_halls (store room.now) }
{
    let halls = room::get(room, Cell::Halls);
    let partitions = room::get(room, Cell::Partitions);
    // "each partition below N is held by some hall"
    1 <= halls
        && halls <= HALLS_MAX as u64
        && masks_ok(room)
        && partitions == partitions_held(room)
        && (0..PARTITIONS_MAX).all(|p| partitions <= p as u64 || held_somewhere(room, p))
}

// "Each session has a home server"
fn home_ok(room: &Room, s: Session) -> bool
    ensures { result ≡ home_ok (store room.now) s.index }
{
    if room::get(room, Cell::Sessions) <= s.index as u64 {
        return true;
    }
    let hall = room::get(room, Cell::HomeHall(s));
    let partition = room::get(room, Cell::HomePartition(s));
    servers::holds(room, hall as usize, partition as usize)
}

fn good_sessions(room: &Room) -> bool
    ensures { result ≡ good_sessions (store room.now) }
{
    let sessions = room::get(room, Cell::Sessions);
    1 <= sessions
        && sessions <= SESSIONS_MAX as u64
        && (0..SESSIONS_MAX).all(|s| home_ok(room, Session::new(s)))
}

// Whether halls and sessions keep the rules of setup.
pub fn good_setup(room: &Room) -> bool
    ensures { result ≡ good_setup (store room.now) }
{
    good_halls(room) && good_sessions(room)
}

fn prepared_at(room: &Room, t: Place) -> u64
    ensures { result ≡ prepared_at (store room.now) t.index }
{
    (0..PARTITIONS_MAX)
        .map(|p| {
            u64::from(State::Prepared as u64 <= room::get(room, Cell::State(t, Partition::new(p))))
        })
        .sum()
}

fn pairs_prepared(room: &Room) -> u64
    ensures { result ≡ pairs_prepared (store room.now) }
{
    (0..PLACES_MAX)
        .map(|t| prepared_at(room, Place::new(t)))
        .sum()
}

// What no timestamp of the room may pass.
fn time_bound(room: &Room) -> Timestamp
    ensures { result ≡ record { 0 = time_bound (store room.now) } }
{
    Timestamp(Timestamp::from(Reading(READING_MAX)).0 + pairs_prepared(room))
}

// A room, and what none of its timestamps may pass.
#[derive(Clone, Copy)]
struct Judge<'a> {
    room: &'a Room,
    latest: Timestamp,
}

impl Judge<'_> {
    // Inlined, so that the word of a cell is worked out where the code is made.
    #[inline(always)]
    fn get(self, c: Cell) -> u64
        ensures { result ≡ store self.entry.room.now (cell_of c) }
    {
        room::get(self.room, c)
    }

    #[inline(always)]
    fn in_time(self, c: Cell) -> bool
        ensures { result ≡ leb (store self.entry.room.now (cell_of c)) self.entry.latest.0 }
    {
        Timestamp(self.get(c)) <= self.latest
    }

    // The channel to server s from hall f: two counts, and its messages' clocks.
    fn channel_ok(self, s: Server, f: Hall) -> bool
        ensures { result ≡ channel_ok (store self.entry.room.now) self.entry.latest.0 s.hall.index s.partition.index f.index }
    {
        self.get(Cell::First(s, f)) < SLOTS_MAX as u64
            && self.get(Cell::Waiting(s, f)) <= SLOTS_MAX as u64
            && (0..SLOTS_MAX).all(|n| self.in_time(Cell::ClockSent(s, f, Slot::new(n))))
    }

    // What server s knows of hall g, and its channel from there.
    fn entry_ok(self, s: Server, g: Hall) -> bool
        ensures { result ≡ entry_ok (store self.entry.room.now) self.entry.latest.0 s.hall.index s.partition.index g.index }
    {
        self.in_time(Cell::Entry(s, g)) && self.channel_ok(s, g)
    }

    fn server_ok(self, s: Server) -> bool
        ensures { result ≡ server_ok (store self.entry.room.now) self.entry.latest.0 s.hall.index s.partition.index }
    {
        self.get(Cell::Reading(s)) <= READING_MAX
            && self.in_time(Cell::Hybrid(s))
            && self.in_time(Cell::Stable(s))
            && self.in_time(Cell::Note(s))
            && (0..HALLS_MAX).all(|g| self.entry_ok(s, Hall::new(g)))
    }

    fn session_ok(self, s: Session) -> bool
        ensures { result ≡ session_ok (store self.entry.room.now) self.entry.latest.0 s.index }
    {
        self.get(Cell::Status(s)) <= Status::Committing as u64
            && self.in_time(Cell::Snapshot(s))
            && self.in_time(Cell::LastCommit(s))
            && self.get(Cell::WriteSet(s)) < KEY_SETS
            && self.get(Cell::ReadSet(s)) < KEY_SETS
            && (0..KEYS_MAX).all(|k| self.in_time(Cell::CacheTime(s, Key::new(k))))
    }

    // The most that place t may have where a transaction at it may have `most`: one that no transaction has yet has nothing.
    fn most_at(self, t: Place, most: u64) -> u64
        ensures { result ≡ most_at (store self.entry.room.now) t.index most }
    {
        if (t.index as u64) < self.get(Cell::Transactions) {
            most
        } else {
            0
        }
    }

    fn pair_ok(self, t: Place, p: Partition) -> bool
        ensures { result ≡ pair_ok (store self.entry.room.now) self.entry.latest.0 t.index p.index }
    {
        let state = self.get(Cell::State(t, p));
        let proposed = self.get(Cell::Proposed(t, p));
        state <= self.most_at(t, State::Installed as u64)
            && proposed <= self.latest.0
            && (state != State::Prepared as u64 || 1 <= proposed)
    }

    fn transaction_ok(self, t: Place) -> bool
        ensures { result ≡ transaction_ok (store self.entry.room.now) self.entry.latest.0 t.index }
    {
        self.get(Cell::By(t)) < self.get(Cell::Sessions)
            && self.get(Cell::From(t)) < self.get(Cell::Halls)
            && self.get(Cell::CommitTime(t)) <= self.most_at(t, self.latest.0)
            && self.get(Cell::KeySet(t)) < KEY_SETS
            && (0..PARTITIONS_MAX).all(|p| self.pair_ok(t, Partition::new(p)))
    }

    fn hall_ok(self, h: Hall) -> bool
        ensures { result ≡ hall_ok (store self.entry.room.now) self.entry.latest.0 h.index }
    {
        (0..PARTITIONS_MAX).all(|p| {
            self.server_ok(Server {
                hall: h,
                partition: Partition::new(p),
            })
        })
    }

    fn servers_ok(self) -> bool
        ensures { result ≡ all halls_max (hall_ok (store self.entry.room.now) self.entry.latest.0) }
    {
        (0..HALLS_MAX).all(|h| self.hall_ok(Hall::new(h)))
    }

    fn sessions_ok(self) -> bool
        ensures { result ≡ all sessions_max (session_ok (store self.entry.room.now) self.entry.latest.0) }
    {
        (0..SESSIONS_MAX).all(|s| self.session_ok(Session::new(s)))
    }

    fn transactions_ok(self) -> bool
        ensures { result ≡ all places_max (transaction_ok (store self.entry.room.now) self.entry.latest.0) }
    {
        (0..PLACES_MAX).all(|t| self.transaction_ok(Place::new(t)))
    }

    // What hall `to` noted of each hall.
    fn notes_ok(self, to: Hall) -> bool
        ensures { result ≡ shares_ok (store self.entry.room.now) self.entry.latest.0 to.index }
    {
        (0..HALLS_MAX).all(|f| self.in_time(Cell::Shared(to, Hall::new(f))))
    }

    fn shares_ok(self) -> bool
        ensures { result ≡ all halls_max (shares_ok (store self.entry.room.now) self.entry.latest.0) }
    {
        (0..HALLS_MAX).all(|to| self.notes_ok(Hall::new(to)))
    }

    // Whether each block of the room is in its bounds, and no timestamp passes `latest`.
    fn kept_ok(self) -> bool
        ensures { result ≡ kept_ok (store self.entry.room.now) self.entry.latest.0 }
    {
        self.servers_ok() && self.sessions_ok() && self.transactions_ok() && self.shares_ok()
    }
}

#[tactic(auto, unfolding(book::specs::WellFormed::well_formed))]
fn good_room(room: &Room) -> bool
    ensures { result ≡ well_formed (store room.now) }
{
    if !good_setup(room) || room::get(room, Cell::Transactions) > PLACES_MAX as u64 {
        return false;
    }
    let latest = time_bound(room);
    Judge { room, latest }.kept_ok()
}

// "docs/ defines that by one yes or no, true of every room reached from setup"
pub fn well_formed(room: &[u64]) -> bool
    ensures { result ≡ (eqb (length room.now) size && well_formed (store room.now)) }
{
    room.as_array::<SIZE>().is_some_and(good_room)
}
