// The lent room: a word for each cell of the book, read and written by the cell's name.
#![tactic(auto)]

ghost use Rattle.std.specs.Prelude.{◌≡◌, ◌<◌};
ghost use Rattle.book.specs.Cells.{◌⟨◌≔◌⟩};
ghost use Rattle.room.specs.Layout.{size, at, store};
ghost use Rattle.room.specs.Named.{cell_of};

use book::{
    HALLS_MAX, Hall, KEYS_MAX, Key, PARTITIONS_MAX, PLACES_MAX, Partition, Place, SESSIONS_MAX,
    SLOTS_MAX, Server, Session, Slot,
};

pub mod stretch;

// The cells, as the book names them.
#[derive(Clone, Copy)]
pub enum Cell {
    Halls,
    Partitions,
    Sessions,
    Transactions,
    Mask(Hall),
    Reading(Server),
    Hybrid(Server),
    Stable(Server),
    Entry(Server, Hall),
    Held(Server, Place),
    HomeHall(Session),
    HomePartition(Session),
    Status(Session),
    Snapshot(Session),
    LastCommit(Session),
    WriteSet(Session),
    ReadSet(Session),
    WriteValue(Session, Key),
    ReadValue(Session, Key),
    CacheValue(Session, Key),
    CacheTime(Session, Key),
    By(Place),
    From(Place),
    CommitTime(Place),
    KeySet(Place),
    Value(Place, Key),
    State(Place, Partition),
    Proposed(Place, Partition),
    First(Server, Hall),
    Waiting(Server, Hall),
    ClockSent(Server, Hall, Slot),
    Carries(Server, Hall, Slot),
    Note(Server),
    Shared(Hall, Hall),
}

// The words of the setup, of a server, a session, a transaction and a channel.
const SETUP_WORDS: usize = 4 + HALLS_MAX;

const SERVER_WORDS: usize = 3 + HALLS_MAX + PLACES_MAX;

const SESSION_WORDS: usize = 7 + 4 * KEYS_MAX;

const TRANSACTION_WORDS: usize = 4 + KEYS_MAX + 2 * PARTITIONS_MAX;

const CHANNEL_WORDS: usize = 2 + 2 * SLOTS_MAX;

// The words of a hall's servers, of the channels to a server, and of those to a hall's servers.
const HALL_WORDS: usize = PARTITIONS_MAX * SERVER_WORDS;

const INBOX_WORDS: usize = HALLS_MAX * CHANNEL_WORDS;

const HALL_INBOX_WORDS: usize = PARTITIONS_MAX * INBOX_WORDS;

// The first word of the servers, the sessions, the transactions, the channels and the notes.
const SERVERS_AT: usize = SETUP_WORDS;

const SESSIONS_AT: usize = SERVERS_AT + HALLS_MAX * HALL_WORDS;

const TRANSACTIONS_AT: usize = SESSIONS_AT + SESSIONS_MAX * SESSION_WORDS;

const CHANNELS_AT: usize = TRANSACTIONS_AT + PLACES_MAX * TRANSACTION_WORDS;

const NOTES_AT: usize = CHANNELS_AT + HALLS_MAX * HALL_INBOX_WORDS;

const SHARED_AT: usize = NOTES_AT + HALLS_MAX * PARTITIONS_MAX;

// Where its hybrid clock, its entries and what it holds stand in a server's words.
const HYBRID_AT: usize = 1;

const ENTRIES_AT: usize = 3;

const HELD_AT: usize = ENTRIES_AT + HALLS_MAX;

// The words of a room.
pub const SIZE: usize = SHARED_AT + HALLS_MAX * HALLS_MAX;

// A room is its words: their number is in the type.
pub type Room = [u64; SIZE];

// The first word of a server, of a session, of a transaction, and of the channel to a server from a hall.
#[inline(always)]
fn server_at(s: Server) -> usize
    ensures { result ≡ at (cell_of (Cell.Reading s)) }
{
    SERVERS_AT + s.hall.index * HALL_WORDS + s.partition.index * SERVER_WORDS
}

#[inline(always)]
fn session_at(s: Session) -> usize
    ensures { result ≡ at (cell_of (Cell.HomeHall s)) }
{
    SESSIONS_AT + s.index * SESSION_WORDS
}

#[inline(always)]
fn transaction_at(t: Place) -> usize
    ensures { result ≡ at (cell_of (Cell.By t)) }
{
    TRANSACTIONS_AT + t.index * TRANSACTION_WORDS
}

#[inline(always)]
fn channel_at(s: Server, f: Hall) -> usize
    ensures { result ≡ at (cell_of (Cell.First s f)) }
{
    CHANNELS_AT
        + s.hall.index * HALL_INBOX_WORDS
        + s.partition.index * INBOX_WORDS
        + f.index * CHANNEL_WORDS
}

// inlined always: at a cell that the caller names nothing is left of the match
#[inline(always)]
fn word_of(c: Cell) -> usize
    ensures { (result ≡ at (cell_of c)) × (result < size) }
{
    match c {
        Cell::Halls => 0,
        Cell::Partitions => 1,
        Cell::Sessions => 2,
        Cell::Transactions => 3,
        Cell::Mask(h) => 4 + h.index,
        Cell::Reading(s) => server_at(s),
        Cell::Hybrid(s) => server_at(s) + HYBRID_AT,
        Cell::Stable(s) => server_at(s) + 2,
        Cell::Entry(s, g) => server_at(s) + ENTRIES_AT + g.index,
        Cell::Held(s, t) => server_at(s) + HELD_AT + t.index,
        Cell::HomeHall(s) => session_at(s),
        Cell::HomePartition(s) => session_at(s) + 1,
        Cell::Status(s) => session_at(s) + 2,
        Cell::Snapshot(s) => session_at(s) + 3,
        Cell::LastCommit(s) => session_at(s) + 4,
        Cell::WriteSet(s) => session_at(s) + 5,
        Cell::ReadSet(s) => session_at(s) + 6,
        Cell::WriteValue(s, k) => session_at(s) + 7 + k.index,
        Cell::ReadValue(s, k) => session_at(s) + 7 + KEYS_MAX + k.index,
        Cell::CacheValue(s, k) => session_at(s) + 7 + 2 * KEYS_MAX + k.index,
        Cell::CacheTime(s, k) => session_at(s) + 7 + 3 * KEYS_MAX + k.index,
        Cell::By(t) => transaction_at(t),
        Cell::From(t) => transaction_at(t) + 1,
        Cell::CommitTime(t) => transaction_at(t) + 2,
        Cell::KeySet(t) => transaction_at(t) + 3,
        Cell::Value(t, k) => transaction_at(t) + 4 + k.index,
        Cell::State(t, p) => transaction_at(t) + 4 + KEYS_MAX + p.index,
        Cell::Proposed(t, p) => transaction_at(t) + 4 + KEYS_MAX + PARTITIONS_MAX + p.index,
        Cell::First(s, f) => channel_at(s, f),
        Cell::Waiting(s, f) => channel_at(s, f) + 1,
        Cell::ClockSent(s, f, n) => channel_at(s, f) + 2 + n.index,
        Cell::Carries(s, f, n) => channel_at(s, f) + 2 + SLOTS_MAX + n.index,
        Cell::Note(s) => NOTES_AT + s.hall.index * PARTITIONS_MAX + s.partition.index,
        Cell::Shared(h, f) => SHARED_AT + h.index * HALLS_MAX + f.index,
    }
}

#[inline(always)]
pub fn get(room: &Room, c: Cell) -> u64
    ensures { result ≡ store room.now (cell_of c) }
{
    room[word_of(c)]
}

#[inline(always)]
pub fn put(room: &mut Room, c: Cell, v: u64)
    ensures { store room.new ≡ store room.old ⟨ cell_of c ≔ v ⟩ }
{
    room[word_of(c)] = v;
}
