// "Views and merging": what a server knows of a key.
#![tactic(auto)]

ghost use Rattle.std.specs.Prelude.{◌≡◌, ◌&&◌};
ghost use Rattle.book.specs.Servers.{partition_of, number_of};
ghost use Rattle.book.specs.Views.{later as is_later, merge as merged, version, versions_of, wrote_by, held_view};
ghost use Rattle.room.specs.Layout.{store};
ghost use Rattle.views.specs.Partitions.{Parted};
ghost use Rattle.views.specs.Merging.{HasPartition};

use book::{Hall, Key, PLACES_MAX, Partition, Place, Server, Stamp, Timestamp, TxNumber, View};
use room::{Cell, Room};

// "A later stamp wins, compared in that order"
pub fn later(s: Stamp, t: Stamp) -> bool
    ensures { result ≡ is_later s t }
{
    s > t
}

// "Of two views with equal stamps the first is kept."
pub fn merge(a: View, b: View) -> View
    ensures { result ≡ merged a b }
{
    match (a, b) {
        (View::Nothing, _) => b,
        (View::Seen(_, s), View::Seen(_, t)) if later(t, s) => b,
        _ => a,
    }
}

// "key k in partition k mod N"
pub fn partition_of(room: &Room, k: usize) -> Partition
    requires { Parted (store room.now) }
    ensures { result.index ≡ partition_of (store room.now) k }
{
    Partition::new(k % (room::get(room, Cell::Partitions) as usize))
}

// "transaction number (1, 2, .. in order of request)"
pub fn number_of(t: Place) -> TxNumber
    ensures { result.0 ≡ number_of t.index }
{
    TxNumber(t.index as u64 + 1)
}

// What the transaction at place t wrote to key k: "a value with its stamp".
pub fn version_at(room: &Room, k: Key, t: Place) -> View
    ensures { result ≡ version (store room.now) k.index t.index }
{
    let value = room::get(room, Cell::Value(t, k));
    let time = Timestamp(room::get(room, Cell::CommitTime(t)));
    let hall = room::get(room, Cell::From(t));
    let number = number_of(t);
    View::Seen(value, Stamp { time, hall, number })
}

// Server s, of key k's partition, holds what the transaction at place t wrote to it, at or below S.
fn visible(room: &Room, s: Server, k: Key, snapshot: Timestamp, t: Place) -> bool
    requires { HasPartition room.now s.partition.index k.index }
    ensures { result ≡ (versions_of (store room.now) s.hall.index k.index t.index && wrote_by (store room.now) k.index snapshot.0 t.index) }
{
    room::get(room, Cell::Held(s, t)) == 1
        && masks::has(room::get(room, Cell::KeySet(t)), k.index as u64)
        && Timestamp(room::get(room, Cell::CommitTime(t))) <= snapshot
}

// What hall h's server knows of key k at S.
pub fn held_view(room: &Room, h: Hall, k: Key, snapshot: Timestamp) -> View
    requires { Parted (store room.now) }
    ensures { result ≡ held_view (store room.now) h.index k.index snapshot.0 }
{
    let server = Server {
        hall: h,
        partition: partition_of(room, k.index),
    };
    let mut view = View::Nothing;
    for t in 0..PLACES_MAX {
        let place = Place::new(t);
        if visible(room, server, k, snapshot, place) {
            view = merge(view, version_at(room, k, place));
        }
    }
    view
}
