// "a version vector with one entry per hall holding its partition", by value.
#![tactic(auto)]

ghost use Rattle.std.specs.Prelude.{◌≡◌};
ghost use Rattle.room.specs.Layout.{store};
ghost use Rattle.vectors.specs.Vectors.{vector_of, lowest_time, updated_at};

use book::{HALLS_MAX, Hall, Server, Timestamp, Vector};
use room::{Cell, Room};

pub fn vector_of(room: &Room, s: Server) -> Vector
    ensures { result ≡ vector_of (store room.now) s.hall.index s.partition.index }
{
    // kept: by its number, since a hall's number names its entry too; `array::from_fn` was tried, and its proof did not close
    let mut times = [Timestamp(0); HALLS_MAX];
    for f in 0..HALLS_MAX {
        times[f] = Timestamp(room::get(room, Cell::Entry(s, Hall::new(f))));
    }
    Vector {
        times,
        holders: servers::holders(room, s.partition.index),
    }
}

pub fn lowest(v: Vector) -> Timestamp
    ensures { result.0 ≡ lowest_time v }
{
    (0..HALLS_MAX)
        .filter(|&g| masks::has(v.holders, g as u64))
        .map(|g| v.times[g])
        .min()
        .unwrap_or(Timestamp(0))
}

pub fn updated(mut v: Vector, f: Hall, x: Timestamp) -> Vector
    ensures { result ≡ updated_at v f.index x }
{
    v.times[f.index] = x;
    v
}
