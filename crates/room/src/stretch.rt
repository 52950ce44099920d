// A server's stretch of the room, lent on: its reading, hybrid clock and stable time, an entry for each hall, and what it holds of each transaction.
ghost use Rattle.std.specs.Prelude.{◌≡◌, cond, length};
ghost use Rattle.book.specs.Cells.{Hybrid, Entry, Held, ◌⟨◌≔◌⟩};
ghost use Rattle.room.specs.Layout.{store, stretch};
ghost use Rattle.room.specs.Stretch.{Changed, held_all, with_entries};

use crate::{ENTRIES_AT, HELD_AT, HYBRID_AT, Room, SERVER_WORDS, server_at};
use book::{HALLS_MAX, Hall, PLACES_MAX, Place, Server, Timestamp, Vector};

// Its words: their number is in the type.
pub type Stretch = [u64; SERVER_WORDS];

fn set_hybrid(part: &mut Stretch, x: Timestamp)
    ensures { Changed (λ h p σ. σ ⟨ Hybrid h p ≔ x.0 ⟩) part.old part.new }
{
    part[HYBRID_AT] = x.0;
}

fn set_entry(part: &mut Stretch, g: Hall, x: Timestamp)
    ensures { Changed (λ h p σ. σ ⟨ Entry h p g.index ≔ x.0 ⟩) part.old part.new }
{
    part[ENTRIES_AT + g.index] = x.0;
}

fn set_entries(part: &mut Stretch, v: Vector)
    ensures { Changed (with_entries v) part.old part.new }
{
    // kept: by its number, since a hall's number names its entry too
    let times = v.times;
    for g in 0..HALLS_MAX {
        set_entry(part, Hall::new(g), times[g]);
    }
}

fn hold_if(part: &mut Stretch, test: bool, t: Place)
    ensures { Changed (λ h p σ. σ ⟨ Held h p t.index ≔ cond test 1 (σ (Held h p t.index)) ⟩) part.old part.new }
{
    if test {
        part[HELD_AT + t.index] = 1;
    }
}

fn hold_all(part: &mut Stretch, set: u64)
    ensures { Changed (held_all set) part.old part.new }
{
    for t in 0..PLACES_MAX {
        hold_if(part, masks::has(set, t as u64), Place::new(t));
    }
}

// What an install writes to its server's stretch.
// kept: a slice, since of an array made of a part of the room nothing is told once it is back.
pub fn install_at(part: &mut [u64], g: Hall, hybrid: Timestamp, version: Timestamp, set: u64)
    requires { length part.old ≡ stretch }
    ensures { Changed (λ h p σ. held_all set h p (σ ⟨ Hybrid h p ≔ hybrid.0 ⟩ ⟨ Entry h p g.index ≔ version.0 ⟩)) part.old part.new }
{
    if let Some(part) = part.as_mut_array() {
        set_hybrid(part, hybrid);
        set_entry(part, g, version);
        hold_all(part, set);
    }
}

// What a delivery writes to its server's stretch: the vector that comes of it.
pub fn deliver_at(part: &mut [u64], v: Vector, set: u64)
    requires { length part.old ≡ stretch }
    ensures { Changed (λ h p σ. held_all set h p (with_entries v h p σ)) part.old part.new }
{
    if let Some(part) = part.as_mut_array() {
        set_entries(part, v);
        hold_all(part, set);
    }
}

// The two, of server s, whose stretch is lent on.
pub fn install(room: &mut Room, s: Server, hybrid: Timestamp, version: Timestamp, set: u64)
    ensures { store room.new ≡ held_all set s.hall.index s.partition.index (store room.old ⟨ Hybrid s.hall.index s.partition.index ≔ hybrid.0 ⟩ ⟨ Entry s.hall.index s.partition.index s.hall.index ≔ version.0 ⟩) }
{
    let a = server_at(s);
    let e = a + SERVER_WORDS;
    install_at(&mut room[a..e], s.hall, hybrid, version, set);
}

pub fn deliver(room: &mut Room, s: Server, v: Vector, set: u64)
    ensures { store room.new ≡ held_all set s.hall.index s.partition.index (with_entries v s.hall.index s.partition.index (store room.old)) }
{
    let a = server_at(s);
    let e = a + SERVER_WORDS;
    deliver_at(&mut room[a..e], v, set);
}
