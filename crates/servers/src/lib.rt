// Which servers there are, where a transaction stands, and which of the servers it writes at.
#![tactic(auto)]

ghost use Rattle.std.specs.Prelude.{◌≡◌, ◌<◌, ◌≤◌};
ghost use Rattle.book.specs.Sizes.{halls_max};
ghost use Rattle.book.specs.Cells.{Halls, From};
ghost use Rattle.book.specs.Sets.{set_of};
ghost use Rattle.book.specs.Servers.{holds as is_server, place_of, writer};
ghost use Rattle.room.specs.Layout.{store};
ghost use Rattle.servers.specs.Turns.{hall_after};
ghost use Rattle.servers.specs.Numbers.{Numbered};

use book::{HALLS_MAX, Hall, Place, TxNumber};
use room::{Cell, Room};

// "A server is a (hall, partition) pair with its bit set."
pub fn holds(room: &Room, h: usize, p: usize) -> bool
    ensures { result ≡ is_server (store room.now) h p }
{
    if HALLS_MAX <= h {
        return false;
    }
    let halls = room::get(room, Cell::Halls);
    let partitions = room::get(room, Cell::Partitions);
    let mask = room::get(room, Cell::Mask(Hall::new(h)));
    (h as u64) < halls && ((p as u64) < partitions && masks::has(mask, p as u64))
}

// The set of the halls that hold p.
pub fn holders(room: &Room, p: usize) -> u64
    ensures { result ≡ set_of halls_max (λ h. is_server (store room.now) h p) }
{
    (0..HALLS_MAX)
        .filter(|&h| holds(room, h, p))
        .fold(0, |m, h| masks::with(m, h as u64))
}

// A transaction number becomes a place here and nowhere else.
pub fn place_of(n: TxNumber) -> Place
    requires { Numbered n.0 }
    ensures { result.index ≡ place_of n.0 }
{
    Place::new((n.0 - 1) as usize)
}

fn hall_after(halls: usize, h: usize) -> usize
    requires { h < halls }
    ensures { (result ≡ hall_after halls h) × (result < halls) }
{
    if halls <= h + 1 { 0 } else { h + 1 }
}

// "the first holder found counting up from it and past the last back to 0"
// kept: a loop that yields the hall by `break`, as the list of forms has it (docs/FORMS.md).
pub fn writing_hall(room: &Room, t: Place, p: usize) -> Hall
    requires { (store room.now Halls ≤ halls_max) × (store room.now (From t.index) < store room.now Halls) }
    ensures { result.index ≡ writer (store room.now) t.index p }
{
    let halls = room::get(room, Cell::Halls) as usize;
    let mut h = room::get(room, Cell::From(t)) as usize;
    let mut left = halls;
    let w = loop {
        if left == 0 {
            break h;
        }
        if holds(room, h, p) {
            break h;
        }
        h = hall_after(halls, h);
        left -= 1;
    };
    Hall::new(w)
}
