// "Setup": the numbers are laid out in a room of zeros, judged there, and only if they are good copied into the lent room.
#![tactic(auto)]

ghost use Rattle.std.specs.Prelude.{◌≡◌, get_or};
ghost use Rattle.book.specs.Sizes.{partitions_max};
ghost use Rattle.book.specs.Folds.{count};
ghost use Rattle.book.specs.Servers.{holds};
ghost use Rattle.book.specs.Setup.{first_store, servers};
ghost use Rattle.room.specs.Layout.{store};
ghost use Rattle.setup.specs.SetUp.{SetUp};

use book::{Answer, HALLS_MAX, Hall, PARTITIONS_MAX, Refusal, SESSIONS_MAX, Session};
use room::{Cell, Room, SIZE};

// The number at i, and 0 past the last.
fn number_at(numbers: &[u64], i: usize) -> u64
    ensures { result ≡ get_or numbers.now i 0 }
{
    numbers.get(i).copied().unwrap_or(0)
}

// The store of a setup's numbers, whether they are good or not.
fn lay_out(fresh: &mut Room, masks: &[u64], homes: &[u64])
    requires { store fresh.old ≡ λ d. 0 }
    ensures { store fresh.new ≡ first_store masks.now homes.now }
{
    room::put(fresh, Cell::Halls, masks.len() as u64);
    room::put(fresh, Cell::Sessions, (homes.len() / 2) as u64);
    for s in 0..SESSIONS_MAX {
        let partition = number_at(homes, 2 * s + 1);
        room::put(fresh, Cell::HomePartition(Session::new(s)), partition);
    }
    for s in 0..SESSIONS_MAX {
        let hall = number_at(homes, 2 * s);
        room::put(fresh, Cell::HomeHall(Session::new(s)), hall);
    }
    for h in 0..HALLS_MAX {
        let mask = number_at(masks, h);
        room::put(fresh, Cell::Mask(Hall::new(h)), mask);
    }
    let held = formed::partitions_held(fresh);
    room::put(fresh, Cell::Partitions, held);
}

// How many servers hall h has.
fn servers_of(room: &Room, h: usize) -> u64
    ensures { result ≡ count partitions_max (holds (store room.now) h) }
{
    (0..PARTITIONS_MAX)
        .filter(|&p| servers::holds(room, h, p))
        .count() as u64
}

fn all_servers(room: &Room) -> u64
    ensures { result ≡ servers (store room.now) }
{
    (0..HALLS_MAX).map(|h| servers_of(room, h)).sum()
}

pub fn setup(room: &mut [u64], masks: &[u64], homes: &[u64]) -> Answer
    ensures { SetUp room.old masks.now homes.now result room.new }
{
    if room.len() != SIZE {
        return Answer::Refused(Refusal::BadRoom as u64);
    }
    if homes.len() % 2 != 0 {
        return Answer::Refused(Refusal::BadSetup as u64);
    }
    let mut fresh = [0; SIZE];
    lay_out(&mut fresh, masks, homes);
    if !formed::good_setup(&fresh) {
        return Answer::Refused(Refusal::BadSetup as u64);
    }
    room.copy_from_slice(&fresh);
    let partitions = room::get(&fresh, Cell::Partitions);
    Answer::Answered(partitions, all_servers(&fresh))
}
