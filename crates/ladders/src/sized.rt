// A room whose counts are in range: what is there has a cell. Contracts see its words.
ghost use Rattle.std.specs.Prelude.{◌≡◌, ℕ, List};
ghost use Rattle.room.specs.Layout.{store};
ghost use Rattle.room.specs.Named.{cell_of};
ghost use Rattle.ladders.specs.Sized.{Sized};

use room::{Cell, Room};
use std::marker::Model;

#[derive(Drop)]
pub struct SizedRoom<'a> {
    room: &'a Room,
}

impl<'a> Model for SizedRoom<'a> {
    ghost Value = { List ℕ };

    ghost view = { λ r. r.room.now };

    ghost invariant = { λ r. Sized (store r.room.now) };
}

impl<'a> SizedRoom<'a> {
    #[inline(always)]
    pub fn new(room: &'a Room) -> Self
        requires { Sized (store room.now) }
        ensures { result ≡ room.now }
    {
        SizedRoom { room }
    }

    #[inline(always)]
    pub fn words(&self) -> &Room
        ensures words { result.now ≡ self.now }
        ensures sized { Sized (store self.now) }
    {
        self.room
    }

    #[inline(always)]
    pub fn get(&self, c: Cell) -> u64
        ensures word { result ≡ store self.now (cell_of c) }
        ensures sized { Sized (store self.now) }
    {
        room::get(self.room, c)
    }
}
