// Numbers below a size, and what they name. One that is made is in range, so no contract has to ask for it again.
ghost use Rattle.std.specs.Prelude.{◌≡◌, ◌<◌};

use crate::{HALLS_MAX, KEYS_MAX, PARTITIONS_MAX, PLACES_MAX, SESSIONS_MAX, SLOTS_MAX};

#[derive(Clone, Copy)]
pub struct Below<const N: usize> {
    pub index: usize,
    ghost below: { index < N },
}

impl<const N: usize> Below<N> {
    pub fn new(index: usize) -> Self
        requires { index < N }
        ensures { result.index ≡ index }
    {
        Below { index }
    }
}

pub type Hall = Below<HALLS_MAX>;

pub type Partition = Below<PARTITIONS_MAX>;

pub type Session = Below<SESSIONS_MAX>;

pub type Key = Below<KEYS_MAX>;

// A transaction's place, and a message's in its channel.
pub type Place = Below<PLACES_MAX>;

pub type Slot = Below<SLOTS_MAX>;

// "A server is a (hall, partition) pair"
#[derive(Clone, Copy)]
pub struct Server {
    pub hall: Hall,
    pub partition: Partition,
}

impl Server {
    pub fn new(hall: usize, partition: usize) -> Self
        requires { (hall < HALLS_MAX) × (partition < PARTITIONS_MAX) }
        ensures { (result.hall.index ≡ hall) × (result.partition.index ≡ partition) }
    {
        Server {
            hall: Hall::new(hall),
            partition: Partition::new(partition),
        }
    }
}
