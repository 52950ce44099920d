// Steps 11 to 13: report, share, learn.
#![tactic(auto)]

ghost use Rattle.std.specs.Prelude.{◌≡◌};
ghost use Rattle.book.specs.GossipSteps.{lowest_entry, report as reported, lowest_of, share as shared, lowest_shared, stable_after, learn as learnt};
ghost use Rattle.room.specs.Layout.{store};

use book::{Answer, HALLS_MAX, Hall, PARTITIONS_MAX, Server, Timestamp};
use room::{Cell, Room};
use servers::holds;
use vectors::{lowest, vector_of};

// 11. "The hall notes the lowest entry of that server's vector, and answers it."
#[tactic(auto, using(vectors::specs::Vectors::lowest_of_lem))]
pub fn report(room: &mut Room, s: Server) -> Answer
    ensures { (result ≡ Answer.Answered (lowest_entry (store room.old) s.hall.index s.partition.index) 0) × (store room.new ≡ reported (store room.old) s.hall.index s.partition.index) }
{
    let x = lowest(vector_of(room, s));
    room::put(room, Cell::Note(s), x.0);
    Answer::Answered(x.0, 0)
}

// "the lowest of 'from''s notes over its servers"
fn lowest_of(room: &Room, f: Hall) -> Timestamp
    ensures { result.0 ≡ lowest_of (store room.now) f.index }
{
    (0..PARTITIONS_MAX)
        .filter(|&p| holds(room, f.index, p))
        .map(|p| Timestamp(room::get(room, Cell::Note(Server::new(f.index, p)))))
        .min()
        .unwrap_or(Timestamp(0))
}

// 12. "Hall 'to' notes the lowest of 'from''s notes over its servers, and answers it."
pub fn share(room: &mut Room, from: Hall, to: Hall) -> Answer
    ensures { (result ≡ Answer.Answered (lowest_of (store room.old) from.index) 0) × (store room.new ≡ shared (store room.old) from.index to.index) }
{
    let x = lowest_of(room, from);
    room::put(room, Cell::Shared(to, from), x.0);
    Answer::Answered(x.0, 0)
}

// "the lowest shared note over all halls"
fn lowest_shared(room: &Room, h: Hall) -> Timestamp
    ensures { result.0 ≡ lowest_shared (store room.now) h.index }
{
    let halls = room::get(room, Cell::Halls);
    (0..HALLS_MAX)
        .filter(|&f| (f as u64) < halls)
        .map(|f| Timestamp(room::get(room, Cell::Shared(h, Hall::new(f)))))
        .min()
        .unwrap_or(Timestamp(0))
}

// 13. "Stable time becomes the larger of itself and the lowest shared note over all halls; answered."
pub fn learn(room: &mut Room, s: Server) -> Answer
    ensures { (result ≡ Answer.Answered (stable_after (store room.old) s.hall.index s.partition.index) 0) × (store room.new ≡ learnt (store room.old) s.hall.index s.partition.index) }
{
    let stable = Timestamp(room::get(room, Cell::Stable(s)));
    let x = stable.max(lowest_shared(room, s.hall));
    room::put(room, Cell::Stable(s), x.0);
    Answer::Answered(x.0, 0)
}
