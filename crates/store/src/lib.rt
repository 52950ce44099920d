// The store's face: a step, for any room and any four numbers.
#![tactic(auto)]

ghost use Rattle.std.specs.Prelude.{true, ◌≡◌};
ghost use Rattle.book.specs.WellFormed.{well_formed};
ghost use Rattle.room.specs.Layout.{store};
ghost use Rattle.store.specs.Face.{rule_at, Stepped, Inner};

use book::{Answer, Refusal, Step};
use room::{Room, SIZE};

// A step that its ladder has let through.
#[tactic(auto, using(crate::specs::Granted::steps), unfolding(book::specs::Steps::rule_of))]
fn act(room: &mut Room, step: Step) -> Answer
    requires formed { well_formed (store room.old) ≡ true }
    requires taken { (rule_at (store room.old) step).refusal ≡ 0 }
    ensures { (result ≡ (rule_at (store room.old) step).answer) × (store room.new ≡ (rule_at (store room.old) step).after) }
{
    match step {
        Step::Tick(s, x) => clocks::tick(room, s, x),
        Step::Start(s) => sessions::start(room, s),
        Step::Read(s, k, h) => sessions::read(room, s, k, h),
        Step::Write(s, k, v) => sessions::write(room, s, k, v),
        Step::End(s) => sessions::end(room, s),
        Step::Prepare(t, p) => commits::prepare(room, t, p),
        Step::Decide(t) => commits::decide(room, t),
        Step::Commit(t, p) => commits::commit(room, t, p),
        Step::Install(s) => replication::install(room, s),
        Step::Deliver(to, from) => replication::deliver(room, to, from),
        Step::Report(s) => gossip::report(room, s),
        Step::Share(from, to) => gossip::share(room, from, to),
        Step::Learn(s) => gossip::learn(room, s),
        Step::Move(s, to) => {
            sessions::move_session(room, s, to.hall.index as u64, to.partition.index as u64)
        }
    }
}

// A step on a room that is well formed, as every room is that setup made and steps changed.
#[tactic(auto, using(crate::specs::Face::inner))]
pub fn step_inner(room: &mut Room, code: u64, a: u64, b: u64, c: u64) -> Answer
    requires { well_formed (store room.old) ≡ true }
    ensures { Inner room.old code a b c result room.new }
{
    match ladders::checked(room, code, a, b, c) {
        Ok(step) => act(room, step),
        Err(refusal) => Answer::Refused(refusal as u64),
    }
}

// A step on any room.
pub fn step(room: &mut [u64], code: u64, a: u64, b: u64, c: u64) -> Answer
    ensures { Stepped room.old code a b c result room.new }
{
    match room.as_mut_array::<SIZE>() {
        Some(room) if formed::well_formed(room) => step_inner(room, code, a, b, c),
        _ => Answer::Refused(Refusal::BadRoom as u64),
    }
}
