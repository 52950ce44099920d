// The static library for C: the functions of crates/cranktimber under their C symbols, each with its clause again. Their header is
// c/cranktimber.h.
// kept: two functions twice, here and in crates/cranktimber, since a static library exports its own functions alone, and no crate can stand on it.
#![tactic(auto)]

ghost use Rattle.setup.specs.SetUp.{setup_given, setup_room, setup_store};
ghost use Rattle.store.specs.Face.{step_answer, step_room, step_store};
ghost use Rattle.cranktimber.specs.Told.{Told};

use book::Numbers;

#[unsafe(no_mangle)]
pub extern "C" fn cranktimber_setup(room: &mut [u64], masks: &[u64], homes: &[u64]) -> Numbers
    ensures { Told (setup_given room.old masks.now homes.now)
        (setup_room room.old masks.now homes.now)
        (setup_store room.old masks.now homes.now) result room.new }
{
    cranktimber::cranktimber_setup(room, masks, homes)
}

#[unsafe(no_mangle)]
pub extern "C" fn cranktimber_step(room: &mut [u64], code: u64, a: u64, b: u64, c: u64) -> Numbers
    ensures { Told (step_answer room.old code a b c) (step_room room.old code a b c)
        (step_store room.old code a b c) result room.new }
{
    cranktimber::cranktimber_step(room, code, a, b, c)
}
