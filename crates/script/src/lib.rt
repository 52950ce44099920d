// A script is run: each phase reads the text from its place on, prints all that is left to print, and calls the next phase last.
#![tactic(auto)]

ghost use Rattle.std.specs.Prelude.{true, ◌≡◌};
ghost use Rattle.book.specs.Answers.{numbers};
ghost use Rattle.book.specs.WellFormed.{well_formed};
ghost use Rattle.room.specs.Layout.{store};
ghost use Rattle.ink.specs.Written.{Written, Fits};
ghost use Rattle.script.specs.Printout.{line_of, steps_from, counted_from, setup_from, sessions_from, halls_from, outcome};
ghost use Rattle.script.specs.Run.{Done, Ran};

use book::{Answer, HALLS_MAX, Numbers, Refusal, SESSIONS_MAX};
use room::{Room, SIZE};
use scan::{Bad, Cursor, Stop};

// "The text is at most 65,536 bytes"
const TEXT_MAX: usize = 65536;

// The bytes that are room enough for every printout.
pub const CAPACITY: usize = 400063;

// The line of step i.
fn put_answer(out: &mut [u8], at: usize, i: u64, x: Answer) -> usize
    requires { Fits out.old at (line_of i (numbers x)) }
    ensures { Written out.old at (line_of i (numbers x)) out.new result }
{
    let n = Numbers::from(x);
    ink::put_line(out, at, i, n.refusal, n.first, n.second)
}

// The steps.
#[tactic(auto, using(crate::proofs::Phases::taking))]
fn steps(
    text: &[u8],
    room: &mut Room,
    out: &mut [u8],
    start: usize,
    count: u64,
    mut c: Cursor,
) -> usize
    requires { (well_formed (store room.old) ≡ true)
        × Fits out.old start (steps_from count 1 text.now c.at (store room.old)).bytes }
    ensures { Done (steps_from count 1 text.now c.at (store room.old)) start out.old out.new result room.new }
{
    let mut place = start;
    for i in 0..count {
        match scan::read_four(text, c) {
            Ok((four, next)) => {
                let x = store::step_inner(room, four.code, four.x, four.y, four.z);
                place = put_answer(out, place, i + 1, x);
                c = next;
            }
            Err(Bad(k)) => return ink::put_script(out, place, k),
        }
    }
    if c.at < text.len() {
        return ink::put_script(out, place, c.at);
    }
    place
}

// The step count.
#[tactic(auto, using(crate::proofs::Phases::counting))]
fn counted(text: &[u8], room: &mut Room, out: &mut [u8], start: usize, c: Cursor) -> usize
    requires { (well_formed (store room.old) ≡ true)
        × Fits out.old start (counted_from text.now c.at (store room.old)).bytes }
    ensures { Done (counted_from text.now c.at (store room.old)) start out.old out.new result room.new }
{
    match scan::read_count(text, c) {
        Ok((count, c)) => steps(text, room, out, start, count, c),
        Err(Bad(k)) => ink::put_script(out, start, k),
    }
}

// Setup and its line.
#[tactic(auto, using(crate::proofs::Phases::beginning), unfolding(crate::specs::Printout::setup_from, book::specs::Setup::setup_answer))]
fn set_up(
    text: &[u8],
    masks: &[u64],
    homes: &[u64],
    room: &mut Room,
    out: &mut [u8],
    c: Cursor,
) -> usize
    requires { Fits out.old 0 (setup_from masks.now homes.now text.now c.at (store room.old)).bytes }
    ensures { Done (setup_from masks.now homes.now text.now c.at (store room.old)) 0 out.old out.new result room.new }
{
    let x = setup::setup(room, masks, homes);
    let start = put_answer(out, 0, 0, x);
    if let Answer::Answered(..) = x {
        counted(text, room, out, start, c)
    } else {
        start
    }
}

// The sessions' homes.
#[tactic(auto, using(crate::proofs::Phases::sections))]
fn sessions(text: &[u8], masks: &[u64], room: &mut Room, out: &mut [u8], c: Cursor) -> usize
    requires { Fits out.old 0 (sessions_from masks.now text.now c.at (store room.old)).bytes }
    ensures { Done (sessions_from masks.now text.now c.at (store room.old)) 0 out.old out.new result room.new }
{
    let mut homes = [0u64; 2 * SESSIONS_MAX];
    match scan::read_section(text, c, SESSIONS_MAX, 2, &mut homes) {
        Ok((n, c)) => set_up(text, masks, &homes[..n], room, out, c),
        Err(Stop::Outside) => put_answer(out, 0, 0, Answer::Refused(Refusal::BadSetup as u64)),
        Err(Stop::Bad(Bad(k))) => ink::put_script(out, 0, k),
    }
}

// The halls' masks.
// kept: as the sessions are, since each phase calls the one after it, with what it has read.
#[tactic(auto, using(crate::proofs::Phases::sections))]
fn halls(text: &[u8], room: &mut Room, out: &mut [u8]) -> usize
    requires { Fits out.old 0 (halls_from text.now (store room.old)).bytes }
    ensures { Done (halls_from text.now (store room.old)) 0 out.old out.new result room.new }
{
    let mut masks = [0u64; HALLS_MAX];
    match scan::read_section(text, Cursor { at: 0 }, HALLS_MAX, 1, &mut masks) {
        Ok((n, c)) => sessions(text, &masks[..n], room, out, c),
        Err(Stop::Outside) => put_answer(out, 0, 0, Answer::Refused(Refusal::BadSetup as u64)),
        Err(Stop::Bad(Bad(k))) => ink::put_script(out, 0, k),
    }
}

// Any text, where the room has its length and the buffer is long enough.
#[tactic(auto, using(crate::proofs::Phases::counting))]
fn print(text: &[u8], room: &mut Room, out: &mut [u8]) -> usize
    requires { Fits out.old 0 (outcome text.now (store room.old)).bytes }
    ensures { Done (outcome text.now (store room.old)) 0 out.old out.new result room.new }
{
    if text.len() > TEXT_MAX {
        return ink::put_script(out, 0, TEXT_MAX);
    }
    halls(text, room, out)
}

// Writes the printout of a text to the front of `out` and returns its length; the room is then as the text's setup and steps leave it.
// A room of another length than SIZE, or an `out` shorter than CAPACITY, is left as it is, and so is the other; 0 is returned.
#[tactic(auto, using(crate::specs::Length::outcome_fits))]
pub fn run(text: &[u8], room: &mut [u64], out: &mut [u8]) -> usize
    ensures { Ran text.now room.old out.old result room.new out.new }
{
    let Some(room) = room.as_mut_array::<SIZE>() else {
        return 0;
    };
    if out.len() < CAPACITY {
        return 0;
    }
    print(text, room, out)
}
