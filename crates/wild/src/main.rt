// Any words as a room and any numbers as a step: each ends with an answer. Bounded and seeded; prints how many were taken and turned away.
#![tactic(auto)]

ghost use Rattle.std.specs.Prelude.{◌≡◌, ◌+◌, ◌<◌, IfOk};
ghost use Rattle.store.specs.Face.{step_answer, Stepped};
ghost use Rattle.wild.specs.Counted.{counted};

use book::Answer;
use room::SIZE;
use std::fmt::{Display, Formatter, Write};
use std::{fmt, io};

// A xorshift generator.
#[derive(Clone, Copy)]
struct Numbers(u64);

impl Numbers {
    fn next(&mut self) -> u64 {
        self.0 ^= self.0 << 13;
        self.0 ^= self.0 >> 7;
        self.0 ^= self.0 << 17;
        self.0
    }

    // The next number reduced to below m, and whole where m is 0.
    fn next_below(&mut self, m: u64) -> u64 {
        let x = self.next();
        x.checked_rem(m).unwrap_or(x)
    }

    fn fill(&mut self, words: &mut [u64]) {
        for word in words {
            *word = self.next();
        }
    }
}

// How many steps were answered: those taken, and those turned away.
#[derive(Clone, Copy, Default)]
pub struct Count {
    pub taken: u64,
    pub away: u64,
}

impl Count {
    #[tactic(auto, unfolding(crate::specs::Counted::counted))]
    fn add(&mut self, answer: Answer)
        requires { self.old.taken + self.old.away < 100 }
        ensures { self.new ≡ counted self.old answer }
    {
        match answer {
            Answer::Refused(_) => self.away += 1,
            _ => self.taken += 1,
        }
    }

    // A step, and its own answer counted.
    fn step(&mut self, room: &mut [u64], code: u64, x: u64, y: u64, z: u64)
        requires { self.old.taken + self.old.away < 100 }
        ensures counted { self.new ≡ counted self.old (step_answer room.old code x y z) }
        ensures stepped { Stepped room.old code x y z (step_answer room.old code x y z) room.new }
    {
        self.add(store::step(room, code, x, y, z));
    }
}

impl Display for Count {
    fn fmt<W: Write>(&self, f: &mut Formatter<W>) -> fmt::Result {
        write!(f, "taken {}, turned away {}", self.taken, self.away)
    }
}

// A hundred steps, said, with codes below `codes` and numbers below m, and with any where that is 0. Returns how many were answered.
#[tactic(auto, using(crate::specs::Counted::one_more))]
fn steps(
    rt: &impl Print,
    words: &str,
    room: &mut [u64],
    mut numbers: Numbers,
    codes: u64,
    m: u64,
) -> io::Result<u64>
    ensures { IfOk result (λ n. n ≡ 100) }
{
    let mut count = Count::default();
    for _ in 0..100u64 {
        let code = numbers.next_below(codes);
        let x = numbers.next_below(m);
        let y = numbers.next_below(m);
        let z = numbers.next_below(m);
        count.step(room, code, x, y, z);
    }
    println!(rt; "{words}: {count}")?;
    Ok(count.taken + count.away)
}

// A room as setup left it, and then as the steps leave it.
fn five(rt: &impl Print, room: &mut [u64], mut numbers: Numbers) -> io::Result<u64>
    ensures { IfOk result (λ n. n ≡ 500) }
{
    let mut n = steps(
        rt,
        "a room as set up, any code and numbers",
        room,
        numbers,
        0,
        0,
    )?;
    n += steps(rt, "then any code, numbers below 3", room, numbers, 0, 3)?;
    n += steps(rt, "then codes below 16, any numbers", room, numbers, 16, 0)?;
    n += steps(
        rt,
        "then codes below 16, numbers below 3",
        room,
        numbers,
        16,
        3,
    )?;
    numbers.next();
    n += steps(rt, "then the same, drawn anew", room, numbers, 16, 3)?;
    Ok(n)
}

fn main(rt: HostRuntime) -> io::Result<()> {
    let mut numbers = Numbers(88172645463325252);
    let mut room = [0; SIZE];
    numbers.fill(&mut room);
    let mut n = steps(
        &rt,
        "random words as a room, any code and numbers",
        &mut room,
        numbers,
        0,
        0,
    )?;
    setup::setup(&mut room, &[3, 2], &[0, 0, 1, 1]);
    n += five(&rt, &mut room, numbers)?;
    n += steps(&rt, "a room of wrong length", &mut [0; 100], numbers, 16, 3)?;
    println!(rt; "all steps answered: {n}")
}
