// Reading the script: each byte is taken by a reader (crates/reader), and the place in the text is a cursor by value.
#![tactic(auto)]

ghost use Rattle.std.specs.Prelude.{◌≡◌, true, cond, ◌*◌, ◌≤◌, leb, length, drop};
ghost use Rattle.std.proofs.lemmas.List.Edits.{sets};
ghost use Rattle.scan.specs.Number.{digit, joined, start, number_at, count_at};
ghost use Rattle.scan.specs.Groups.{four_at, many_at};
ghost use Rattle.scan.specs.Sections.{section_at};
ghost use Rattle.scan.specs.declared.Stop.TheVariants.{Bad as BadSection};

use reader::peek_at;

// "a place in the lent text"
#[derive(Clone, Copy, Debug, PartialEq, Eq)]
pub struct Cursor {
    pub at: usize,
}

// "count at most 8,000"
const COUNT_MAX: u64 = 8000;

// The offset of the first byte that can't stand there.
#[derive(Clone, Copy, Debug, PartialEq, Eq)]
pub struct Bad(pub usize);

// What is read, with the place after its closing byte.
pub type Read<T> = Result<(T, Cursor), Bad>;

// The four numbers of a step.
#[derive(Clone, Copy, Debug, PartialEq, Eq)]
pub struct Four {
    pub code: u64,
    pub x: u64,
    pub y: u64,
    pub z: u64,
}

// Why a section before the steps is not read: a count outside its range, or bad text.
#[derive(Clone, Copy, Debug, PartialEq, Eq)]
pub enum Stop {
    Outside,
    Bad(Bad),
}

impl From<Bad> for Stop {
    ghost from_gives = { λ bad stop. stop ≡ BadSection bad };

    fn from(bad: Bad) -> Stop {
        Stop::Bad(bad)
    }
}

// v with the digit b after it, where that is at most `most`.
#[tactic(auto, unfolding(crate::specs::Number::digit))]
fn join(v: u64, b: u8, most: u64) -> Option<u64>
    requires { digit b ≡ true }
    ensures { result ≡ cond (leb (joined v b) most) (Some (joined v b)) None }
{
    v.checked_mul(10)?
        .checked_add(u64::from(b - b'0'))
        .filter(|v| *v <= most)
}

// A number at most `most`. Where it passes that, its first digit is bad (early), or else the digit that takes it past.
// kept: the place is counted by hand, since a reader takes each byte (docs/FORMS.md) and is no iterator.
#[tactic(auto, using(crate::proofs::Reading::bytes), unfolding(crate::specs::Number::digit, crate::specs::Number::closing, crate::specs::Number::grows))]
fn read_up_to(text: &[u8], from: usize, most: u64, early: bool) -> Read<u64>
    ensures { result ≡ start most early from (drop from text.now) }
{
    let Some(first @ b'0'..=b'9') = peek_at(text, from) else {
        return Err(Bad(from));
    };
    let mut v = u64::from(first - b'0');
    let mut at = from + 1;
    loop {
        match peek_at(text, at) {
            Some(b' ' | b'\n') => return Ok((v, Cursor { at: at + 1 })),
            Some(b @ b'0'..=b'9') if v != 0 => {
                v = join(v, b, most).ok_or(Bad(if early { from } else { at }))?;
                at += 1;
            }
            _ => return Err(Bad(at)),
        }
    }
}

pub fn read_number(text: &[u8], c: Cursor) -> Read<u64>
    ensures { result ≡ number_at text.now c.at }
{
    read_up_to(text, c.at, u64::MAX, false)
}

// A step count.
pub fn read_count(text: &[u8], c: Cursor) -> Read<u64>
    ensures { result ≡ count_at text.now c.at }
{
    read_up_to(text, c.at, COUNT_MAX, true)
}

// A step: code and three numbers.
#[tactic(auto, unfolding(crate::specs::Groups::four_at))]
pub fn read_four(text: &[u8], c: Cursor) -> Read<Four>
    ensures { result ≡ four_at text.now c.at }
{
    let (code, c) = read_number(text, c)?;
    let (x, c) = read_number(text, c)?;
    let (y, c) = read_number(text, c)?;
    let (z, c) = read_number(text, c)?;
    Ok((Four { code, x, y, z }, c))
}

// As many numbers as `into` holds, stored there as they are read: masks, homes.
#[tactic(auto, using(crate::proofs::Reading::turns))]
pub fn read_many(text: &[u8], mut c: Cursor, into: &mut [u64]) -> Result<Cursor, Bad>
    ensures into { into.new ≡ sets into.old 0 (many_at (length into.old) text.now c.at).got }
    ensures result { result ≡ (many_at (length into.old) text.now c.at).end }
{
    for number in into.iter_mut() {
        (*number, c) = read_number(text, c)?;
    }
    Ok(c)
}

// A count, and `each` numbers for each of these, stored from the front of `into` on: halls, sessions.
#[tactic(auto, using(crate::proofs::Reading::parts), unfolding(crate::specs::Sections::among, crate::specs::Sections::numbers_at, crate::specs::Sections::section_at))]
pub fn read_section(
    text: &[u8],
    c: Cursor,
    most: usize,
    each: usize,
    into: &mut [u64],
) -> Result<(usize, Cursor), Stop>
    requires { most * each ≤ length into.old }
    ensures into { into.new ≡ sets into.old 0 (section_at most each text.now c.at).got }
    ensures result { result ≡ (section_at most each text.now c.at).end }
{
    let (n, c) = read_number(text, c)?;
    if !(1..=most as u64).contains(&n) {
        return Err(Stop::Outside);
    }
    let count = n as usize * each;
    let c = read_many(text, c, &mut into[..count])?;
    Ok((count, c))
}
