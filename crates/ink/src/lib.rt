// Printing into a lent buffer: each function writes from the place `at` on and returns the place after what it wrote.
// kept: a writer that holds buffer and place would have a `&mut` in it, and each of its methods would have to say that it keeps that loan.
#![tactic(auto)]

ghost use Rattle.std.specs.Prelude.{[], ◌∷◌};
ghost use Rattle.ink.specs.Decimal.{digits, item, line, script};
ghost use Rattle.ink.specs.Written.{Written, Fits};

use itoa::Buffer;

pub fn put_byte(out: &mut [u8], at: usize, b: u8) -> usize
    requires { Fits out.old at (b ∷ []) }
    ensures { Written out.old at (b ∷ []) out.new result }
{
    out[at] = b;
    at + 1
}

pub fn put_bytes(out: &mut [u8], at: usize, s: &[u8]) -> usize
    requires { Fits out.old at s.now }
    ensures { Written out.old at s.now out.new result }
{
    let next = at + s.len();
    out[at..next].copy_from_slice(s);
    next
}

// Not inlined: a buffer for every number would be more work than most of them are.
#[inline(never)]
#[tactic(auto, using(crate::proofs::Decimal::digits_is))]
fn put_digits(out: &mut [u8], at: usize, n: u64) -> usize
    requires { Fits out.old at (digits n) }
    ensures { Written out.old at (digits n) out.new result }
{
    let mut buffer = Buffer::new();
    put_bytes(out, at, buffer.format(n).as_bytes())
}

// One digit, as in most answers, is one byte.
#[tactic(auto, using(crate::proofs::Decimal::digits_one))]
pub fn put_number(out: &mut [u8], at: usize, n: u64) -> usize
    requires { Fits out.old at (digits n) }
    ensures { Written out.old at (digits n) out.new result }
{
    if n < 10 {
        return put_byte(out, at, b'0' + n as u8);
    }
    put_digits(out, at, n)
}

// A number and the byte after it.
pub fn put_item(out: &mut [u8], at: usize, n: u64, end: u8) -> usize
    requires { Fits out.old at (item n end) }
    ensures { Written out.old at (item n end) out.new result }
{
    let next = put_number(out, at, n);
    put_byte(out, next, end)
}

pub fn put_line(
    out: &mut [u8],
    at: usize,
    step: u64,
    refusal: u64,
    first: u64,
    second: u64,
) -> usize
    requires { Fits out.old at (line step refusal first second) }
    ensures { Written out.old at (line step refusal first second) out.new result }
{
    let after_step = put_item(out, at, step, b' ');
    let after_refusal = put_item(out, after_step, refusal, b' ');
    let after_first = put_item(out, after_refusal, first, b' ');
    put_item(out, after_first, second, b'\n')
}

pub fn put_script(out: &mut [u8], at: usize, offset: usize) -> usize
    requires { Fits out.old at (script offset) }
    ensures { Written out.old at (script offset) out.new result }
{
    let next = put_bytes(out, at, b"script ");
    put_item(out, next, offset as u64, b'\n')
}
