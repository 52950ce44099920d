// Reading into a lent buffer.
#![tactic(auto)]

ghost use Rattle.std.specs.Prelude.{◌≡◌, ◌≤◌, ◌<◌, take, length, IfOk, OnErr};
ghost use Rattle.std.specs.Io.KnownBytes.{Consumes, IsAtEnd};

use std::io;
use std::io::Read;

// Reads to the end of what there is, or until `bytes` is full, and returns how many bytes were read: these stand at the front.
pub fn read_full<R: Read>(from: &mut R, bytes: &mut [u8]) -> io::Result<usize>
    ensures length { length bytes.new ≡ length bytes.old }
    ensures most { IfOk result (λ n. n ≤ length bytes.old) }
    ensures front { IfOk result (λ n. Consumes (R.remaining from.old) (R.remaining from.new) (take n bytes.new)) }
    ensures end { IfOk result (λ n. n < length bytes.old → IsAtEnd (R.remaining from.new)) }

    // What was read before a failure stands at the front too.
    ensures err { OnErr result ((n : _) × (n ≤ length bytes.old)
        × Consumes (R.remaining from.old) (R.remaining from.new) (take n bytes.new)) }
{
    // kept: a loop, since a reader may give less than there is room for, and the library's `read_exact` fails where the end comes first
    let mut done = 0;
    while done < bytes.len() {
        match from.read(&mut bytes[done..])? {
            0 => return Ok(done),
            n => done += n,
        }
    }
    Ok(done)
}
