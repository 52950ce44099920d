// Runs every script that the file `list` names, one to a line, and holds its printout to the stored one: NAME.script and NAME.expect.
// All files are read first: what is counted is then said of bytes in hand, by `tally`.
#![tactic(auto)]

ghost use Rattle.std.specs.Prelude.{◌≡◌, ◌+◌, ◌*◌, ◌≤◌, ◌<◌, IfOk, IfSome, length};

use input::read_full;
use room::{Room, SIZE};
use script::CAPACITY;
use std::io::Read;
use std::rt::Files;
use std::{fs, io};
use tally::Scripts;

// A line is one byte at least.
const LIST_MAX: usize = 65536;

const CUTS: usize = 2 * LIST_MAX + 1;

const FILES_MAX: usize = 2097152;

const TEXT_MAX: usize = 65536;

// The file NAME with the ending, or none.
fn open<R: Files>(rt: &R, name: &[u8], ending: &[u8]) -> Option<R::File>
    requires { length ending.now ≤ 56 }
{
    if name.len() > 200 {
        return None;
    }
    let mut path = [0u8; 256];
    let dot = ink::put_bytes(&mut path, 0, name);
    let end = ink::put_bytes(&mut path, dot, ending);
    let path = str::from_utf8(&path[..end]).ok()?;
    fs::open(rt, path).ok()
}

// A script's two files, if both are there.
fn open_both<R: Files>(rt: &R, name: &[u8]) -> Option<(R::File, R::File)> {
    let script = open(rt, name, b".script")?;
    let expect = open(rt, name, b".expect")?;
    Some((script, expect))
}

// Reads a file to `at` and on, its first `most` bytes, and returns the place after them. Nothing is read where there is no room for so many.
fn read_file<F: Read>(file: &mut F, bytes: &mut [u8], at: usize, most: usize) -> io::Result<usize>
    requires { at ≤ length bytes.old }
    ensures { IfOk result (λ n. n ≤ length bytes.old) }
{
    match bytes[at..].get_mut(..most) {
        Some(part) => Ok(at + read_full(file, part)?),
        None => Ok(at),
    }
}

// Where a text ends, and where what is stored of it does.
#[derive(Clone, Copy)]
struct Ends {
    text: usize,
    stored: usize,
}

// Reads a script's two files to `at` and on, each with one byte more than it may have. Where one is not there both are empty, as no printout is.
fn read_script(rt: &impl Files, name: &[u8], bytes: &mut [u8], at: usize) -> io::Result<Ends>
    requires { at ≤ length bytes.old }
    ensures { IfOk result (λ e. e.stored ≤ length bytes.old) }
{
    let Some((mut script, mut expect)) = open_both(rt, name) else {
        return Ok(Ends {
            text: at,
            stored: at,
        });
    };
    let text = read_file(&mut script, bytes, at, TEXT_MAX + 1)?;
    let stored = read_file(&mut expect, bytes, text, CAPACITY + 1)?;
    Ok(Ends { text, stored })
}

// Reads the file `list`; where it is not there, it is empty.
fn read_list(rt: &impl Files, list: &mut [u8]) -> io::Result<usize>
    ensures { IfOk result (λ n. n ≤ length list.old) }
{
    let Ok(mut file) = fs::open(rt, "list") else {
        return Ok(0);
    };
    read_full(&mut file, list)
}

// The first line and what follows it, unless nothing is left.
fn first_line(list: &[u8]) -> Option<(&[u8], &[u8])>
    ensures { IfSome result (λ r. length r.1.now < length list.now) }
{
    if list.is_empty() {
        return None;
    }
    match list.iter().position(|&b| b == b'\n') {
        Some(end) => Some((&list[..end], &list[end + 1..])),
        None => Some((list, &[])),
    }
}

// Reads the files of every line, sets the cuts between them, and returns how many lines there are. The first cut is 0 as it was.
fn read_all(
    rt: &impl Files,
    list: &[u8],
    bytes: &mut [u8],
    cuts: &mut [usize; CUTS],
) -> io::Result<usize>
    requires { length list.now ≤ LIST_MAX }
    ensures { IfOk result (λ n. n ≤ LIST_MAX) }
{
    // kept: `split` gives a piece after the last line feed too, and one of an empty list, which are no lines
    let mut rest = list;
    let mut at = 0;
    let mut lines = 0;
    while let Some((line, after)) = first_line(rest) {
        let ends = read_script(rt, line, bytes, at)?;
        cuts[lines + lines + 1] = ends.text;
        cuts[lines + lines + 2] = ends.stored;
        at = ends.stored;
        lines += 1;
        rest = after;
    }
    Ok(lines)
}

// Says the first script that differs from what is stored of it, by its line, and the offset.
fn report(
    rt: &impl Print,
    scripts: &Scripts,
    room: &mut Room,
    out: &mut [u8; CAPACITY],
) -> io::Result<()> {
    for i in 0..scripts.count {
        if let Some(offset) = scripts.judge_at(i, room, out) {
            let line = i + 1;
            return println!(rt; "line {line} of the list differs at {offset}");
        }
    }
    Ok(())
}

fn run_all(
    rt: &(impl Files + Print),
    list: &mut [u8; LIST_MAX],
    bytes: &mut [u8; FILES_MAX],
    cuts: &mut [usize; CUTS],
    room: &mut Room,
    out: &mut [u8; CAPACITY],
) -> io::Result<()> {
    let length = read_list(rt, list)?;
    let count = read_all(rt, &list[..length], bytes, cuts)?;
    let scripts = Scripts { bytes, cuts, count };
    let agree = scripts.tally(room, out);
    if agree < count {
        report(rt, &scripts, room, out)?;
    }
    println!(rt; "{agree} of {count} scripts agree")
}

fn main(rt: HostRuntime) -> io::Result<()> {
    let mut list = [0; LIST_MAX];
    let mut bytes = [0; FILES_MAX];
    let mut cuts = [0; CUTS];
    let mut room = [0; SIZE];
    let mut out = [0; CAPACITY];
    run_all(&rt, &mut list, &mut bytes, &mut cuts, &mut room, &mut out)
}
