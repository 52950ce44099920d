// Scripts held to what is stored of them, and how many agree.
#![tactic(auto)]

ghost use Rattle.std.specs.Prelude.{◌≡◌, ◌+◌, ◌<◌, ◌≤◌, length};
ghost use Rattle.book.specs.Folds.{count as count_of};
ghost use Rattle.script.specs.Length.{capacity};
ghost use Rattle.tally.specs.Compare.{compared};
ghost use Rattle.tally.specs.Agrees.{verdict, verdict_at, agrees};

use room::Room;

// The scripts of a list. Script i's text lies between cuts 2i and 2i + 1, and what is stored of it between there and cut 2i + 2.
#[derive(Clone, Copy)]
pub struct Scripts<'a> {
    pub bytes: &'a [u8],
    pub cuts: &'a [usize],
    pub count: usize,
    ghost enough: { count + count < length cuts.now },
}

// The first offset where two texts are not the same.
fn compare(a: &[u8], b: &[u8]) -> Option<usize>
    ensures { result ≡ compared a.now b.now 0 }
{
    let shorter = (a.len() != b.len()).then_some(a.len().min(b.len()));
    a.iter().zip(b).position(|(x, y)| x != y).or(shorter)
}

// A text's printout beside what is stored of it.
// kept: room and buffer apart, here and in the two below: a struct of two `&mut` would have to say in each method that it keeps both loans
fn judge(text: &[u8], stored: &[u8], room: &mut Room, out: &mut [u8]) -> Option<usize>
    requires { capacity ≤ length out.old }
    ensures { result ≡ verdict text.now stored.now }
{
    let n = script::run(text, room, out);
    compare(&out[..n], stored)
}

impl Scripts<'_> {
    // The first offset where script i's printout is not what is stored of it.
    #[tactic(auto, unfolding(crate::specs::Agrees::verdict_of))]
    pub fn judge_at(&self, i: usize, room: &mut Room, out: &mut [u8]) -> Option<usize>
        requires { (i < self.now.count) × (capacity ≤ length out.old) }
        ensures { result ≡ verdict_at self.now.bytes.now self.now.cuts.now i }
    {
        let text = self.cuts[i + i];
        let stored = self.cuts[i + i + 1];
        let end = self.cuts[i + i + 2];
        match (self.bytes.get(text..stored), self.bytes.get(stored..end)) {
            (Some(text), Some(stored)) => judge(text, stored, room, out),
            _ => Some(0),
        }
    }

    // How many of the scripts print what is stored of them.
    #[tactic(auto, using(room::specs::Loops::count_next, room::specs::Loops::count_le), unfolding(book::specs::Folds::count))]
    pub fn tally(&self, room: &mut Room, out: &mut [u8]) -> usize
        requires { capacity ≤ length out.old }
        ensures { result ≡ count_of self.now.count (agrees self.now.bytes.now self.now.cuts.now) }
    {
        // kept: a loop, since a closure that changes what it is lent leaves nothing proved of it
        let mut n = 0;
        for i in 0..self.count {
            if self.judge_at(i, room, out).is_none() {
                n += 1;
            }
        }
        n
    }
}
