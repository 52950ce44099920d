// "The script is read through a place in the lent text": a reader holds both. Its functions are thin: `peek` takes the reader apart and `peek_at`
// puts it together, so that nobody else has to hold one.
#![tactic(auto)]

ghost use Rattle.std.specs.Prelude.{◌≡◌};
ghost use Rattle.reader.specs.Sign.{sign_at};

#[derive(Clone, Copy)]
pub struct Reader<'a> {
    pub text: &'a [u8],
    pub at: usize,
}

// The byte at the reader's place, or none at the text's end.
pub fn peek(r: Reader<'_>) -> Option<u8>
    ensures { result ≡ sign_at r.entry.text.now r.entry.at }
{
    r.text.get(r.at).copied()
}

pub fn peek_at(text: &[u8], at: usize) -> Option<u8>
    ensures { result ≡ sign_at text.now at }
{
    peek(Reader { text, at })
}
