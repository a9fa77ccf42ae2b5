ghost use Rattle.std.specs.Prelude.{◌≡◌, ◌+◌, ◌<◌, not, ◌&&◌, ◌||◌, [], ◌∷◌, length, if◌then◌else◌, Some, None, MatchOption, ◌==◌, nat_le, slice_index};
ghost use Rattle.lines.specs.Note.{note_form, note_bytes, note_of, word_at, word_bytes, padded, text_byte, text_and_zeros};
ghost use Rattle.std.proofs.Common.{rules};

use crate::line::{Line, WrongLength};

// A note line: sixteen bytes in four words, the first byte lowest.
// Four fields and no array: in a law an array has any length, and every value is to be read back the same.
#[derive(Clone, Copy, Debug, PartialEq, Eq)]
pub struct Note {
    pub first: u32,
    pub second: u32,
    pub third: u32,
    pub fourth: u32,
}

// The number of bytes of a note.
const BYTES: usize = 16;

// The byte of a text at a place, and 0 past its end.
fn byte_or_zero(text: &[u8], at: usize) -> u8
    ensures { result ≡ slice_index text.now at }
{
    text.get(at).copied().unwrap_or(0)
}

// The word of four bytes of a text, from a place on.
fn word(text: &[u8], at: usize) -> u32
    requires { at < 16 }
    ensures value { result ≡ word_at text.now at }
    ensures same { word_bytes result ≡ slice_index text.now at ∷ slice_index text.now (at + 1) ∷ slice_index text.now (at + 2) ∷ slice_index text.now (at + 3) ∷ [] }
{
    u32::from_le_bytes([
        byte_or_zero(text, at),
        byte_or_zero(text, at + 1),
        byte_or_zero(text, at + 2),
        byte_or_zero(text, at + 3),
    ])
}

// Whether a byte may stand in a note, where only zeros stand behind a zero.
fn may_stand(b: u8, ended: bool) -> bool
    ensures { result ≡ (b == 0) || (not ended && text_byte b) }
{
    b == 0 || (!ended && b >= 32 && b <= 126)
}

// Whether these are bytes of text, and then zeros.
fn is_text_and_zeros(bytes: &[u8]) -> bool
    ensures { result ≡ text_and_zeros bytes.now }
{
    // A loop and no `all`: of a closure that changes `ended` the prover would know nothing.
    let mut ended = false;
    for b in bytes {
        if !may_stand(*b, ended) {
            return false;
        }
        ended = *b == 0;
    }
    true
}

impl Note {
    // The two conversions have names, as `from_le_bytes` of a number has: a `From` would not say which bytes it reads.

    // The note with the bytes of a text of at most sixteen bytes. It can be written if they are bytes of text.
    pub fn from_bytes(text: &[u8]) -> Option<Note>
        ensures value { result ≡ (if nat_le (length text.now) 16 then Some (note_of text.now) else None) }
        ensures same { MatchOption result (16 < length text.now) (λ n. note_bytes n ≡ padded text.now) }
    {
        if text.len() > BYTES {
            return None;
        }
        Some(Note {
            first: word(text, 0),
            second: word(text, 4),
            third: word(text, 8),
            fourth: word(text, 12),
        })
    }

    // The sixteen bytes of the note.
    pub fn bytes(self) -> [u8; 16]
        ensures { result ≡ note_bytes self }
    {
        let [a, b, c, d] = self.first.to_le_bytes();
        let [e, f, g, h] = self.second.to_le_bytes();
        let [i, j, k, l] = self.third.to_le_bytes();
        let [m, n, o, p] = self.fourth.to_le_bytes();
        [a, b, c, d, e, f, g, h, i, j, k, l, m, n, o, p]
    }
}

impl Line for Note {
    ghost form = { note_form };

    ghost filled = { Prim.search rules };

    ghost read_back = { Prim.search rules };

    ghost compared = { Prim.search rules };

    ghost tells_same = { Prim.search rules };

    fn words() -> u32 {
        4
    }

    fn write(self, run: &mut [u32]) -> Result<(), WrongLength> {
        if run.len() != 4 {
            return Err(WrongLength);
        }
        run.copy_from_slice(&[self.first, self.second, self.third, self.fourth]);
        Ok(())
    }

    fn read(run: &[u32]) -> Option<Note> {
        match run {
            [first, second, third, fourth] => Some(Note {
                first: *first,
                second: *second,
                third: *third,
                fourth: *fourth,
            }),
            _ => None,
        }
    }

    fn writable(self) -> bool {
        is_text_and_zeros(&self.bytes())
    }
}
