// The words of a line of text. They are bytes and no text, since a backslash in a quoted text takes one byte as it is.
ghost use Rattle.std.specs.Prelude.{◌<◌, length, IfSome};

#[derive(Clone, Copy, Debug, PartialEq, Eq)]
pub(crate) enum Word<'a> {
    // Bytes up to the next blank.
    Plain(&'a [u8]),
    // The bytes between two quotes.
    Quoted(&'a [u8]),
    // A quote that no other follows.
    Open,
}

// The words that are left of a line, up to its comment.
#[derive(Clone, Debug, Drop)]
pub(crate) struct Words<'a> {
    rest: &'a [u8],
}

fn is_blank(byte: u8) -> bool {
    matches!(byte, b' ' | b'\t' | b'\r')
}

// The number of bytes in front of the quote that ends the text; a backslash takes the next byte with it.
fn quoted_bytes(text: &[u8]) -> Option<usize>
    ensures { IfSome result (λ end. end < length text.now) }
{
    let mut escaped = false;
    text.iter().position(|byte| {
        let ends = *byte == b'"' && !escaped;
        escaped = *byte == b'\\' && !escaped;
        ends
    })
}

impl<'a> Words<'a> {
    pub(crate) fn new(line: &'a [u8]) -> Self {
        Words { rest: line }
    }
}

impl<'a> Iterator for Words<'a> {
    type Item = Word<'a>;

    fn next(&mut self) -> Option<Word<'a>> {
        let start = self.rest.iter().position(|byte| !is_blank(*byte))?;
        let text = &self.rest[start..];
        match text {
            [b'#', ..] => None,
            [b'"', inner @ ..] => match quoted_bytes(inner) {
                Some(end) => {
                    self.rest = &inner[end + 1..];
                    Some(Word::Quoted(&inner[..end]))
                }
                None => Some(Word::Open),
            },
            _ => {
                let end = text
                    .iter()
                    .position(|byte| is_blank(*byte))
                    .unwrap_or(text.len());
                let (word, rest) = text.split_at(end);
                self.rest = rest;
                Some(Word::Plain(word))
            }
        }
    }
}
