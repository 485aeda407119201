// A reader that hands out the parts of a lent text between two bytes of a kind.
ghost use Rattle.std.specs.Prelude.{◌≡◌, ◌==◌, ◌+◌, ◌≤◌, [], ◌∷◌, length, position};
ghost use Rattle.std.specs.Prelude.{IfSome, MatchOption};
ghost use Rattle.sheets.specs.declared.reader.TheConstants.{LONGEST};
ghost use Rattle.sheets.specs.Texts.{parts};

/// The most bytes that a text may have.
pub(crate) const LONGEST: usize = 4096;

/// A part of the text, with its number from 1.
#[derive(Clone, Copy)]
pub(crate) struct Part<'a> {
    pub bytes: &'a [u8],
    pub number: u32,
}

/// It holds the text, and the place where the next part begins.
#[derive(Drop)]
pub(crate) struct Reader<'a> {
    text: &'a [u8],
    separator: u8,
    at: usize,
    number: u32,
    ghost small: { length text.now ≤ LONGEST },
    ghost within: { at ≤ length text.now + 1 },
    ghost counted: { number ≤ at },
}

// Where the first separator stands.
fn first_separator(separator: u8, text: &[u8]) -> Option<usize>
    ensures { result ≡ position (λ b. b == separator) text.now }
{
    text.iter().position(|b| *b == separator)
}

impl<'a> Reader<'a> {
    ghost use Rattle.sheets.specs.Readers.{left};

    /// A reader at the head of the text.
    pub(crate) fn new(text: &'a [u8], separator: u8) -> Reader<'a>
        requires { length text.now ≤ LONGEST }
        ensures left { left result ≡ parts separator text.now }
        ensures number { result.number ≡ 0 }
    {
        Reader {
            text,
            separator,
            at: 0,
            number: 0,
        }
    }

    /// The next part.
    pub(crate) fn next(&mut self) -> Option<Part<'a>>
        ensures left { MatchOption result
            (left self.old ≡ [])
            (λ part. left self.old ≡ part.bytes.now ∷ left self.new) }
        ensures short { IfSome result (λ part. length part.bytes.now ≤ LONGEST) }
        ensures number { MatchOption result
            (self.new ≡ self.old)
            (λ part. (part.number ≡ self.old.number + 1)
            × (self.new.number ≡ self.old.number + 1)) }
    {
        let rest = self.text.get(self.at..)?;
        let len = first_separator(self.separator, rest).unwrap_or(rest.len());
        self.at += len + 1;
        self.number += 1;
        Some(Part {
            bytes: &rest[..len],
            number: self.number,
        })
    }
}
