// Why question 1 fails of the text of a sheet.
ghost use Rattle.std.specs.Prelude.{◌≡◌, ◌↔◌, IsNone};
ghost use Rattle.sheets.specs.Reading.{IsSized};
ghost use Rattle.explain.specs.declared.cause.Source.TheVariants.{File};
ghost use Rattle.explain.specs.Causes.{cause_in, cause_of, cause_words};

/// How the text of a sheet was come by.
#[derive(Clone, Copy, PartialEq, Eq, Debug)]
pub enum Source {
    /// It was read from its file.
    File,
    /// There is no file.
    Missing,
    /// The file may not be read.
    Forbidden,
    /// It is no regular file: a folder, a device or a pipe.
    NotRegular,
    /// Opening or reading it failed for another reason.
    Failed,
}

/// The text of a sheet, and how it was come by. What could not be read is an empty text.
#[derive(Clone, Copy, PartialEq, Eq, Debug)]
pub struct Given<'a> {
    pub text: &'a [u8],
    pub source: Source,
}

/// Why question 1 fails of a text.
#[derive(Clone, Copy, PartialEq, Eq, Debug)]
pub enum Cause {
    /// There is no file.
    Missing,
    /// The file may not be read.
    Forbidden,
    /// It is no regular file.
    NotRegular,
    /// Opening or reading it failed for another reason.
    Failed,
    /// The text has no byte.
    Empty,
    /// It has more than 4,096 bytes.
    TooLong,
    /// Its last byte is no line feed.
    Unended,
}

// The most bytes that the text of a sheet may have.
const LONGEST: usize = 4096;

/// Why question 1 fails of a text: how it was come by, where it was not read from its file,
/// and otherwise what is wrong with it. Where it was read, there is no cause exactly where the
/// question holds.
pub fn cause_of(given: Given<'_>) -> Option<Cause>
    ensures cause { result ≡ cause_of given.entry.source given.entry.text.now }
    ensures sized { given.entry.source ≡ File
        → (IsNone result ↔ IsSized given.entry.text.now) }
{
    match given.source {
        Source::Missing => Some(Cause::Missing),
        Source::Forbidden => Some(Cause::Forbidden),
        Source::NotRegular => Some(Cause::NotRegular),
        Source::Failed => Some(Cause::Failed),
        Source::File => cause_in(given.text),
    }
}

// What is wrong with a text.
fn cause_in(text: &[u8]) -> Option<Cause>
    ensures cause { result ≡ cause_in text.now }
    ensures sized { IsNone result ↔ IsSized text.now }
{
    match text.last() {
        None => Some(Cause::Empty),
        Some(_) if text.len() > LONGEST => Some(Cause::TooLong),
        Some(b'\n') => None,
        Some(_) => Some(Cause::Unended),
    }
}

/// What a cause says of the file of the sheet.
pub fn cause_words(cause: Cause) -> &'static str
    ensures { result.now ≡ cause_words cause }
{
    match cause {
        Cause::Missing => "is missing",
        Cause::Forbidden => "may not be read",
        Cause::NotRegular => "is no regular file",
        Cause::Failed => "could not be read",
        Cause::Empty => "is empty",
        Cause::TooLong => "has more than 4096 bytes",
        Cause::Unended => "has no line feed at its end",
    }
}
