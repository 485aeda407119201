// The texts of the sheets in a folder.
ghost use Rattle.std.specs.Prelude.{◌≡◌};

use explain::{Given, Source};

/// The text of a sheet: as much of it as is read, 4,097 bytes at most.
#[derive(Drop)]
pub struct Text {
    pub bytes: Vec<u8>,
    pub source: Source,
}

impl Text {
    // The text to be explained, with how it was come by.
    pub(crate) fn given(&self) -> Given<'_>
        ensures text { result.text.now ≡ self.now.bytes.items }
        ensures source { result.source ≡ self.now.source }
    {
        Given {
            text: &self.bytes,
            source: self.source,
        }
    }
}

/// The texts of the three sheets.
#[derive(Drop)]
pub struct Texts {
    pub board: Text,
    pub tasks: Text,
    pub answer: Text,
}
