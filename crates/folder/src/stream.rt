// What a sheet is read from.
ghost use Rattle.std.specs.Prelude.{ℕ, List, Option, IfErr};
ghost use Rattle.std.specs.Io.{ReadsAtMost};
ghost use Rattle.std.specs.Io.KnownBytes.{ReadConsumes};
ghost use Rattle.std.specs.declared.io.Error.{Error};

use std::io;
use std::io::Read;

/// A stream of bytes. No contract knows which bytes a file has, nor which read of it fails. What is
/// promised of every stream holds of a file too, whatever it has and wherever it fails.
pub trait Stream: Drop {
    // The bytes that reads will give from here on, where they are known.
    ghost remaining: { Self → Option (List ℕ) };

    // A read from here on may fail with this error. Nothing else shows that one does, so a body
    // cannot make a failure up.
    ghost fails: { Self → Error → Type 0 };

    /// Reads bytes into the front of the room, and gives how many: 0 at the end, or for no room.
    /// One that fails takes none.
    fn read(&mut self, room: &mut [u8]) -> io::Result<usize>
        ensures bound { ReadsAtMost result room.new }
        ensures bytes { ReadConsumes (remaining self.old) (remaining self.new) result room.new }
        ensures error { IfErr result (fails self.old) }
        ensures later { (error : Error) → fails self.new error → fails self.old error };
}

/// A reader of which any read may fail, as a file is.
#[derive(Drop)]
pub struct Fallible<R>(pub R);

impl<R: Read + Drop> Stream for Fallible<R> {
    ghost remaining = { λ stream. R.remaining stream.0 };

    ghost fails = { λ stream error. Unit {0} };

    fn read(&mut self, room: &mut [u8]) -> io::Result<usize> {
        self.0.read(room)
    }
}
