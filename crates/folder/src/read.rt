// The text of a sheet, from a stream.
ghost use Rattle.std.specs.Prelude.{◌≡◌, ◌⊎◌, take, length};
ghost use Rattle.std.specs.Prelude.{IfOk, IfErr, IfSome, MatchResult};
ghost use Rattle.std.specs.Io.{ReadsAtMost};
ghost use Rattle.std.specs.Io.KnownBytes.{ReadConsumes};
ghost use Rattle.std.specs.IoError.{error_kind};
ghost use Rattle.std.specs.declared.io.Error.{Error};
ghost use Rattle.folder.specs.Folders.{source_of, IsLost, IsStart, TextOf, WantsMemory};

use crate::stream::Stream;
use crate::text::Text;
use explain::Source;
use std::alloc::Global;
use std::io;
use std::io::ErrorKind;

/// How many bytes of a file are read at most: one more than a sheet may have, so that a longer file
/// is too long.
const MOST: usize = 4097;

// One read. An interrupted one is no failure and is tried again, as the standard library does.
// Nobody can say how often, so of 2^64 - 1 tries the last counts whatever it gives.
fn read_some<S: Stream>(stream: &mut S, room: &mut [u8]) -> io::Result<usize>
    ensures bound { ReadsAtMost result room.new }
    ensures bytes { ReadConsumes (S.remaining stream.old) (S.remaining stream.new) result room.new }
    ensures error { IfErr result (S.fails stream.old) }
    ensures later { (error : Error) → S.fails stream.new error → S.fails stream.old error }
{
    for _ in 1..u64::MAX {
        match stream.read(room) {
            Err(error) if error.kind() == ErrorKind::Interrupted => {}
            read => return read,
        }
    }
    stream.read(room)
}

// Reads until the room is full or no byte is left, and gives how many bytes were read.
fn fill<S: Stream>(stream: &mut S, room: &mut [u8]) -> io::Result<usize>
    ensures bound { ReadsAtMost result room.new }
    ensures first { IfOk result (λ n. IfSome (S.remaining stream.old)
        (λ bytes. take n room.new ≡ take (length room.old) bytes)) }
    ensures error { IfErr result (S.fails stream.old) }
{
    let mut filled = 0;
    while filled < room.len() {
        let read = read_some(stream, &mut room[filled..])?;
        if read == 0 {
            break;
        }
        filled += read;
    }
    Ok(filled)
}

// The first bytes of a stream.
fn read_start<S: Stream>(alloc: Global, mut stream: S) -> io::Result<Text>
    ensures start { IfOk result (IsStart (S.remaining stream)) }
    ensures error { IfErr result
        (λ error. S.fails stream error ⊎ (error_kind error ≡ ErrorKind.OutOfMemory)) }
{
    let mut bytes = vec![in alloc; 0; MOST]?;
    let filled = fill(&mut stream, &mut bytes)?;
    bytes.truncate(filled);
    Ok(Text {
        bytes,
        source: Source::File,
    })
}

// What an error tells of a file.
fn source_of(error: &io::Error) -> Source
    ensures { result ≡ source_of (error_kind error.now) }
{
    match error.kind() {
        ErrorKind::NotFound => Source::Missing,
        ErrorKind::PermissionDenied => Source::Forbidden,
        _ => Source::Failed,
    }
}

// The text of a sheet that an error keeps from being read. Want of memory is passed on.
fn lost(alloc: Global, error: io::Error) -> io::Result<Text>
    ensures { MatchResult result (IsLost error)
        (λ want. (want ≡ error) × (error_kind error ≡ ErrorKind.OutOfMemory)) }
{
    if error.kind() == ErrorKind::OutOfMemory {
        return Err(error);
    }
    Ok(Text {
        bytes: Vec::new(alloc),
        source: source_of(&error),
    })
}

/// The text of a sheet, of what came of opening its file. The one error is want of memory.
pub(crate) fn read_text<S: Stream>(alloc: Global, opened: io::Result<Option<S>>) -> io::Result<Text>
    ensures text { IfOk result (TextOf S.remaining S.fails opened) }
    ensures memory { IfErr result
        (λ error. (error_kind error ≡ ErrorKind.OutOfMemory) × WantsMemory opened error) }
{
    match opened {
        Ok(Some(stream)) => match read_start(alloc, stream) {
            Ok(text) => Ok(text),
            Err(error) => lost(alloc, error),
        },
        Ok(None) => Ok(Text {
            bytes: Vec::new(alloc),
            source: Source::NotRegular,
        }),
        Err(error) => lost(alloc, error),
    }
}
