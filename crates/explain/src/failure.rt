// What is said where a report could not be printed.
ghost use Rattle.std.specs.Prelude.{OnOk};
ghost use Rattle.std.specs.IoError.{error_kind};
ghost use Rattle.explain.specs.Failures.{PrintsFailure};

use std::alloc::Global;
use std::io;
use std::io::{ErrorKind, Write};

/// Says, for people, why a report could not be printed: memory is lacking, or its output could not
/// be written, with the error's own words. It fails where this cannot be written either.
pub fn print_failure<E: Write>(alloc: Global, error: &io::Error, err: &mut E) -> io::Result<()>
    ensures { OnOk result
        (PrintsFailure (error_kind error.now) (E.contents err.old) (E.contents err.new)) }
{
    match error.kind() {
        ErrorKind::OutOfMemory => err.write_all(b"mark: memory is lacking\n"),
        _ => {
            let words = error.to_string(alloc)?;
            let line = format!(in alloc; "mark: the report could not be written: {words}\n")?;
            err.write_all(line.as_bytes())
        }
    }
}
