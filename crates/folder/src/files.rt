// The files of a folder.
ghost use Rattle.std.specs.Prelude.{◌≡◌, IfOk, IfErr};
ghost use Rattle.std.specs.IoError.{error_kind};
ghost use Rattle.folder.specs.Folders.{IsText};

use crate::stream::Fallible;
use crate::text::Texts;
use crate::texts::read_sheets;
use std::fs::{File, Files};
use std::io::ErrorKind;
use std::{fs, io};

/// Opens a file to be read, if it is a regular one: a pipe would be waited for. No contract says
/// which bytes it has.
pub(crate) fn open_file<R: Files>(rt: &R, path: &str) -> io::Result<Option<Fallible<R::File>>> {
    if fs::metadata(rt, path)?.is_file() {
        Ok(Some(Fallible(File::open(rt, path)?)))
    } else {
        Ok(None)
    }
}

/// The texts of the sheets in a folder. The one error is want of memory.
pub fn read_folder<R: Files + AllocGlobal>(rt: &R, folder: &str) -> io::Result<Texts>
    ensures texts { IfOk result
        (λ texts. IsText texts.board × IsText texts.tasks × IsText texts.answer) }
    ensures memory { IfErr result (λ error. error_kind error ≡ ErrorKind.OutOfMemory) }
{
    read_sheets(rt.alloc(), folder, |path: &str| open_file(rt, path))
}
