// The texts of the sheets in a folder.
ghost use Rattle.std.specs.Prelude.{◌≡◌, IfOk, IfErr, string_bytes};
ghost use Rattle.std.specs.Fn.{FnReturnsAt};
ghost use Rattle.std.specs.IoError.{error_kind};
ghost use Rattle.folder.specs.Folders.{path_of, IsSheetText, AreTexts};

use crate::read::read_text;
use crate::stream::Stream;
use crate::text::{Text, Texts};
use explain::file::file_name;
use sheets::Form;
use std::alloc::{AllocError, Global};
use std::io;
use std::io::ErrorKind;

// The path of the file that has a sheet.
fn path_of(alloc: Global, folder: &str, form: Form) -> Result<String, AllocError>
    ensures { IfOk result (λ path. string_bytes path ≡ path_of folder.now form) }
{
    let name = file_name(form);
    format!(in alloc; "{folder}/{name}")
}

// The text of a sheet in a folder.
fn read_sheet<S: Stream, F: Fn(&str) -> io::Result<Option<S>>>(
    alloc: Global,
    folder: &str,
    form: Form,
    opener: &F,
) -> io::Result<Text>
    requires { F.IsAlwaysCallable opener.now }
    ensures text { IfOk result
        (IsSheetText S.remaining S.fails (FnReturnsAt F.Fn opener.now) folder.now form) }
    ensures memory { IfErr result (λ error. error_kind error ≡ ErrorKind.OutOfMemory) }
{
    let path = path_of(alloc, folder, form)?;
    read_text(alloc, opener(&path))
}

/// The texts of the sheets in a folder, each of what the opener gives at its file's path. The one
/// error is want of memory.
pub fn read_sheets<S: Stream, F: Fn(&str) -> io::Result<Option<S>>>(
    alloc: Global,
    folder: &str,
    opener: F,
) -> io::Result<Texts>
    requires { F.IsAlwaysCallable opener }
    ensures texts { IfOk result
        (AreTexts S.remaining S.fails (FnReturnsAt F.Fn opener) folder.now) }
    ensures memory { IfErr result (λ error. error_kind error ≡ ErrorKind.OutOfMemory) }
{
    Ok(Texts {
        board: read_sheet(alloc, folder, Form::Board, &opener)?,
        tasks: read_sheet(alloc, folder, Form::Tasks, &opener)?,
        answer: read_sheet(alloc, folder, Form::Answer, &opener)?,
    })
}
