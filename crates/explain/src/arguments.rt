// What a program that marks is asked by its arguments.
ghost use Rattle.std.specs.Prelude.{◌≡◌, map, IfErr, string_bytes};
ghost use Rattle.std.specs.IoError.{error_kind};
ghost use Rattle.explain.specs.Arguments.{Requests};

use std::io::ErrorKind;
use std::rt::Env;
use std::{env, io};

/// What is asked: to mark, to mark and explain, or nothing that is known.
#[derive(Clone, Copy, PartialEq, Eq, Debug)]
pub enum Request {
    Plain,
    Explain,
    Unknown,
}

/// How the program is to be called.
pub const USAGE: &str = "usage: mark [--explain]\n";

/// What arguments ask: none at all the report alone, and `--explain` alone the words with it.
pub fn request_of(arguments: &[String]) -> Request
    ensures { Requests (map (λ argument. string_bytes argument) arguments.now) result }
{
    match arguments {
        [] => Request::Plain,
        [only] if only.as_str() == "--explain" => Request::Explain,
        _ => Request::Unknown,
    }
}

/// What the arguments of the process ask. An argument that is no text is not known.
pub fn asked<R: Env + AllocGlobal>(rt: &R) -> io::Result<Request>
    ensures { IfErr result (λ error. error_kind error ≡ ErrorKind.OutOfMemory) }
{
    match env::args(rt) {
        Ok(arguments) => {
            let arguments: Vec<String> = arguments.skip(1).collect(rt.alloc())?;
            Ok(request_of(&arguments))
        }
        Err(error) if error.kind() != ErrorKind::OutOfMemory => Ok(Request::Unknown),
        Err(error) => Err(error),
    }
}
