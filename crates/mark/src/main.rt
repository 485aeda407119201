// Prints what there is to say of board.txt, tasks.txt and answer.txt in the folder that it is
// started in; with --explain it says on standard error what that means. The status is 1 after a
// fault, and where an output could not be written or memory is lacking, and 2 after arguments that
// are not known.
#![tactic(auto)]

use explain::Request;
use explain::arguments::{USAGE, asked};
use explain::failure::print_failure;
use folder::print::{explain_folder, print_folder};
use std::io;
use std::io::Write;
use std::process::ExitCode;

// Does what the arguments ask.
fn run(rt: &HostRuntime) -> io::Result<ExitCode> {
    match asked(rt)? {
        Request::Plain => print_folder(rt, ".", &mut rt.stdout()),
        Request::Explain => explain_folder(rt, ".", &mut rt.stdout(), &mut rt.stderr()),
        Request::Unknown => {
            rt.stderr().write_all(USAGE.as_bytes())?;
            Ok(ExitCode::from(2))
        }
    }
}

fn main(rt: HostRuntime) -> ExitCode {
    match run(&rt) {
        Ok(status) => status,
        Err(error) => {
            // Where this cannot be said either, the status tells.
            let _ = print_failure(rt.alloc(), &error, &mut rt.stderr());
            ExitCode::FAILURE
        }
    }
}
