// Prints of each folder of sheets whether what `mark` prints of them is in its expected.txt, and whether that is a report.
#![tactic(auto)]

use folder::print::print_folder;
use std::io::Write;
use std::process::ExitCode;
use std::{fs, io};

const FOLDERS: [&str; 7] = [
    "worked",
    "none",
    "stopped",
    "wrapping-2",
    "wrapping-4",
    "full",
    "fault",
];

fn show(rt: &HostRuntime, folder: &str) -> io::Result<()> {
    let mut printed = Vec::new(rt.alloc());
    let status = print_folder(rt, folder, &mut printed)?;
    let expected = fs::read(rt, &format!(in rt.alloc(); "{folder}/expected.txt")?)?;
    if *printed != *expected {
        return rt.stdout().write_all(&printed);
    }
    let what = if status == ExitCode::SUCCESS {
        "report"
    } else {
        "fault"
    };
    println!(rt; "{folder}: the {what} that is expected")
}

fn main(rt: HostRuntime) -> io::Result<()> {
    for folder in FOLDERS {
        show(&rt, folder)?;
    }
    Ok(())
}
