//! Reads commands, one to a line, and prints what comes of each.
#![tactic(auto)]

mod commands;
mod console;
mod sessions;

use console::{Console, Printer};
use sessions::run;
use std::io::Read;
use std::process::ExitCode;
use std::{env, fs};
use text::Lines;

/// The file that the command line names, or standard input; none where that is refused, which is said on standard error.
fn input(rt: &HostRuntime) -> anyhow::Result<Option<Vec<u8>>> {
    let mut args = env::args(rt)?;
    let _ = args.next();
    let Some(path) = args.next() else {
        let mut bytes = Vec::new(rt.alloc());
        rt.stdin().read_to_end(&mut bytes)?;
        return Ok(Some(bytes));
    };
    if args.next().is_some() {
        eprintln!(rt; "survivorship: one file at most")?;
        return Ok(None);
    }
    match fs::read(rt, path.as_str()) {
        Ok(bytes) => Ok(Some(bytes)),
        Err(e) => {
            eprintln!(rt; "survivorship: {path}: {e}")?;
            Ok(None)
        }
    }
}

/// The status is 1 where a line was not understood, and where the input was refused.
fn main(rt: HostRuntime) -> anyhow::Result<ExitCode> {
    let Some(input) = input(&rt)? else {
        return Ok(ExitCode::FAILURE);
    };
    let mut console = Console {
        lines: Lines::new(rt.alloc(), &input),
        printer: Printer::new(rt.alloc(), rt.stdout())?,
    };
    run(&mut console)?;
    if console.printer.finish()? {
        return Ok(ExitCode::SUCCESS);
    }
    Ok(ExitCode::FAILURE)
}
