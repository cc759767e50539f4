//! The program: it reads commands over a tree of rectangles, a line each, and prints an answer to each.
//! `pack` writes the stored form of points, `unpack` prints the points of a stored tree.
#![tactic(auto)]

mod answers;
mod command;
mod items;
mod lines;
mod modes;
mod number;
mod points;
mod print;
mod program;
mod source;
mod stops;
mod store;
mod stored;
#[cfg(test)]
mod tests;
mod words;

use program::{Mode, mode, pack, run, unpack};
use std::io::ErrorKind;
use std::process::ExitCode;
use std::rt::Env;
use std::{env, io};
use stops::Stop;
use stored::{Fault, refuse};

fn main(rt: HostRuntime) -> ExitCode {
    let mut output = io::writer(&rt);
    let status = match given_words(&rt) {
        Ok(words) => match mode(&words) {
            Some(Mode::Run) => run(rt.alloc(), rt.reader(), &mut output),
            Some(Mode::Pack) => pack(rt.alloc(), rt.reader(), &mut output),
            Some(Mode::Unpack) => unpack(rt.alloc(), rt.reader(), &mut output),
            None => refuse(Fault::Usage, &mut output),
        },
        Err(fault) => refuse(fault, &mut output),
    };
    ExitCode::from(status)
}

/// The words after the program's name. A word that is not text is a usage error.
fn given_words<R: Env + AllocGlobal>(rt: &R) -> Result<Vec<String>, Fault> {
    match env::args(rt) {
        Ok(args) => Ok(args.skip(1).collect(rt.alloc())?),
        Err(e) => match e.kind() {
            ErrorKind::OutOfMemory => Err(Fault::Stop(Stop::Memory)),
            _ => Err(Fault::Usage),
        },
    }
}
