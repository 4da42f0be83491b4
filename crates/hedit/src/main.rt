//! hedit: reads an HTML page and a session of acts on it, and answers them.
//!
//! `hedit run` reads a session from standard input, `hedit replay` a page and the steps of a log,
//! and `hedit check` a bare page; `hedit bulk N` reads nothing, and makes a session of its own.
//! What is written and which status ends the program is proved at [`edit_session::run_session`].
#![tactic(auto)]

#[cfg(test)]
mod tests;

use edit_io::{ReadSource, WriteSink};
use edit_session::{Status, run_session};
use std::alloc::Global;
use std::env::Env;
use std::process::ExitCode;
use std::{env, io};

// The words after the program's name. A word that is no UTF-8 is in no grammar.
fn read_arguments<R: Env + Alloc<A = Global>>(rt: &R) -> Result<Vec<String>, Status> {
    let mut words = Vec::new(rt.alloc());
    match env::args(rt) {
        Ok(all) => {
            for word in all.skip(1) {
                if words.push(word).is_err() {
                    return Err(Status::Memory);
                }
            }
            Ok(words)
        }
        Err(error) if error.kind() == io::ErrorKind::InvalidData => Err(Status::Usage),
        Err(_) => Err(Status::Memory),
    }
}

fn main(rt: HostRuntime) -> ExitCode {
    let status = match read_arguments(&rt) {
        Ok(words) => {
            let mut input = ReadSource::new(rt.stdin());
            let mut output = WriteSink::new(rt.stdout());
            run_session(rt.alloc(), &words, &mut input, &mut output)
        }
        Err(status) => status,
    };
    ExitCode::from(status as u8)
}
