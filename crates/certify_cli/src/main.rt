//! The program `certify`, which passes its arguments and its standard streams to `certify::program`.
#![tactic(auto)]

ghost use Rattle.std.specs.Prelude.{◌≡◌, IfOk, drop};
ghost use Rattle.std.specs.Vec.Iter.{into_iter_items};

use certify::program::program;
use sat_base::Counted;
use std::alloc::{AllocError, Global};
use std::env::Args;
use std::fs::{File, OpenOptions};
use std::os::fd::AsFd;
use std::process::ExitCode;
use std::rt::Env;
use std::{env, io};

/// The exit status after a fault.
const FAILED: u8 = 3;
/// The system's error code for a descriptor that is not open, `EBADF`.
const NOT_OPEN: i32 = 9;

/// Returns all arguments but the first.
fn after_first(alloc: Global, mut words: Args) -> Result<Vec<String>, AllocError>
    ensures { IfOk result (λ following. following.items ≡ drop 1 (into_iter_items words)) }
{
    let _first = words.next();
    let mut following = Vec::new(alloc);
    for word in words {
        following.push(word)?;
    }
    Ok(following)
}

/// Returns the arguments after the program's own name.
fn arguments<R: Env + AllocGlobal>(rt: &R) -> io::Result<Vec<String>> {
    let words = env::args(rt)?;
    Ok(after_first(rt.alloc(), words)?)
}

/// Returns `true` if the descriptor of a stream is open.
fn is_open<S: AsFd>(stream: &S) -> bool {
    match stream.as_fd().try_clone_to_owned() {
        Ok(_) => true,
        Err(e) => e.raw_os_error() != Some(NOT_OPEN),
    }
}

/// Opens `/dev/null` as the descriptor of a stream if that descriptor is not open. Otherwise the next file to be opened
/// would get the descriptor, and receive what is written to the stream. All lower descriptors must be open.
fn hold<S: AsFd>(rt: &HostRuntime, stream: &S) -> io::Result<Option<File>> {
    if is_open(stream) {
        return Ok(None);
    }
    let mut options = OpenOptions::new();
    options.read(true).write(true);
    Ok(Some(options.open(rt, "/dev/null")?))
}

/// Calls the program, after opening any standard stream that is closed.
fn call(rt: &HostRuntime) -> io::Result<u8> {
    let input = rt.stdin();
    let output = rt.stdout();
    let errors = rt.stderr();
    let _input = hold(rt, &input)?;
    let _output = hold(rt, &output)?;
    let _errors = hold(rt, &errors)?;
    let arguments = arguments(rt);
    let mut input = Counted::new(input);
    let mut output = Counted::new(output);
    let mut errors = Counted::new(errors);
    Ok(program(rt, arguments, &mut input, &mut output, &mut errors))
}

/// Runs the program, and returns its status. If a closed standard stream can't be opened, returns the status for a
/// fault without doing anything.
fn main(rt: HostRuntime) -> ExitCode {
    ExitCode::from(call(&rt).unwrap_or(FAILED))
}
