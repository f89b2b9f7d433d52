//! Runs the program with the inputs and outputs of the operating system.
use crate::errors::tell;
use crate::program::run;
use kds_ends::{Status, StdSink, StdSource, SystemClock, TcpDoor};
use std::env;
use std::io::ErrorKind;
use std::process::ExitCode;
use std::sync::Wait;
use std::thread::Threads;

/// Returns the command-line arguments after the program's name. The result is `None` if memory runs out. If an argument
/// isn't UTF-8, the result is an empty list, which asks for no task.
fn given_words(rt: &HostRuntime) -> Option<Vec<String>> {
    let mut words = Vec::new(rt.alloc());
    match env::args(rt) {
        Ok(given) => {
            for word in given.skip(1) {
                words.push(word).ok()?;
            }
            Some(words)
        }
        Err(error) if error.kind() == ErrorKind::OutOfMemory => None,
        Err(_) => Some(words),
    }
}

/// Does the work of `main`: calls `run` with the command-line arguments, and with the system's standard input, standard
/// output, error output, clock and sockets. The function is in this library and not in the program's own crate, because
/// each check of that crate reloads everything that the program uses, and this takes long. Outside `main` and tests, a
/// value can be used as `Threads` and `Wait` only if its type is a type parameter. So `main` passes the host runtime
/// twice: as `rt`, and as `threads` for these two traits.
pub fn run_here<R: Threads + Wait + Sync>(rt: HostRuntime, threads: &R) -> ExitCode {
    let mut err = StdSink::new(rt.stderr());
    let Some(words) = given_words(&rt) else {
        tell(&mut err, Status::Memory);
        return ExitCode::from(Status::Memory.code());
    };
    let mut input = StdSource::new(rt.stdin());
    let mut out = StdSink::new(rt.stdout());
    let clock = SystemClock::new(rt);
    let mut door = TcpDoor::new(rt);
    ExitCode::from(run(
        threads,
        rt.alloc(),
        &words,
        &mut input,
        &mut out,
        &mut err,
        clock,
        &mut door,
    ))
}
