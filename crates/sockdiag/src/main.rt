//! The program `sockdiag`: each input line has a name and the bytes of a message of sock_diag(7) in
//! hex, and is answered by one line.
#![tactic(auto)]

use sock_diag_lines::{Choice, HELP, VERSION, choose, run_to_status};
use std::alloc::AllocError;
use std::env;
use std::io::{self, ErrorKind};
use std::process::ExitCode;

fn main(rt: HostRuntime) -> ExitCode {
    match read_choice(&rt) {
        Ok(Choice::Answer) => answer_lines(&rt, false),
        Ok(Choice::Strict) => answer_lines(&rt, true),
        Ok(Choice::Help) => status_of(&rt, rt.println(HELP)),
        Ok(Choice::Version) => status_of(&rt, println!(rt; "sockdiag {VERSION}")),
        Err(AllocError) => fail(&rt, "sockdiag: out of memory"),
    }
}

/// Returns what the command line requests. The only error is that an allocation failed.
fn read_choice(rt: &HostRuntime) -> Result<Choice, AllocError> {
    let mut arguments = match env::args(rt) {
        Ok(arguments) => arguments,
        Err(error) if error.kind() == ErrorKind::OutOfMemory => return Err(AllocError),
        // An argument is not valid UTF-8, so it is no option. Other arguments are ignored.
        Err(_) => return Ok(Choice::Answer),
    };
    let _program = arguments.next();
    let arguments = arguments.collect::<Vec<String>>(rt.alloc())?;
    Ok(choose(arguments.as_slice()))
}

/// Answers the lines of standard input, and returns the exit status. `is_strict`: the option
/// `--strict` was given.
fn answer_lines(rt: &HostRuntime, is_strict: bool) -> ExitCode {
    run_to_status(
        rt.alloc(),
        is_strict,
        &mut rt.stdin(),
        &mut rt.stdout(),
        &mut rt.stderr(),
    )
}

/// Returns status 0 if a text was printed. Otherwise reports that writing failed, and returns 1.
fn status_of(rt: &impl Eprint, printed: io::Result<()>) -> ExitCode {
    match printed {
        Ok(()) => ExitCode::SUCCESS,
        Err(_) => fail(rt, "sockdiag: writing failed"),
    }
}

/// Writes the line, which reports a failure, to standard error, and returns status 1.
fn fail(rt: &impl Eprint, line: &str) -> ExitCode {
    let _ = rt.eprintln(line);
    ExitCode::FAILURE
}
