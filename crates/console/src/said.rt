// What is said on standard error. That it can't be written there is passed over: nobody could be told.
use std::io;
use std::io::ErrorKind;
use std::process::ExitCode;

pub fn say(rt: &impl Eprint, text: &str) {
    let _ = rt.eprint(text);
}

pub fn say_number(rt: &impl Eprint, n: u64) {
    let _ = rt.eprint(n);
}

// A line: what failed, and why, as the system says it.
pub fn fail(rt: &(impl Eprint + Alloc), what: &str, why: io::Error) {
    say(rt, what);
    say(rt, ": ");
    match format!(in rt.alloc(); "{why}") {
        Ok(text) => say(rt, reason(text.as_str())),
        Err(_) => {
            let _ = rt.eprint(why);
        }
    }
    say(rt, "\n");
}

// The same of a write to standard output, and what the program ends with. Where the reader of a pipe has gone nothing is
// said, and it is 141: what a shell says of a program that SIGPIPE ends.
pub fn fail_output(rt: &(impl Eprint + Alloc), what: &str, why: io::Error) -> ExitCode {
    if why.kind() == ErrorKind::BrokenPipe {
        return ExitCode::from(141);
    }
    fail(rt, what, why);
    ExitCode::SUCCESS
}

// The words alone: std puts the error's number behind them.
fn reason(text: &str) -> &str {
    match text.split_once(" (os error ") {
        Some((words, _)) => words,
        None => text,
    }
}

// A line whenever 2^22 lines more are answered.
pub fn progress(rt: &impl Eprint, before: u64, after: u64) {
    let times = after / 4_194_304;
    if before / 4_194_304 < times {
        say_number(rt, times * 4_194_304);
        say(rt, " lines\n");
    }
}
