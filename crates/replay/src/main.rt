// Replays a trace from standard input: a row for each line to standard output, and to standard error a summary
// (docs/TRACE.md).
#![tactic(auto)]

mod summary;

ghost use Rattle.std.specs.Prelude.{◌≤◌, ◌≡◌, IfOk, OnOk, length};
ghost use Rattle.trace.specs.Output.{last_replay};
ghost use Rattle.trace.specs.Pieces.{AnswersAll};

use console::input::{Header, read_header};
use console::pieces::{Program, Stopped, answer_all};
use console::said::{fail, fail_output, say};
use rows::row::put_row;
use std::io;
use std::io::{ErrorKind, Read};
use std::process::ExitCode;
use summary::summary;
use trace::Replay;
use trace::stream::{keep, run};

// Answers the lines of s, run after run, until one answers none, and answers where the bytes of a line that is not ended
// begin.
fn answer(rt: &impl Print, replay: &mut Replay, s: &[u8], out: &mut [u8]) -> io::Result<usize>
    ensures { IfOk result (λ at. AnswersAll s.now (length out.old) replay.old replay.new at) }
{
    let mut at: usize = 0;
    // How far a run gets is known only after it.
    while at < s.len() {
        let ran = run(*replay, s, at, out);
        if ran.at <= at {
            break;
        }
        rt.write_all(&out[..ran.written])?;
        *replay = ran.replay;
        at = ran.at;
    }
    Ok(at)
}

// The bytes after the last line feed are one more line.
fn last(rt: &impl Print, replay: &mut Replay, s: &[u8], out: &mut [u8]) -> io::Result<()>
    ensures { OnOk result (replay.new ≡ last_replay replay.old s.now) }
{
    if s.is_empty() {
        return Ok(());
    }
    if out.len() < 148 {
        return Err(io::Error::from(ErrorKind::WriteZero));
    }
    let stepped = replay.step(s);
    let n = put_row(out, 0, stepped.row);
    *replay = stepped.replay;
    rt.write_all(&out[..n])
}

// A replay, and where its rows go.
#[derive(Drop)]
struct Replaying<'a, R> {
    rt: &'a R,
    replay: Replay,
    out: [u8; 65_536],
}

impl<'a, R: Print> Program for Replaying<'a, R> {
    type Failed = io::Error;

    #[tactic(auto, using(trace::proofs::Moves::kept_few))]
    fn answer(&mut self, buf: &mut [u8], end: usize) -> io::Result<usize> {
        let at = answer(self.rt, &mut self.replay, &buf[..end], &mut self.out)?;
        Ok(keep(buf, at, end))
    }

    fn last(&mut self, s: &[u8]) -> io::Result<()> {
        last(self.rt, &mut self.replay, s, &mut self.out)
    }

    fn lines(&self) -> u64 {
        self.replay.line
    }
}

const UNREADABLE: &str = "the input can't be read";

const UNWRITABLE: &str = "the rows can't be written";

// Replays what follows the header, and says how that ended.
fn replay_rest(rt: &(impl Print + Eprint + Alloc), input: &mut impl Read) -> ExitCode {
    let mut program = Replaying {
        rt,
        replay: Replay::new(),
        out: [0u8; 65_536],
    };
    match answer_all(rt, &mut program, input) {
        Ok(()) => summary(rt, program.replay),
        Err(Stopped::Unreadable(e)) => fail(rt, UNREADABLE, e),
        Err(Stopped::Failed(e)) => return fail_output(rt, UNWRITABLE, e),
        Err(Stopped::TooLong) => say(rt, "the input is too long: 2^40 pieces were read\n"),
    }
    ExitCode::SUCCESS
}

// Writes the header of the rows, and the row that answers a wrong header.
fn begin(rt: &impl Print, header: Header) -> io::Result<()> {
    rt.write_all(b"line,refusal,round,max_bw,lo,hi\r\n")?;
    match header {
        Header::Right => Ok(()),
        Header::Wrong => rt.write_all(b"0,6,,,,\r\n"),
    }
}

// Says that the input can't be read.
fn unreadable(rt: &(impl Eprint + Alloc), e: io::Error) -> ExitCode {
    fail(rt, UNREADABLE, e);
    ExitCode::SUCCESS
}

// Replays an input that begins so.
fn replay_after(
    rt: &(impl Print + Eprint + Alloc),
    input: &mut impl Read,
    header: Header,
) -> ExitCode {
    if let Err(e) = begin(rt, header) {
        return fail_output(rt, UNWRITABLE, e);
    }
    if let Header::Wrong = header {
        say(rt, "the header is wrong or missing: nothing was replayed\n");
        return ExitCode::SUCCESS;
    }
    replay_rest(rt, input)
}

fn main(rt: HostRuntime) -> ExitCode {
    let mut input = rt.reader();
    match read_header(&mut input) {
        Ok(header) => replay_after(&rt, &mut input, header),
        Err(e) => unreadable(&rt, e),
    }
}
