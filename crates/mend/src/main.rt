// Mends a trace from standard input: the lines that are kept to standard output, and the list of the others to the file that
// is named (docs/TRACE.md).
#![tactic(auto)]

mod list;

ghost use Rattle.std.specs.Prelude.{◌≤◌, [], ◌≡◌, IfOk, OnOk, length, drop};
ghost use Rattle.trace.specs.Stream.{lines_from, rest_from};
ghost use Rattle.mending.specs.Mend.{last_line};
ghost use Rattle.mending.specs.Pieces.{mend_after};

use console::input::{Header, read_header};
use console::pieces::{Program, Stopped, answer_all};
use console::said::{fail, fail_output, say, say_number};
use mending::Mend;
use mending::sift::{put_sorted, sift};
use std::env::Env;
use std::fs::OpenFile;
use std::io;
use std::io::{Read, Seek, Write};
use std::os::fd::AsRawFd;
use std::process::ExitCode;
use std::rt::Files;
use trace::stream::keep;

// What failed, and why.
#[derive(Clone, Copy)]
enum Failed {
    Input(io::Error),
    Trace(io::Error),
    List(io::Error),
}

fn write_both(
    rt: &impl Print,
    list: &mut impl Write,
    lines: &[u8],
    entries: &[u8],
) -> Result<(), Failed> {
    rt.write_all(lines).map_err(Failed::Trace)?;
    list.write_all(entries).map_err(Failed::List)
}

// Sifts the lines of s, run after run, until one sifts none, and answers where the bytes of a line that is not ended begin.
fn answer(
    rt: &impl Print,
    list: &mut impl Write,
    mend: &mut Mend,
    s: &[u8],
    out: &mut [u8],
    entries: &mut [u8],
) -> Result<usize, Failed>
    requires { (4096 ≤ length out.old) × (43 ≤ length entries.old) }
    ensures { IfOk result (λ at.
        (mend.new ≡ mend_after mend.old (lines_from [] s.now)) × (drop at s.now ≡ rest_from [] s.now)) }
{
    let mut at: usize = 0;
    // How far a run gets is known only after it.
    while at < s.len() {
        let sifted = sift(*mend, s, at, out, entries);
        if sifted.at <= at {
            break;
        }
        write_both(rt, list, &out[..sifted.kept], &entries[..sifted.listed])?;
        *mend = sifted.mend;
        at = sifted.at;
    }
    Ok(at)
}

// The bytes after the last line feed are one more line.
fn last(
    rt: &impl Print,
    list: &mut impl Write,
    mend: &mut Mend,
    s: &[u8],
    out: &mut [u8],
    entries: &mut [u8],
) -> Result<(), Failed>
    requires { (4096 ≤ length out.old) × (43 ≤ length entries.old) }
    ensures { OnOk result (mend.new ≡ mend_after mend.old (last_line s.now)) }
{
    if s.is_empty() {
        return Ok(());
    }
    let sorted = mend.take(s);
    let ends = put_sorted(sorted, s, out, 0, entries, 0);
    *mend = sorted.mend;
    write_both(rt, list, &out[..ends.kept], &entries[..ends.listed])
}

// A mending, and where its lines and its entries go.
#[derive(Drop)]
struct Mending<'a, R, L> {
    rt: &'a R,
    list: L,
    mend: Mend,
    out: [u8; 73_729],
    entries: [u8; 65_536],
}

impl<'a, R: Print, L: Write> Program for Mending<'a, R, L> {
    type Failed = Failed;

    #[tactic(auto, using(trace::proofs::Moves::kept_few))]
    fn answer(&mut self, buf: &mut [u8], end: usize) -> Result<usize, Failed> {
        let at = answer(
            self.rt,
            &mut self.list,
            &mut self.mend,
            &buf[..end],
            &mut self.out,
            &mut self.entries,
        )?;
        Ok(keep(buf, at, end))
    }

    fn last(&mut self, s: &[u8]) -> Result<(), Failed> {
        last(
            self.rt,
            &mut self.list,
            &mut self.mend,
            s,
            &mut self.out,
            &mut self.entries,
        )
    }

    fn lines(&self) -> u64 {
        self.mend.line
    }
}

// Says what failed, and answers what the program ends with.
fn say_failed(rt: &(impl Eprint + Alloc), failed: Failed) -> ExitCode {
    match failed {
        Failed::Input(e) => fail(rt, "the input can't be read", e),
        Failed::Trace(e) => return fail_output(rt, "the mended trace can't be written", e),
        Failed::List(e) => fail(rt, "the list can't be written", e),
    }
    ExitCode::SUCCESS
}

// Says what failed, and leaves no list, but where the reader of a pipe has gone: an unfinished one.
fn give_up(rt: &(impl Files + Eprint + Alloc), name: &str, failed: Failed) -> ExitCode {
    let code = say_failed(rt, failed);
    if code == ExitCode::SUCCESS {
        list::remove(rt, name);
    }
    code
}

// Finishes the list, and says what was mended.
fn finish_list(
    rt: &(impl Files + Eprint + Alloc),
    name: &str,
    mend: Mend,
    list: &mut (impl Write + Seek + OpenFile),
) -> ExitCode {
    if let Err(e) = list::finish(list) {
        return give_up(rt, name, Failed::List(e));
    }
    say(rt, "lines: ");
    say_number(rt, mend.line);
    say(rt, "\nkept: ");
    say_number(rt, mend.kept);
    say(rt, "\nlisted: ");
    say_number(rt, mend.listed);
    say(rt, "\n");
    ExitCode::SUCCESS
}

// Writes what stands at the head of the list, and the header of the mended trace.
fn begin(rt: &impl Print, list: &mut impl Write) -> Result<(), Failed> {
    list::begin(list).map_err(Failed::List)?;
    write_both(
        rt,
        list,
        b"kind,time,cwnd,inflight,number,bytes,acked,lost,bw,rtt,probing\r\n",
        b"",
    )
}

// Mends what follows the header into a list that was just made, and says how that ended.
fn mend_into(
    rt: &(impl Files + Print + Eprint + Alloc),
    input: &mut impl Read,
    name: &str,
    list: impl Write + Seek + OpenFile + Drop,
) -> ExitCode {
    let mut program = Mending {
        rt,
        list,
        mend: Mend::new(),
        out: [0u8; 73_729],
        entries: [0u8; 65_536],
    };
    if let Err(failed) = begin(rt, &mut program.list) {
        return give_up(rt, name, failed);
    }
    match answer_all(rt, &mut program, input) {
        Ok(()) => finish_list(rt, name, program.mend, &mut program.list),
        Err(Stopped::Unreadable(e)) => give_up(rt, name, Failed::Input(e)),
        Err(Stopped::Failed(failed)) => give_up(rt, name, failed),
        Err(Stopped::TooLong) => {
            say(rt, "the input is too long: 2^40 pieces were read\n");
            list::remove(rt, name);
            ExitCode::SUCCESS
        }
    }
}

// Makes the list. Where a standard stream is closed the list would be that stream: then there is none.
fn made<R: Files>(rt: &R, name: &str) -> io::Result<Option<R::File>>
where
    R::File: AsRawFd,
{
    let list = list::make(rt, name)?;
    if list.as_raw_fd() < 3 {
        drop(list);
        list::remove(rt, name);
        return Ok(None);
    }
    Ok(Some(list))
}

// Mends what follows the header.
fn mend_rest<R: Files + Env + Print + Eprint + Alloc>(rt: &R, input: &mut impl Read) -> ExitCode
where
    R::File: AsRawFd,
{
    let mut space = [0u8; 4_096];
    let name = match list::name_in(rt, &mut space) {
        Ok(name) => name,
        Err(e) => return unmade(rt, e),
    };
    match made(rt, name) {
        Ok(Some(list)) => mend_into(rt, input, name, list),
        Ok(None) => told(
            rt,
            "standard output or standard error is closed: nothing was mended\n",
        ),
        Err(e) => unmade(rt, e),
    }
}

// Says that the list can't be made.
fn unmade(rt: &(impl Eprint + Alloc), e: io::Error) -> ExitCode {
    fail(rt, "the list can't be made", e);
    ExitCode::SUCCESS
}

// Says why nothing was mended.
fn told(rt: &impl Eprint, why: &str) -> ExitCode {
    say(rt, why);
    ExitCode::SUCCESS
}

fn main(rt: HostRuntime) -> ExitCode {
    if !list::is_named(&rt) {
        return told(
            &rt,
            "name the list, and nothing else: mend LIST <trace >mended\n",
        );
    }
    let mut input = rt.reader();
    match read_header(&mut input) {
        Ok(Header::Right) => mend_rest(&rt, &mut input),
        Ok(Header::Wrong) => told(&rt, "6\n"),
        Err(e) => say_failed(&rt, Failed::Input(e)),
    }
}
