// An input that comes in pieces: the lines of each are answered, and the bytes of a line that is not ended stand before the
// next.
ghost use Rattle.std.specs.Prelude.{◌≤◌, IfOk, IfSome, length};

use crate::input::read_piece;
use crate::said::progress;
use std::io;
use std::io::Read;

// What a program does with the lines that follow a trace's header.
pub trait Program {
    type Failed;

    // Answers the lines of so many bytes, puts those of a line that is not ended to the front, and answers how many.
    fn answer(&mut self, buf: &mut [u8], end: usize) -> Result<usize, Self::Failed>
        requires { end ≤ length buf.old }
        ensures { IfOk result (λ n. n ≤ 4097) };

    // The bytes after the last line feed are one more line.
    fn last(&mut self, s: &[u8]) -> Result<(), Self::Failed>;

    // How many lines were answered.
    fn lines(&self) -> u64;
}

// Why an input was not answered to its end.
#[derive(Clone, Copy)]
pub enum Stopped<E> {
    Unreadable(io::Error),
    Failed(E),
    TooLong,
}

// Reads a piece and answers its lines: how many bytes are held for the next. A piece of no bytes is the end of the input.
fn answer_piece<P: Program>(
    program: &mut P,
    input: &mut impl Read,
    buf: &mut [u8; 69_633],
    held: usize,
) -> Result<Option<usize>, Stopped<P::Failed>>
    requires { held ≤ 4097 }
    ensures { IfOk result (λ next. IfSome next (λ n. n ≤ 4097)) }
{
    // By `match`: the check doesn't take `map_err` with a variant that holds a type parameter.
    let got = match read_piece(input, buf, held) {
        Ok(got) => got,
        Err(e) => return Err(Stopped::Unreadable(e)),
    };
    if got == 0 {
        return match program.last(&buf[..held]) {
            Ok(()) => Ok(None),
            Err(e) => Err(Stopped::Failed(e)),
        };
    }
    match program.answer(buf, held + got) {
        Ok(next) => Ok(Some(next)),
        Err(e) => Err(Stopped::Failed(e)),
    }
}

// Answers all lines of an input, and says how far it is. A proved loop has to end, and nothing says that the input does: it
// stops after 2^40 pieces, which no input has.
pub fn answer_all<P: Program>(
    rt: &impl Eprint,
    program: &mut P,
    input: &mut impl Read,
) -> Result<(), Stopped<P::Failed>> {
    let mut buf = [0u8; 69_633];
    let mut held: usize = 0;
    for _ in 0u64..1_099_511_627_776 {
        let before = program.lines();
        let piece = answer_piece(program, input, &mut buf, held);
        progress(rt, before, program.lines());
        match piece? {
            Some(next) => held = next,
            None => return Ok(()),
        }
    }
    Err(Stopped::TooLong)
}
