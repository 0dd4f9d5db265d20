// The lines of an input that comes in pieces. The bytes of a line that is not ended yet, at most 4,097 of them, stand before
// the next piece.
ghost use Rattle.std.specs.Prelude.{◌≡◌, [], length, drop};
ghost use Rattle.std.proofs.lemmas.List.Edits.{sets};
ghost use Rattle.trace.specs.Stream.{lines_from, ran_of, ran_text, kept_of, between};

use crate::replay::Replay;
use rows::row::put_row;
use text::find::end_of;

// The replay after the lines that were answered, where the next line begins, and how much was written.
#[derive(Clone, Copy)]
pub struct Ran {
    pub replay: Replay,
    pub at: usize,
    pub written: usize,
}

// Answers the lines of s from an index on, as long as there is room for a row.
pub fn run(replay: Replay, s: &[u8], from: usize, out: &mut [u8]) -> Ran
    ensures answers { result ≡ ran_of replay (lines_from [] (drop from s.now)) from 0 (length out.old) }
    ensures writes { out.new ≡ sets out.old
        0
        (ran_text replay (lines_from [] (drop from s.now)) 0 (length out.old)) }
{
    let mut ran = Ran {
        replay,
        at: from,
        written: 0,
    };
    // No `for` over split lines: those don't say whether the last one is ended.
    while ran.at < s.len() && 148 <= out.len() - ran.written {
        let end = end_of(s, ran.at, b'\n');
        if s.len() <= end {
            break;
        }
        let after = end + 1;
        let stepped = ran.replay.step(&s[ran.at..after]);
        ran = Ran {
            replay: stepped.replay,
            at: after,
            written: put_row(out, ran.written, stepped.row),
        };
    }
    ran
}

// Moves the bytes from one index to another, of which a line that is not ended consists, to the front, at most 4,097 of
// them, and answers how many.
pub fn keep(buf: &mut [u8], at: usize, end: usize) -> usize
    ensures counts { result ≡ length (kept_of (between buf.old at end)) }
    ensures moves { buf.new ≡ sets buf.old 0 (kept_of (between buf.old at end)) }
{
    let end = end.min(buf.len());
    let at = at.min(end);
    let n = (end - at).min(4097);
    buf.copy_within(at..at + n, 0);
    n
}
