// The lines of a piece, sifted: those that are kept into one lent range, the entries of the others into another.
ghost use Rattle.std.specs.Prelude.{◌≡◌, true, [], ◌+◌, ◌≤◌, is_ok, length, drop};
ghost use Rattle.rows.specs.Digits.{Put};
ghost use Rattle.trace.specs.Stream.{lines_from};
ghost use Rattle.mending.specs.Sorted.{kept_text, list_text};
ghost use Rattle.mending.specs.Sift.{sift_of, sifting, Sifts};

use crate::mend::{Mend, Sorted};
use rows::entry::{put_entry, put_text};
use text::find::end_of;

// What is known after the lines that were sifted, where the next line begins, and how much of each range was written.
#[derive(Clone, Copy)]
pub struct Sifted {
    pub mend: Mend,
    pub at: usize,
    pub kept: usize,
    pub listed: usize,
}

// Where the lines kept and the entries end.
#[derive(Clone, Copy)]
pub struct Ends {
    pub kept: usize,
    pub listed: usize,
}

// Writes a line that is kept, or the entry of another. (Each range goes with its index, as `MendDefined` names them.)
#[tactic(auto, using(crate::proofs::Lines::put_none), unfolding(crate::specs::Sorted::kept_text, crate::specs::Sorted::list_text))]
pub fn put_sorted(
    sorted: Sorted,
    line: &[u8],
    out: &mut [u8],
    kept: usize,
    list: &mut [u8],
    listed: usize,
) -> Ends
    requires { (is_ok sorted.reply ≡ true → length line.now ≤ 4096) × (kept + 4096 ≤ length out.old) × (listed + 43 ≤ length list.old) }
    ensures keeps { Put out.old out.new kept (kept_text sorted line.now) result.kept }
    ensures lists { Put list.old list.new listed (list_text sorted) result.listed }
{
    match sorted.reply {
        Ok(()) => Ends {
            kept: put_text(out, kept, line),
            listed,
        },
        Err(bad) => Ends {
            kept,
            listed: put_entry(list, listed, sorted.mend.line, bad.field),
        },
    }
}

// Beside `run` (trace): two outputs in place of one, and other laws.
// Sifts the lines of s from an index on, as long as there is room for a line and for an entry.
pub fn sift(mend: Mend, s: &[u8], from: usize, out: &mut [u8], list: &mut [u8]) -> Sifted
    ensures { Sifts (sift_of (length out.old) (length list.old) (lines_from [] (drop from s.now)) (sifting mend from))
        result
        out.old
        out.new
        list.old
        list.new }
{
    let mut sifted = Sifted {
        mend,
        at: from,
        kept: 0,
        listed: 0,
    };
    // No `for` over split lines: those don't say whether the last one is ended.
    while sifted.kept + 4096 <= out.len() && sifted.listed + 43 <= list.len() {
        let end = end_of(s, sifted.at, b'\n');
        if s.len() <= end {
            break;
        }
        let after = end + 1;
        let line = &s[sifted.at..after];
        let sorted = sifted.mend.take(line);
        let ends = put_sorted(sorted, line, out, sifted.kept, list, sifted.listed);
        sifted = Sifted {
            mend: sorted.mend,
            at: after,
            kept: ends.kept,
            listed: ends.listed,
        };
    }
    sifted
}
