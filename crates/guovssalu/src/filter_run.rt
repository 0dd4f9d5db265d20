// The windowed filter, run over pairs of a time and a sample.
ghost use Rattle.std.specs.Prelude.{◌≡◌, length};
ghost use Rattle.guovssalu.specs.FilterRun.{run_reply, run_out};

use pairs::pairs::{run_reply, write_run};

// The filter's three samples after each pair of the source and why they moved, four words to a pair:
// 2.8 at place 2 for bytes not in whole sixteens, 3 where a pair is refused, 7 for an output under 32 bytes a pair.
pub fn guovssalu_filter_run(window: u64, src: &[u8], out: &mut [u8]) -> u64
    ensures value { result ≡ run_reply window src.now (length out.old) }
    ensures out_after { out.new ≡ run_out window src.now out.old }
{
    if let Err(refusal) = run_reply(window, src, out.len()) {
        return refusal.word();
    }
    write_run(window, src, out);
    0
}
