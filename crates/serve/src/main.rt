// Answers frames of calls from standard input on standard output, until the input ends (oracle/README.md, "The frames").
// The comparison with the original asks this program.
#![tactic(auto)]

mod call;
mod estimator;
mod filter;
mod frame;
mod lent;
mod neighbours;
mod put;
mod sums;

use std::io::Read;
use words::get_word;

// Reads a frame and writes its answers, or where its first call asks for that, two sums of them; whether there was one.
fn serve_frame(
    rt: &impl Print,
    input: &mut impl Read,
    request: &mut [u8; 39_608],
    answers: &mut [u8; 55_200],
) -> bool {
    if input.read_exact(request).is_err() {
        return false;
    }
    frame::answer(request, answers);
    if get_word(request, 408) == 98 {
        return rt.write_all(&sums::sums(answers)).is_ok();
    }
    rt.write_all(answers).is_ok()
}

// A proved loop has to end, and nothing says that the input does: it stops after 2^40 frames, which no run reaches.
fn main(rt: HostRuntime) {
    let mut input = rt.reader();
    let mut request = [0u8; 39_608];
    let mut answers = [0u8; 55_200];
    for _ in 0u64..1_099_511_627_776 {
        if !serve_frame(&rt, &mut input, &mut request, &mut answers) {
            return;
        }
    }
}
