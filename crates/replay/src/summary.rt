// What is said on standard error at the end of a replay.
use console::said::{say, say_number};
use state::bounds::UNSET;
use trace::{Replay, Tally};

// A refusal's number, how often it was given, and what it means.
fn refusals(rt: &impl Eprint, number: &str, times: u64, meaning: &str) {
    if times == 0 {
        return;
    }
    say(rt, "  ");
    say(rt, number);
    say(rt, ": ");
    say_number(rt, times);
    say(rt, ", ");
    say(rt, meaning);
    say(rt, "\n");
}

// In the order in which they are asked.
fn all_refusals(rt: &impl Eprint, t: Tally) {
    refusals(
        rt,
        "6",
        t.text,
        "no line of a trace, or before an accepted start",
    );
    refusals(rt, "1", t.stored, "a stored number is out of bounds");
    refusals(rt, "2.1", t.window, "a window is above 2^40 bytes");
    refusals(rt, "2.2", t.bytes, "a byte count is above 2^40");
    refusals(
        rt,
        "2.3",
        t.bandwidth,
        "a bandwidth is above 2^40 bits per second",
    );
    refusals(rt, "2.4", t.length, "a length of time is above 2^36 ns");
    refusals(rt, "2.5", t.total, "a total is above 2^62 bytes");
    refusals(rt, "2.9", t.moment, "a moment is above 2^62 ns");
    refusals(
        rt,
        "3",
        t.earlier,
        "a moment is earlier than the last accepted one",
    );
    refusals(rt, "4", t.lower, "a total is lower than the one stored");
    refusals(rt, "10", t.unsent, "the acked number was never sent");
    refusals(rt, "5", t.full, "a counter is full");
}

pub(crate) fn summary(rt: &impl Eprint, replay: Replay) {
    let tally = replay.tally;
    say(rt, "lines: ");
    say_number(rt, replay.line);
    say(rt, "\nrefused: ");
    say_number(rt, tally.refused);
    if let Some(line) = tally.first {
        say(rt, ", first in line ");
        say_number(rt, line);
    }
    say(rt, "\n");
    all_refusals(rt, tally);
    say(rt, "rounds: ");
    say_number(rt, tally.rounds);
    say(rt, "\nlowest lo: ");
    if tally.lowest == UNSET {
        say(rt, "never set");
    } else {
        say_number(rt, tally.lowest);
    }
    say(rt, "\n");
}
