// Document 01's bounds.
// A test for each bound, by its name: the documents, the definitions and the table of faults have these names.
ghost use Rattle.std.specs.Prelude.{◌≡◌};
ghost use Rattle.state.specs.Bounds.{bytes_ok, bytes_or_unset_ok, total_ok, moment_ok, length_ok, bandwidth_ok, maybe_ok, fraction_ok, gain_ok};

use units::{Bandwidth, Duration, Moment};

pub const MOST_BYTES: u64 = 0x100_0000_0000;

pub const MOST_TOTAL: u64 = 0x4000_0000_0000_0000;

pub const MOST_LENGTH: u64 = 0x10_0000_0000;

// What stands for an unset bound of bytes: the original has a number there, and the exported words show it.
pub const UNSET: u64 = u64::MAX;

// A byte count is at most 2^40.
pub fn bytes_ok(n: u64) -> bool
    ensures { result ≡ bytes_ok n }
{
    n <= MOST_BYTES
}

// A byte count that may also be unset.
pub fn bytes_or_unset_ok(n: u64) -> bool
    ensures { result ≡ bytes_or_unset_ok n }
{
    (n <= MOST_BYTES) | (n == UNSET)
}

// A total, or an event's bytes, is at most 2^62.
pub fn total_ok(n: u64) -> bool
    ensures { result ≡ total_ok n }
{
    n <= MOST_TOTAL
}

// A moment is at most 2^62 ns.
pub fn moment_ok(m: Moment) -> bool
    ensures { result ≡ moment_ok m }
{
    m.0 <= MOST_TOTAL
}

// A length of time is at most 2^36 ns.
pub fn length_ok(d: Duration) -> bool
    ensures { result ≡ length_ok d }
{
    d.0 <= MOST_LENGTH
}

// A bandwidth is at most 2^40 bits per second.
pub fn bandwidth_ok(b: Bandwidth) -> bool
    ensures { result ≡ bandwidth_ok b }
{
    b.0 <= MOST_BYTES
}

// A bandwidth that may be missing.
pub fn maybe_ok(b: Option<Bandwidth>) -> bool
    ensures { result ≡ maybe_ok b }
{
    b.is_none_or(|held| bandwidth_ok(held))
}

// A threshold or a headroom is from 0 to 1; a NaN is not.
#[tactic(auto, unfolding(crate::specs::Bounds::within))]
pub(crate) fn fraction_ok(x: f32) -> bool
    ensures { result ≡ fraction_ok x }
{
    (0.0 <= x) & (x <= 1.0)
}

// A gain is from 1/1024 to 8.
#[tactic(auto, unfolding(crate::specs::Bounds::within))]
pub fn gain_ok(x: f32) -> bool
    ensures { result ≡ gain_ok x }
{
    (0.0009765625 <= x) & (x <= 8.0)
}
