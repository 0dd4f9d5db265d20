// A thing that may be unset, as two words.
ghost use Rattle.std.specs.Prelude.{◌≡◌, ℕ, None, Some};
ghost use Rattle.words.specs.Maybe.{is_unset, maybe_fits, number_in, maybe_of, pair_of};

use crate::word::or_outside;
use units::{Bandwidth, Duration};

// What is one number: a bandwidth, a length of time, a plain number. A trait of its own: the laws of From and Into don't tie
// the two ways to each other.
pub trait AsNumber {
    ghost of: { ℕ → Self };

    ghost number: { Self → ℕ };

    fn of(n: u64) -> Self
        ensures { result ≡ of n };

    fn number(self) -> u64
        ensures { result ≡ number self };
}

impl AsNumber for Bandwidth {
    ghost of = { λ n. record { 0 = n } };

    ghost number = { λ b. b.0 };

    fn of(n: u64) -> Bandwidth {
        Bandwidth(n)
    }

    fn number(self) -> u64 {
        self.0
    }
}

impl AsNumber for Duration {
    ghost of = { λ n. record { 0 = n } };

    ghost number = { λ d. d.0 };

    fn of(n: u64) -> Duration {
        Duration(n)
    }

    fn number(self) -> u64 {
        self.0
    }
}

impl AsNumber for u64 {
    ghost of = { λ n. n };

    ghost number = { λ n. n };

    fn of(n: u64) -> u64 {
        n
    }

    fn number(self) -> u64 {
        self
    }
}

// Whether two words are 0 and 0.
pub fn is_unset(set: u64, number: u64) -> bool
    ensures { result ≡ is_unset set number }
{
    (set == 0) & (number == 0)
}

// Whether a writer writes two words.
pub fn maybe_fits(set: u64, number: u64) -> bool
    ensures { result ≡ maybe_fits set number }
{
    is_unset(set, number) | (set == 1)
}

// The number in two words, out of bounds where they are no writer's.
pub fn number_in(set: u64, number: u64) -> u64
    ensures { result ≡ number_in set number }
{
    or_outside(set == 1, number)
}

// What two words hold.
pub fn maybe_of<T: AsNumber>(set: u64, number: u64) -> Option<T>
    ensures { result ≡ maybe_of None (λ n. Some (T.of n)) set number }
{
    if is_unset(set, number) {
        None
    } else {
        Some(T::of(number_in(set, number)))
    }
}

// What may be unset as two words: 1 and the number, or 0 and 0.
pub fn pair_of<T: AsNumber>(held: Option<T>) -> (u64, u64)
    ensures { result ≡ pair_of T.number held }
{
    match held {
        None => (0, 0),
        Some(value) => (1, value.number()),
    }
}
