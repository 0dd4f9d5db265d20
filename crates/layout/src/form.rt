// Whether 51 words encode a state, word by word: only flags, floats, the phase and what may be unset can fail.
ghost use Rattle.std.specs.Prelude.{◌≡◌};
ghost use Rattle.layout.specs.Form.{float_fits, phase_fits, early_fits, late_fits, cycle_fits};
ghost use Rattle.layout.specs.StateWords.{is_state};

use words::maybe::maybe_fits;
use words::word::flag_fits;

// A float's pattern: 32 bits, and of the NaNs only one.
#[tactic(auto, unfolding(crate::specs::Form::float_fits))]
fn float_fits(w: u64) -> bool
    ensures { result ≡ float_fits w }
{
    (w <= 0xffff_ffff) & ((w % 0x8000_0000 <= 0x7f80_0000) | (w == 0x7fc0_0000))
}

fn phase_fits(w: u64) -> bool
    ensures { result ≡ phase_fits w }
{
    w <= 4
}

// Words 0 to 20.
#[tactic(auto, unfolding(crate::specs::Form::early_fits))]
fn early_fits(n: &[u64; 51]) -> bool
    ensures { result ≡ early_fits n.now }
{
    maybe_fits(n[2], n[3])
        & flag_fits(n[12])
        & maybe_fits(n[15], n[16])
        & float_fits(n[19])
        & float_fits(n[20])
}

// Words 21 to 34.
#[tactic(auto, unfolding(crate::specs::Form::late_fits))]
fn late_fits(n: &[u64; 51]) -> bool
    ensures { result ≡ late_fits n.now }
{
    flag_fits(n[21])
        & flag_fits(n[22])
        & flag_fits(n[26])
        & maybe_fits(n[27], n[28])
        & maybe_fits(n[29], n[30])
        & flag_fits(n[34])
}

// Words 35 to 50.
#[tactic(auto, unfolding(crate::specs::Form::cycle_fits))]
fn cycle_fits(n: &[u64; 51]) -> bool
    ensures { result ≡ cycle_fits n.now }
{
    phase_fits(n[35])
        & maybe_fits(n[40], n[41])
        & maybe_fits(n[43], n[44])
        & flag_fits(n[46])
        & flag_fits(n[47])
        & flag_fits(n[48])
        & flag_fits(n[49])
        & flag_fits(n[50])
}

// Whether the state that the words are read as is written in the same words.
#[tactic(auto, using(crate::proofs::Fits::form))]
pub fn is_state(words: &[u64; 51]) -> bool
    ensures { result ≡ is_state words.now }
{
    early_fits(words) & late_fits(words) & cycle_fits(words)
}
