// Words, numbers of 64 bits with the lowest byte first, in byte slices: a part of the exported
// calls. These functions are no public entries: each asks that what it reads or writes lies within
// the slice.
#![tactic(auto)]

pub mod maybe;
pub mod word;

ghost use Rattle.std.specs.Prelude.{◌≡◌, ◌+◌, ◌*◌, ◌≤◌, length};
ghost use Rattle.std.proofs.lemmas.List.Edits.{sets};
ghost use Rattle.words.specs.Words.{word_at, bytes, words_at, all_bytes};

// The word at an index.
#[tactic(auto, using(crate::proofs::Turns::from_bytes))]
pub fn get_word(s: &[u8], at: usize) -> u64
    requires { at + 8 ≤ length s.now }
    ensures { result ≡ word_at s.now at }
{
    u64::from_le_bytes(s[at..at + 8].try_into().unwrap())
}

// Writes a word at an index.
#[tactic(auto, using(crate::proofs::Turns::to_bytes, crate::proofs::Turns::put_part, crate::proofs::Laws::length_bytes))]
pub fn put_word(out: &mut [u8], at: usize, x: u64)
    requires { at + 8 ≤ length out.old }
    ensures { out.new ≡ sets out.old at (bytes x) }
{
    out[at..at + 8].copy_from_slice(&x.to_le_bytes());
}

// Fills a slice with the words from an index on. By index: after an adapter of `iter_mut`, as `zip`, nothing is known of
// what was written.
#[tactic(auto, using(crate::proofs::Stores::sets_whole, crate::proofs::Laws::length_words_at), unfolding(crate::specs::Words::words_at))]
pub fn get_words(s: &[u8], at: usize, out: &mut [u64])
    requires { at + 8 * length out.old ≤ length s.now }
    ensures { out.new ≡ words_at s.now at (length out.old) }
{
    for i in 0..out.len() {
        out[i] = get_word(s, at + 8 * i);
    }
}

// Writes words one after the other, from an index on.
#[tactic(auto, using(crate::proofs::Turns::write_word, crate::proofs::Laws::length_bytes), unfolding(crate::specs::Words::all_bytes))]
pub fn put_words(out: &mut [u8], at: usize, words: &[u64])
    requires { at + 8 * length words.now ≤ length out.old }
    ensures { out.new ≡ sets out.old at (all_bytes words.now) }
{
    for (i, &word) in words.iter().enumerate() {
        put_word(out, at + 8 * i, word);
    }
}
