// Two sums over the words of a frame's answers. They stand for the answers where all of them would be too long.
use words::{get_word, put_words};

// The sum of the words, and the sum of the sums so far: both wrap.
pub fn sums(answers: &[u8; 55_200]) -> [u8; 16] {
    let mut sum: u64 = 0;
    let mut total: u64 = 0;
    for word in answers.chunks_exact(8) {
        sum = sum.wrapping_add(get_word(word, 0));
        total = total.wrapping_add(sum);
    }
    let mut out = [0u8; 16];
    put_words(&mut out, 0, &[sum, total]);
    out
}
