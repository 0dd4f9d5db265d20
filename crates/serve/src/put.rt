// Calls 98 and 99: put words into the state.
ghost use Rattle.std.specs.Prelude.{◌≡◌, length};

use crate::lent::at_most;
use words::{get_word, put_word};

// Word 1 of the call is how many words are put, at most 23; after it stand their indices and values by turns.
pub fn put(state: &mut [u8], call: &[u8])
    requires { (length state.old ≡ 408) × (length call.now ≡ 392) }
{
    let count = at_most(get_word(call, 8), 23);
    for pair in call[16..16 + 16 * count].chunks_exact(16) {
        put_one(state, get_word(pair, 0), get_word(pair, 8));
    }
}

// Puts a word into the state; an index past it is passed over.
fn put_one(state: &mut [u8], index: u64, value: u64)
    requires { length state.old ≡ 408 }
{
    if index < 51 {
        put_word(state, 8 * (index as usize), value);
    }
}
