// A list: a file of lines, each of decimal numbers with single spaces.
ghost use Rattle.std.specs.Prelude.{◌≤◌, ◌≡◌, length, take};

use console::said::fail;
use std::fs;
use std::io::Read;
use std::rt::Files;

// Reads the file of this name into the space, which is longer, and answers how many bytes it has; says
// so and answers 0 if it can't be opened.
pub fn read_file(rt: &(impl Files + Eprint + Alloc), name: &str, space: &mut [u8]) -> usize
    ensures { (result ≤ length space.new) × (result ≡ length (take result space.new)) }
{
    match fs::open(rt, name) {
        Ok(mut file) => read_full(&mut file, space),
        Err(e) => {
            fail(rt, name, e);
            0
        }
    }
}

// Reads until the space is full, the file ends or a read fails, and answers how many bytes it has put at the start of the
// space.
fn read_full(file: &mut impl Read, space: &mut [u8]) -> usize
    ensures { (result ≤ length space.new) × (result ≡ length (take result space.new)) }
{
    let mut done: usize = 0;
    // How much a read gives is known only after it.
    while done < space.len() {
        match file.read(&mut space[done..]) {
            Ok(0) => return done,
            Ok(n) => done += n,
            Err(_) => return done,
        }
    }
    done
}

// The numbers of a line, 0 past the last. The longest has 11.
pub fn read_line(line: &[u8]) -> [u64; 16] {
    let mut numbers = [0u64; 16];
    let mut last: usize = 0;
    for &b in line {
        match b {
            b'\n' => {}
            b' ' => last = (last + 1) % 16,
            _ => numbers[last] = with_digit(numbers[last], b),
        }
    }
    numbers
}

// A number with one digit more. No list has a number past 2^64 - 1; one would not be read right.
fn with_digit(n: u64, digit: u8) -> u64 {
    let tens = n % 1_844_674_407_370_955_162 * 10;
    tens.wrapping_add((digit % 16) as u64)
}

// Puts another digit for the last one of a list.
pub fn change_last(text: &mut [u8]) {
    let n = text.len();
    if n < 2 {
        return;
    }
    let last = n - 2;
    text[last] = text[last] % 10 + 48;
}
