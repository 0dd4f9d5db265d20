// Text and right-aligned numbers on standard output. That it can't be written there is passed over.
pub fn text(rt: &impl Print, bytes: &[u8]) {
    let _ = rt.write_all(bytes);
}

fn space(rt: &impl Print) {
    text(rt, b" ");
}

fn spaces(rt: &impl Print, count: usize) {
    for _ in 0..count {
        space(rt);
    }
}

// How many digits a number has.
fn digit_count(n: u64) -> usize {
    match n.checked_ilog10() {
        None => 1,
        Some(tens) => tens as usize + 1,
    }
}

// A number, with spaces in front up to the width.
pub fn column(rt: &impl Print, n: u64, width: usize) {
    let k = digit_count(n);
    if k < width {
        spaces(rt, width - k);
    }
    let _ = rt.print(n);
}

// A number of thousandths, with three decimals.
pub fn decimals(rt: &impl Print, thousandths: u64, width: usize) {
    if width >= 4 {
        column(rt, thousandths / 1_000, width - 4);
    }
    text(rt, b".");
    digit(rt, thousandths / 100);
    digit(rt, thousandths / 10);
    digit(rt, thousandths);
}

// The last digit of a number.
fn digit(rt: &impl Print, n: u64) {
    column(rt, n % 10, 1);
}
