// The answers, a line each.
ghost use Rattle.std.specs.Prelude.{◌≤◌, length};

use lines::output::{print, put, put_hex, put_number, write};

// The most bytes that are shown in hexadecimal; of more, their count and MD5 are shown.
const SHOWN: usize = 512;

// Answers a line that is no question, or has not its form.
pub(crate) fn bad_question(rt: &impl Print) {
    print(rt, b"bad question\n");
}

// Puts numbers with a blank between them into `out`, and returns where they end.
fn put_numbers(out: &mut [u8], numbers: &[usize]) -> usize
    ensures { result ≤ length out.new }
{
    let mut n = 0;
    for (k, number) in numbers.iter().enumerate() {
        if 0 < k {
            n = put(out, n, b" ");
        }
        n = put_number(out, n, *number);
    }
    n
}

// Answers with numbers.
pub(crate) fn show_numbers(rt: &impl Print, numbers: &[usize]) {
    let mut out = [0u8; 128];
    let a = put_numbers(&mut out, numbers);
    let b = put(&mut out, a, b"\n");
    write(rt, &out, b);
}

// Answers with numbers and the target's bytes.
pub(crate) fn show_target(rt: &impl Print, numbers: &[usize], target: &[u8]) {
    let mut out = [0u8; 1100];
    let a = put_numbers(&mut out, numbers);
    let b = put(&mut out, a, b" ");
    let c = put_hex(&mut out, b, target, SHOWN);
    let d = put(&mut out, c, b"\n");
    write(rt, &out, d);
}
