// What became of each request, in lines on standard error. The last line says `transferred N bytes` or `failed`.
use base::wide;
use client_model::{Outcome, end_number, refusal_number};
use lines::output::{least, print, put, put_byte, put_line_at, put_number};

// What a line says behind the operation's name.
#[derive(Clone, Copy)]
enum Said {
    Code { words: usize, code: u8 },
    Number { words: usize, number: u8 },
    Nothing,
}

fn write(err: &impl Print, out: &[u8], n: usize) {
    let k = least(n, out.len());
    print(err, &out[0..k]);
}

fn said_of(outcome: Outcome) -> Said {
    match outcome {
        Outcome::Done { code, length: _ } => Said::Code { words: 0, code },
        Outcome::Stopped { code, length: _ } => Said::Code { words: 1, code },
        Outcome::Aborted { code, length: _ } => Said::Code { words: 2, code },
        Outcome::End(end) => Said::Number {
            words: 3,
            number: end_number(end),
        },
        Outcome::Refused(refusal) => Said::Number {
            words: 4,
            number: refusal_number(refusal),
        },
        _ => Said::Nothing,
    }
}

fn put_said(out: &mut [u8], n: usize, said: Said) -> usize {
    let texts = b" \n stopped 25 \n aborted \n end \n refused \n";
    match said {
        Said::Code { words, code } => {
            let a = put_line_at(out, n, texts, words);
            put_byte(out, a, code)
        }
        Said::Number { words, number } => {
            let a = put_line_at(out, n, texts, words);
            put_number(out, a, wide(number))
        }
        Said::Nothing => n,
    }
}

// Tells what became of the operation with the number `k`: connect, put, get or disconnect.
pub(crate) fn outcome(err: &impl Print, k: usize, outcome: Outcome) {
    let mut out = [0u8; 64];
    let a = put_line_at(&mut out, 0, b"connect\nput\nget\ndisconnect\n", k);
    let b = put_said(&mut out, a, said_of(outcome));
    let c = put(&mut out, b, b"\n");
    write(err, &out, c);
}

// Tells how the transfer ended.
pub(crate) fn end(err: &impl Print, is_done: bool, bytes: usize) {
    if !is_done {
        print(err, b"failed\n");
        return;
    }
    let mut out = [0u8; 64];
    let a = put(&mut out, 0, b"transferred ");
    let b = put_number(&mut out, a, bytes);
    let c = put(&mut out, b, b" bytes\n");
    write(err, &out, c);
}
