// What is done, in lines on standard error.
use files::fault::fail;
use files::path::front;
use host::names::put_name;
use lines::output;
use lines::output::print;
use packet::response::{
    CONFLICT, CONTINUE_BYTE, FORBIDDEN, INTERNAL_SERVER_ERROR, NOT_FOUND, NOT_IMPLEMENTED, SUCCESS,
    SUCCESS_BYTE,
};
use server::{HostRequest, Operation};
use std::io;

fn write(err: &impl Print, out: &[u8], n: usize) {
    print(err, front(out, n));
}

// Returns the sign by which the log shows the byte `b`, which stands behind `before`. A peer names its files, and no control character of
// theirs goes to a terminal. Behind 0xC2 stand U+0080 to U+009F.
fn shown(before: u8, b: u8) -> u8 {
    if b < 32 {
        return b'?';
    }
    if b == 127 {
        return b'?';
    }
    if before == 0xC2 {
        if b < 0xA0 {
            return b'?';
        }
    }
    b
}

fn put_text(out: &mut [u8], n: usize, s: &[u8]) -> usize {
    let mut at = n;
    let mut before = 0;
    let mut i = 0;
    while i < s.len() {
        let one = [shown(before, s[i])];
        at = output::put(out, at, &one);
        before = s[i];
        i += 1;
    }
    at
}

// Puts what became of a request, by the code of the reply.
fn put_code(out: &mut [u8], n: usize, code: u8) -> usize {
    match code {
        FORBIDDEN => output::put(out, n, b" refused 43"),
        NOT_FOUND => output::put(out, n, b" not found 44"),
        CONFLICT => output::put(out, n, b" there already 49"),
        INTERNAL_SERVER_ERROR => output::put(out, n, b" failed 50"),
        NOT_IMPLEMENTED => output::put(out, n, b" without a body 51"),
        _ => n,
    }
}

// Puts the size of what was written, if the reply is Success.
fn put_size(out: &mut [u8], n: usize, size: usize, code: u8) -> usize {
    if code == SUCCESS {
        let a = output::put(out, n, b" ");
        let b = output::put_number(out, a, size);
        return output::put(out, b, b" bytes");
    }
    n
}

// Tells of a Put of `size` bytes to the file `name`, by the code of the reply.
pub(crate) fn put(err: &impl Print, name: &[u8], size: usize, code: u8) {
    let mut out = [0u8; 400];
    let a = output::put(&mut out, 0, b"put ");
    let b = put_text(&mut out, a, name);
    let c = put_size(&mut out, b, size, code);
    let d = put_code(&mut out, c, code);
    let n = output::put(&mut out, d, b"\n");
    write(err, &out, n);
}

// Tells of a Get of the file `name`, by the code that says why it could not be opened, or by Success.
pub(crate) fn get(err: &impl Print, name: &[u8], code: u8) {
    let mut out = [0u8; 400];
    let a = output::put(&mut out, 0, b"get ");
    let b = put_text(&mut out, a, name);
    let c = put_code(&mut out, b, code);
    let n = output::put(&mut out, c, b"\n");
    write(err, &out, n);
}

// Tells of a file whose bytes could not be read on.
pub(crate) fn get_failed(err: &impl Print, e: &io::Error) {
    fail(err, b"read", e);
    print(err, b"get failed 50\n");
}

// Returns which line of the names in `own_reply` is that of a packet's first byte.
fn line_of(opcode: u8) -> usize {
    match opcode {
        0x80 => 1,
        0x81 => 2,
        0x02 | 0x82 => 3,
        0x03 | 0x83 => 4,
        0x85 => 5,
        0x06 | 0x86 => 6,
        0x87 => 7,
        0xFF => 8,
        _ => 0,
    }
}

// Tells of a reply that the engine gave without asking, such as that to a Put over the limit or to a packet that cannot be read. `opcode`
// is the packet's first byte, `code` the reply's. Continue and Success are no news.
pub(crate) fn own_reply(err: &impl Print, opcode: u8, code: u8) {
    if code == CONTINUE_BYTE {
        return;
    }
    if code == SUCCESS_BYTE {
        return;
    }
    let names = b"packet\nconnect\ndisconnect\nput\nget\nset_path\naction\nsession\nabort\n";
    let mut out = [0u8; 32];
    let a = output::put_line_at(&mut out, 0, names, line_of(opcode));
    let b = output::put(&mut out, a, b" refused ");
    let c = output::put_byte(&mut out, b, code % 128);
    let n = output::put(&mut out, c, b"\n");
    write(err, &out, n);
}

// Tells of a Put or a Get that was open when the session ended. Nothing is stored of a Put that is cut off.
pub(crate) fn cut_off(err: &impl Print, operation: Operation) {
    match operation {
        Operation::Putting { .. } => {
            print(err, b"put cut off\n");
        }
        Operation::Sending { .. } => {
            print(err, b"get cut off\n");
        }
        _ => {}
    }
}

// Tells of a request by its name alone.
pub(crate) fn request(err: &impl Print, request: HostRequest) {
    let mut out = [0u8; 32];
    let a = put_name(&mut out, 0, request);
    let n = output::put(&mut out, a, b"\n");
    write(err, &out, n);
}

// Tells with which number the session ended.
pub(crate) fn end(err: &impl Print, number: u8) {
    let mut out = [0u8; 16];
    let a = output::put(&mut out, 0, b"end ");
    let b = output::put_number(&mut out, a, base::wide(number));
    let n = output::put(&mut out, b, b"\n");
    write(err, &out, n);
}
