// The lines that the program prints.
use host::names::put_name;
use lines::output;
use server::HostRequest;

// Puts the length of `body`, or a dash if it is missing.
fn put_body(out: &mut [u8], n: usize, body: Option<usize>) -> usize {
    match body {
        Some(length) => output::put_number(out, n, length),
        None => output::put(out, n, b"-"),
    }
}

// Puts how many header bytes of a Put were kept, and how many bytes its body has. Puts nothing for any other request.
fn put_counts(out: &mut [u8], n: usize, request: HostRequest) -> usize {
    let HostRequest::Put { kept, body } = request else {
        return n;
    };
    let a = output::put(out, n, b" ");
    let b = output::put_number(out, a, kept);
    let c = output::put(out, b, b" ");
    put_body(out, c, body)
}

// Prints a request by the name of the handler's method.
pub(crate) fn request(rt: &impl Print, request: HostRequest) {
    let mut out = [0u8; 64];
    let a = put_name(&mut out, 0, request);
    let b = put_counts(&mut out, a, request);
    let n = output::put(&mut out, b, b"\n");
    output::write(rt, &out, n);
}

fn packet(rt: &impl Print, s: &[u8]) {
    let mut out = [0u8; 131080];
    let a = output::put(&mut out, 0, b"out ");
    let b = output::put_digits(&mut out, a, s);
    let n = output::put(&mut out, b, b"\n");
    output::write(rt, &out, n);
}

// Prints a reply, the first `length` bytes of its store, in hexadecimal.
pub(crate) fn reply(rt: &impl Print, store: &[u8], length: usize) {
    if length <= store.len() {
        packet(rt, &store[0..length]);
    }
}

// Prints the number with which the session ended.
pub(crate) fn end(rt: &impl Print, number: u8) {
    let mut out = [0u8; 16];
    let a = output::put(&mut out, 0, b"end ");
    let b = output::put_number(&mut out, a, base::wide(number));
    let n = output::put(&mut out, b, b"\n");
    output::write(rt, &out, n);
}
