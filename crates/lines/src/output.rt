// An output that is collected in a lent store, so that a word costs no call of the system. What does not fit is left out.
ghost use Rattle.std.specs.Prelude.{◌≡◌, ◌≤◌, ◌<◌, length};
ghost use Rattle.io.specs.Digits.{hex_digit_ascii};
ghost use Rattle.base.specs.Bytes.{bytes32};
ghost use Rattle.lines.specs.Word.{filled};
ghost use Rattle.lines.specs.Output.{least_of, put_bytes, put_line, hex_pair, hex_front, put_digits, decimal_of, flag_text, put_digest, put_hex, left_after};

use crate::word::line_at;
use base::copy_into;
use digest::md5;

// Returns the smaller number.
pub fn least(a: usize, b: usize) -> usize
    ensures bounds { (result ≤ a) × (result ≤ b) }
    ensures least { result ≡ least_of a b }
{
    if a < b { a } else { b }
}

// Puts the bytes `s` behind the first `n`, and returns how many bytes there are then.
pub fn put(out: &mut [u8], n: usize, s: &[u8]) -> usize
    ensures within { result ≤ length out.new }
    ensures text { filled out.new result ≡ put_bytes out.old n s.now }
{
    let at = least(n, out.len());
    let k = least(s.len(), out.len() - at);
    copy_into(out, at, &s[0..k]);
    at + k
}

// Puts the line of `text` with the number `k`, without its end, behind the first `n` bytes. A name that depends on a case is the line of
// one text, so that the store is lent once and not in every case.
pub fn put_line_at(out: &mut [u8], n: usize, text: &[u8], k: usize) -> usize
    ensures within { result ≤ length out.new }
    ensures text { filled out.new result ≡ put_line out.old n text.now k }
{
    let place = line_at(text, k);
    put(out, n, &text[place.start..place.end])
}

// Returns the hexadecimal digit of `x`.
fn digit(x: u8) -> u8
    requires { x < 16 }
    ensures { result ≡ hex_digit_ascii x }
{
    if x < 10 { 48 + x } else { 87 + x }
}

// Returns the two hexadecimal digits of `b`.
pub fn pair(b: u8) -> [u8; 2]
    ensures { result ≡ hex_pair b }
{
    [digit(b / 16 % 16), digit(b % 16)]
}

// Writes the bytes `s` in hexadecimal to `out`, as many as there is room for, and returns how many digits there are.
pub fn digits(s: &[u8], out: &mut [u8]) -> usize
    ensures within { result ≤ length out.new }
    ensures text { filled out.new result ≡ hex_front out.old s.now }
{
    let count = least(s.len(), out.len() / 2);
    for n in 0..count {
        out[2 * n] = digit(s[n] / 16 % 16);
        out[2 * n + 1] = digit(s[n] % 16);
    }
    2 * count
}

// Puts the byte `b` in two hexadecimal digits behind the first `n` bytes.
pub fn put_byte(out: &mut [u8], n: usize, b: u8) -> usize
    ensures within { result ≤ length out.new }
    ensures text { filled out.new result ≡ put_bytes out.old n (hex_pair b) }
{
    let two = pair(b);
    put(out, n, &two)
}

// Puts the number `x` in eight hexadecimal digits behind the first `n` bytes.
pub fn put_u32(out: &mut [u8], n: usize, x: u32) -> usize
    ensures within { result ≤ length out.new }
    ensures text { filled out.new result ≡ put_digits out.old n (bytes32 x) }
{
    let bytes = [
        (x / 16777216 % 256) as u8,
        (x / 65536 % 256) as u8,
        (x / 256 % 256) as u8,
        (x % 256) as u8,
    ];
    put_digits(out, n, &bytes)
}

// Puts the number `x` in decimal digits behind the first `n` bytes.
pub fn put_number(out: &mut [u8], n: usize, x: usize) -> usize
    ensures within { result ≤ length out.new }
    ensures text { filled out.new result ≡ put_bytes out.old n (decimal_of x) }
{
    let mut text = [0u8; 20];
    let k = io::decimal(x as u64, &mut text);
    put(out, n, &text[..k])
}

// Puts 1 if `b` is true, and 0 otherwise, behind the first `n` bytes.
pub fn put_flag(out: &mut [u8], n: usize, b: bool) -> usize
    ensures within { result ≤ length out.new }
    ensures text { filled out.new result ≡ put_bytes out.old n (flag_text b) }
{
    put(out, n, if b { b"1" } else { b"0" })
}

// Puts the bytes `s` in hexadecimal behind the first `n` bytes, and nothing if there are none.
pub fn put_digits(out: &mut [u8], n: usize, s: &[u8]) -> usize
    ensures within { result ≤ length out.new }
    ensures text { filled out.new result ≡ put_digits out.old n s.now }
{
    let at = least(n, out.len());
    let k = digits(s, &mut out[at..]);
    at + k
}

// Puts how many bytes `s` has, and their MD5, behind the first `n` bytes.
pub fn put_digest(out: &mut [u8], n: usize, s: &[u8]) -> usize
    ensures within { result ≤ length out.new }
    ensures text { filled out.new result ≡ put_digest out.old n s.now }
{
    let a = put(out, n, b"#");
    let b = put_number(out, a, s.len());
    let c = put(out, b, b":");
    let sum = md5::digest(s);
    put_digits(out, c, &sum)
}

// Puts the bytes `s` in hexadecimal behind the first `n` bytes, or a dash if there are none. If there are more than `longest`, puts how
// many there are, and their MD5.
pub fn put_hex(out: &mut [u8], n: usize, s: &[u8], longest: usize) -> usize
    ensures within { result ≤ length out.new }
    ensures text { filled out.new result ≡ put_hex out.old n s.now longest }
{
    if s.len() == 0 {
        return put(out, n, b"-");
    }
    if longest < s.len() {
        return put_digest(out, n, s);
    }
    put_digits(out, n, s)
}

// Writes the bytes `s` to the standard output `to`. Bytes that the system does not take are left out.
pub fn print(to: &impl Print, s: &[u8]) {
    let _ = to.write_all(s);
}

// Writes out what was collected to the standard output `to`, and returns how much is left of it: nothing.
pub fn write(to: &impl Print, out: &[u8], n: usize) -> usize
    ensures { result ≡ 0 }
{
    let k = least(n, out.len());
    print(to, &out[0..k]);
    0
}

// Writes out what was collected if the store is half full, and returns how much is left of it.
pub fn flush(to: &impl Print, out: &[u8], n: usize) -> usize
    ensures within { result ≤ n }
    ensures left { result ≡ left_after out.now n }
{
    if n < out.len() / 2 {
        return n;
    }
    write(to, out, n)
}
