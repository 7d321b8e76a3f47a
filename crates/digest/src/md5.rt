// MD5 (RFC 1321), and OBEX's request digest, which IrOBEX 1.5 mandates (section 3.6.3). MD5 is not collision resistant: beside what the
// standard requires only a check that finds damage may use this module, as the archive's blocks do, and never a seal.
ghost use Rattle.std.specs.Prelude.{◌≡◌, ◌+◌, ◌*◌, ◌/◌, ◌^◌, ◌<◌, ◌≤◌, max, ◌++◌, length, take, drop};
ghost use Rattle.std.proofs.Math.Seq.{paste};
ghost use Rattle.digest.specs.Md5.{mix_of, word_at, table, rfc_sum, hand_sum, word, step_of, steps, block_of, le, zeros, padded, blocks, digest_of, be_value, octets16, numbers16, output_of, request_digest};
ghost use Rattle.digest.specs.Turn.{span_of, part_laid};

// RFC 1321's table T (section 3.4).
const CONSTANTS: [u32; 64] = [
    0xd76aa478, 0xe8c7b756, 0x242070db, 0xc1bdceee, 0xf57c0faf, 0x4787c62a, 0xa8304613, 0xfd469501,
    0x698098d8, 0x8b44f7af, 0xffff5bb1, 0x895cd7be, 0x6b901122, 0xfd987193, 0xa679438e, 0x49b40821,
    0xf61e2562, 0xc040b340, 0x265e5a51, 0xe9b6c7aa, 0xd62f105d, 0x02441453, 0xd8a1e681, 0xe7d3fbc8,
    0x21e1cde6, 0xc33707d6, 0xf4d50d87, 0x455a14ed, 0xa9e3e905, 0xfcefa3f8, 0x676f02d9, 0x8d2a4c8a,
    0xfffa3942, 0x8771f681, 0x6d9d6122, 0xfde5380c, 0xa4beea44, 0x4bdecfa9, 0xf6bb4b60, 0xbebfbc70,
    0x289b7ec6, 0xeaa127fa, 0xd4ef3085, 0x04881d05, 0xd9d4d039, 0xe6db99e5, 0x1fa27cf8, 0xc4ac5665,
    0xf4292244, 0x432aff97, 0xab9423a7, 0xfc93a039, 0x655b59c3, 0x8f0ccc92, 0xffeff47d, 0x85845dd1,
    0x6fa87e4f, 0xfe2ce6e0, 0xa3014314, 0x4e0811a1, 0xf7537e82, 0xbd3af235, 0x2ad7d2bb, 0xeb86d391,
];

// The shifts of the 64 steps (section 3.4).
const SHIFTS: [u32; 64] = [
    7, 12, 17, 22, 7, 12, 17, 22, 7, 12, 17, 22, 7, 12, 17, 22, 5, 9, 14, 20, 5, 9, 14, 20, 5, 9,
    14, 20, 5, 9, 14, 20, 4, 11, 16, 23, 4, 11, 16, 23, 4, 11, 16, 23, 4, 11, 16, 23, 6, 10, 15,
    21, 6, 10, 15, 21, 6, 10, 15, 21, 6, 10, 15, 21,
];

#[derive(Clone, Copy)]
struct Regs {
    pub a: u32,
    pub b: u32,
    pub c: u32,
    pub d: u32,
}

// The sixteen bytes of a nonce or a digest: `first` holds bytes 0 to 7, the high-order one first, and `second` bytes 8 to 15.
#[derive(Clone, Copy)]
pub struct Octets16 {
    pub first: u64,
    pub second: u64,
}

// The constants of the 64 steps, lent to the steps and not written in them: a constant that the compiler knows it adds last, behind the
// function's value, and each step then waits for one addition more.
#[derive(Clone, Copy)]
struct Constants {
    of: [u32; 64],
    ghost is_table: { of ≡ table },
}

// Returns the sum of a step, wrapping, in the order in which the hardware group checks it by hand: the constant `k` and the message word
// `w` first, then the function's value `f`, then the register `a` (`hand_sum`). RFC 1321 adds a, f, w and k in this order (`rfc_sum`).
// The contract has both: proofs/SumOrder shows that the two orders give one number for any four words.
fn sum4(a: u32, f: u32, k: u32, w: u32) -> u32
    ensures { (result ≡ hand_sum a f w k) × (result ≡ rfc_sum a f w k) }
{
    let constant_and_word = k.wrapping_add(w);
    let with_value = constant_and_word.wrapping_add(f);
    with_value.wrapping_add(a)
}

// Returns word `k` of the block `p`, the low-order byte first.
// Stays a slice of 64 bytes, here and up to `block`: `whole_blocks` reads its blocks in place, and would have to try each as an array.
fn word(p: &[u8], k: usize) -> u32
    requires { (k < 16) × (length p.now ≡ 64) }
    ensures { result ≡ word p.now k }
{
    u32::from_le_bytes([p[4 * k], p[4 * k + 1], p[4 * k + 2], p[4 * k + 3]])
}

// Mixes the registers in round `R`, counted from 0, by RFC 1321's F, G, H or I. F is: if a bit of `b` is set, the bit of `c`, else that of
// `d`. The body takes it in three operations, while the RFC has four, because the code is faster so: `c ^ d` does not wait for `b`, the
// newest register. proofs/Choice shows that both are equal.
fn mix<const R: usize>(b: u32, c: u32, d: u32) -> u32
    ensures { result ≡ mix_of R b c d }
{
    match R {
        0 => d ^ (b & (c ^ d)),
        1 => (b & d) | (c & !d),
        2 => b ^ c ^ d,
        _ => c ^ (b | !d),
    }
}

// Returns which word of the block step `i`, of round `R`, takes.
fn word_place<const R: usize>(i: usize) -> usize
    requires { (i < 64) × (i / 16 ≡ R) }
    ensures { (result ≡ word_at R i) × (result < 16) }
{
    match R {
        0 => i,
        1 => (5 * i + 1) % 16,
        2 => (3 * i + 5) % 16,
        _ => 7 * i % 16,
    }
}

// Takes step `i`, of round `R`, on the block `p` from the registers `t`.
//
// A worked step, so that a reader can follow `sum4` by hand: the first step of a message that begins with the bytes 61 62 63 00. All
// numbers are hexadecimal, and proofs/SumOrder has them as theorems.
//
//     the registers   a = 67452301, b = efcdab89, c = 98badcfe, d = 10325476
//     the constant    d76aa478
//     + the word      00636261, the sum is d7ce06d9
//     + `f`           98badcfe, the sum is 7088e3d7
//     + `t.a`         67452301, the sum is d7ce06d8
//     rotated by 7    e7036c6b
//     + `t.b`         efcdab89, the sum is d6d117f4, which is the new b
fn step<const R: usize>(p: &[u8], constants: &Constants, t: Regs, i: usize) -> Regs
    requires { (length p.now ≡ 64) × (i < 64) × (i / 16 ≡ R) }
    ensures { result ≡ step_of t i (word p.now (word_at R i)) }
{
    let x = word(p, word_place::<R>(i));
    let f = mix::<R>(t.b, t.c, t.d);
    let k = constants.of[i];
    let rotated = sum4(t.a, f, k, x).rotate_left(SHIFTS[i]);
    Regs {
        a: t.d,
        b: t.b.wrapping_add(rotated),
        c: t.b,
        d: t.c,
    }
}

// Takes the 16 steps of round `R` on the block `p`, from the registers `t`.
fn round<const R: usize>(p: &[u8], constants: &Constants, t: Regs) -> Regs
    requires { (length p.now ≡ 64) × (R < 4) }
    ensures { (s : Regs) → t ≡ steps p.now (16 * R) s → result ≡ steps p.now (16 * R + 16) s }
{
    let mut t = t;
    for i in 16 * R..16 * R + 16 {
        t = step::<R>(p, constants, t, i);
    }
    t
}

// Takes the 64 steps on the block `p` from the registers `s`.
fn all_steps(p: &[u8], constants: &Constants, s: Regs) -> Regs
    requires { length p.now ≡ 64 }
    ensures { result ≡ steps p.now 64 s }
{
    let a = round::<0>(p, constants, s);
    let b = round::<1>(p, constants, a);
    let c = round::<2>(p, constants, b);
    round::<3>(p, constants, c)
}

// Adds what the 64 steps on the block `p` give to the registers `s` from before.
fn block(p: &[u8], constants: &Constants, s: Regs) -> Regs
    requires { length p.now ≡ 64 }
    ensures { result ≡ block_of p.now s }
{
    let t = all_steps(p, constants, s);
    Regs {
        a: s.a.wrapping_add(t.a),
        b: s.b.wrapping_add(t.b),
        c: s.c.wrapping_add(t.c),
        d: s.d.wrapping_add(t.d),
    }
}

// Returns where the length field of a padded message of `n` bytes stands.
fn field_at(n: usize) -> usize
    requires { n < 2 ^ 63 + 64 }
    ensures { result ≡ n + 1 + zeros n }
{
    n + 1 + (119 - n % 64) % 64
}

// The bytes of a part that fall into a block: `count` bytes go to `place` of the block, behind `skip` bytes of the part.
#[derive(Clone, Copy)]
struct Span {
    pub place: usize,
    pub skip: usize,
    pub count: usize,
}

// Says which bytes of a part of `n` bytes, which stands at `from`, fall into the block at `at`.
fn span_in(at: usize, from: usize, n: usize) -> Span
    ensures { (result ≡ span_of at from n) × (result.place + result.count ≤ 64) × (result.skip + result.count ≤ n) }
{
    let place = from.saturating_sub(at).min(64);
    let skip = at.saturating_sub(from).min(n);
    Span {
        place,
        skip,
        count: (64 - place).min(n - skip),
    }
}

// Stores those bytes of `part`, which stands at `from` in the padded message, that fall into the block at `at`.
fn put_part(b: &mut [u8], at: usize, part: &[u8], from: usize)
    requires { length b.old ≡ 64 }
    ensures { b.new ≡ part_laid b.old at part.now from }
{
    let s = span_in(at, from, part.len());
    base::copy_into(b, s.place, &part[s.skip..s.skip + s.count]);
}

// Lays out the block at `at` of the padded message of `prefix` and then `rest`.
fn fill(prefix: &[u8], rest: &[u8], at: usize) -> [u8; 64]
    requires { (length prefix.now < 64) × (at + 64 ≤ length (padded (prefix.now ++ rest.now))) }
    ensures { (64 ≡ length result) × (result ≡ take 64 (drop at (padded (prefix.now ++ rest.now)))) }
{
    let n = prefix.len() + rest.len();
    let bits = (n as u64).wrapping_mul(8).to_le_bytes();
    let mut b = [0u8; 64];
    put_part(&mut b, at, prefix, 0);
    put_part(&mut b, at, rest, prefix.len());
    put_part(&mut b, at, &[128u8], n);
    put_part(&mut b, at, &bits, field_at(n));
    b
}

// Runs the blocks from `from` up to `to`, each laid out anew: such a block touches the prefix or the padding. It is not `inline(always)`: in
// its callers the compiler would clear the rest of a block by memset, and the archives for C are to need memcpy alone.
fn filled_blocks(
    constants: &Constants,
    prefix: &[u8],
    rest: &[u8],
    from: usize,
    to: usize,
    start: Regs,
) -> Regs
    requires { (length prefix.now < 64) × (from ≤ to) × (64 * to ≤ length (padded (prefix.now ++ rest.now)))
        × (start ≡ blocks (padded (prefix.now ++ rest.now)) from) }
    ensures { result ≡ blocks (padded (prefix.now ++ rest.now)) to }
{
    let mut s = start;
    for k in from..to {
        let p = fill(prefix, rest, 64 * k);
        s = block(&p, constants, s);
    }
    s
}

// Runs the blocks from `from` up to `to`, which lie wholly in `rest` and are read there without a copy.
fn whole_blocks(
    constants: &Constants,
    prefix: &[u8],
    rest: &[u8],
    from: usize,
    to: usize,
    start: Regs,
) -> Regs
    requires { (length prefix.now ≤ 64 * from) × (64 * to ≤ length prefix.now + length rest.now) × (length prefix.now < 64)
        × (start ≡ blocks (padded (prefix.now ++ rest.now)) from) }
    ensures { result ≡ blocks (padded (prefix.now ++ rest.now)) (max from to) }
{
    let mut s = start;
    for k in from..to {
        let at = 64 * k - prefix.len();
        s = block(&rest[at..at + 64], constants, s);
    }
    s
}

// Returns the registers after all blocks of the message `prefix` and then `rest`.
fn all_blocks(prefix: &[u8], rest: &[u8]) -> Regs
    requires { length prefix.now < 64 }
    ensures { result ≡ blocks (padded (prefix.now ++ rest.now))
        (length (padded (prefix.now ++ rest.now)) / 64) }
{
    let n = prefix.len() + rest.len();
    let head = prefix.len().div_ceil(64);
    let whole = n / 64;
    let start = Regs {
        a: 0x67452301,
        b: 0xefcdab89,
        c: 0x98badcfe,
        d: 0x10325476,
    };
    let lent = Constants { of: CONSTANTS };
    let s = filled_blocks(&lent, prefix, rest, 0, head, start);
    let t = whole_blocks(&lent, prefix, rest, head, whole, s);
    filled_blocks(
        &lent,
        prefix,
        rest,
        head.max(whole),
        (field_at(n) + 8) / 64,
        t,
    )
}

// Returns the number whose bytes are those of the word `x` in the other order.
fn swapped(x: u32) -> u64
    ensures { (result ≡ be_value (le 4 x)) × (result < 2 ^ 32) }
{
    u64::from(x.swap_bytes())
}

// Returns the digest that the registers hold in the end.
fn output(s: Regs) -> Octets16
    ensures { result ≡ numbers16 (output_of s) }
{
    Octets16 {
        first: swapped(s.a) * 4294967296 + swapped(s.b),
        second: swapped(s.c) * 4294967296 + swapped(s.d),
    }
}

// Reads the 64-bit number at `at`, its high-order byte first.
fn number_at(s: &[u8], at: usize) -> u64
    requires { at + 8 ≤ length s.now }
    ensures { result ≡ be_value (take 8 (drop at s.now)) }
{
    let mut bytes = [0u8; 8];
    bytes.copy_from_slice(&s[at..at + 8]);
    u64::from_be_bytes(bytes)
}

// Reads the 16 bytes at `at` as two numbers.
pub fn octets16_at(s: &[u8], at: usize) -> Octets16
    requires { at + 16 ≤ length s.now }
    ensures { result ≡ numbers16 (take 16 (drop at s.now)) }
{
    Octets16 {
        first: number_at(s, at),
        second: number_at(s, at + 8),
    }
}

// Reads sixteen bytes as two numbers: for a host that has drawn a nonce.
pub fn octets16_of(bytes: [u8; 16]) -> Octets16
    ensures { result ≡ numbers16 bytes }
{
    octets16_at(&bytes, 0)
}

// Returns the 16 bytes of `n`.
pub fn octets(n: Octets16) -> [u8; 16]
    ensures { result ≡ octets16 n }
{
    let mut bytes = [0u8; 16];
    bytes[..8].copy_from_slice(&n.first.to_be_bytes());
    bytes[8..].copy_from_slice(&n.second.to_be_bytes());
    bytes
}

// Stores the 16 bytes of `n` from `at` on.
pub fn put_octets16(d: &mut [u8], at: usize, n: Octets16)
    requires { at + 16 ≤ length d.old }
    ensures { d.new ≡ paste d.old at (octets16 n) 16 }
{
    let bytes = octets(n);
    base::copy_into(d, at, &bytes);
}

// Computes the MD5 digest of `message`.
pub fn digest(message: &[u8]) -> [u8; 16]
    ensures { result ≡ digest_of message.now }
{
    octets(output(all_blocks(&message[..0], message)))
}

// Computes OBEX's request digest, MD5(nonce ":" password).
pub fn request_digest(nonce: Octets16, password: &[u8]) -> Octets16
    ensures { result ≡ numbers16 (request_digest (octets16 nonce) password.now) }
{
    let mut prefix = [0x3Au8; 17];
    put_octets16(&mut prefix, 0, nonce);
    output(all_blocks(&prefix, password))
}
