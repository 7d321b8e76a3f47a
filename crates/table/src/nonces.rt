// The nonces that the engine took last (docs/PROTOCOL.md#nonces): the latest stands in front, and the oldest of 32 falls out. The source
// has no such rule.
ghost use Rattle.std.specs.Prelude.{◌≡◌, ◌≤◌, length};
ghost use Rattle.table.specs.Places.{max_nonces, table_length};
ghost use Rattle.table.specs.Nonces.{pushed, remembered_with, remembered, among, counted as countedAs};

use digest::md5::Octets16;

// How many nonces are remembered.
pub const MAX_NONCES: usize = 32;

// Where the first halves of the nonces begin in the table store, the eight bytes that come first.
const FIRST_HALVES: usize = 64;

// Where their second halves begin, and where these end.
const SECOND_HALVES: usize = 96;

const END_OF_NONCES: usize = 128;

// Puts `x` in front; the last number falls out.
fn push_front(s: &mut [u64], x: u64)
    ensures { s.new ≡ pushed x s.old }
{
    // Stays a loop over an index: `rotate_right` calls memmove, and the archives for C promise to need no more than memcpy.
    let mut carry = x;
    for i in 0..s.len() {
        let y = s[i];
        s[i] = carry;
        carry = y;
    }
}

// Remembers `nonce` in `tables`, as the latest.
pub fn remember(tables: &mut [u64], nonce: Octets16)
    requires { table_length ≤ length tables.old }
    ensures { tables.new ≡ remembered_with nonce tables.old }
{
    push_front(&mut tables[FIRST_HALVES..SECOND_HALVES], nonce.first);
    push_front(&mut tables[SECOND_HALVES..END_OF_NONCES], nonce.second);
}

// Tells whether `nonce` is one of the `count` nonces that `tables` remembers.
pub fn is_used(tables: &[u64], count: usize, nonce: Octets16) -> bool
    requires { (count ≤ max_nonces) × (table_length ≤ length tables.now) }
    ensures { result ≡ among nonce (remembered count tables.now) }
{
    let firsts = &tables[FIRST_HALVES..FIRST_HALVES + count];
    let seconds = &tables[SECOND_HALVES..SECOND_HALVES + count];
    firsts.iter().zip(seconds.iter()).any(|(first, second)| *first == nonce.first
        && *second == nonce.second)
}

// Returns how many nonces are remembered after one more.
pub fn counted(count: usize) -> usize
    ensures { result ≡ countedAs count }
{
    if count < MAX_NONCES { count + 1 } else { count }
}
