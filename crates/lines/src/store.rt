// Parts of a lent store, as far as it holds them.
ghost use Rattle.std.specs.Prelude.{◌≡◌, ◌≤◌, length, take, drop, min};

use base::copy_into;

// Returns the bytes of `s` from `from` up to `to`, as far as they are there.
pub fn between(s: &[u8], from: usize, to: usize) -> &[u8]
    ensures within { length result.now ≤ length s.now }
    ensures bytes { result.now ≡ drop (min from (min to (length s.now))) (take (min to (length s.now)) s.now) }
{
    let end = to.min(s.len());
    &s[from.min(end)..end]
}

// Returns the first `n` elements of a store to write to, or all of them if there are fewer.
pub fn front_mut<T>(s: &mut [T], n: usize) -> &mut [T]
    ensures { result.now ≡ take (min n (length s.old)) s.old }
{
    let n = n.min(s.len());
    &mut s[..n]
}

// Puts bytes into the packet store behind the `begun` ones of an unfinished packet, as far as there is room, and returns how many. So does a
// host that reads straight into it.
pub fn place(packet: &mut [u8], begun: usize, bytes: &[u8]) -> usize
    ensures { result ≤ length bytes.now }
{
    let at = begun.min(packet.len());
    let n = bytes.len().min(packet.len() - at);
    copy_into(packet, at, &bytes[..n]);
    n
}
