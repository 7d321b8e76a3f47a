// Frames (docs/PROTOCOL.md#frames; the source's engine/io.rs, Framed::read_packet): the bytes of a packet go to the front of the packet
// store, in runs and not one by one.
ghost use Rattle.std.specs.Prelude.{◌≡◌, ℕ, ◌+◌, ◌≤◌, ◌<◌, length, drop, IfSome};
ghost use Rattle.base.specs.Bytes.{be16};
ghost use Rattle.packet.specs.Limits.{max_packet};
ghost use Rattle.incoming.specs.Frame.{frame_end, framed, frames, placed_in, coming};

use base::{be16_at, copy_into};

// How far a packet has come.
#[derive(Clone, Copy)]
pub enum Frame {
    // The packet goes on.
    More,
    // The packet is whole.
    Whole,
    // The length field is under 3, so it cannot count its own bytes.
    Short,
}

// Bytes that were taken: how many stand in the packet store now, how many of those offered were taken, and how far the packet has come.
#[derive(Clone, Copy)]
pub struct Framed {
    pub begun: usize,
    pub taken: usize,
    pub frame: Frame,
}

// Tells how far a packet has come with `begun` bytes of it in the store.
fn frame_end(s: &[u8], begun: usize) -> Frame
    requires { (3 ≤ length s.now) × (begun ≤ max_packet) }
    ensures end { result ≡ frame_end s.now begun }
    ensures room { result ≡ Frame.More → begun < max_packet }
    ensures whole { result ≡ Frame.Whole → 3 ≤ begun }
{
    if begun < 3 {
        return Frame::More;
    }
    let n = be16_at(s, 1);
    if n < 3 {
        return Frame::Short;
    }
    if n <= begun {
        return Frame::Whole;
    }
    Frame::More
}

// Returns how many of `left` bytes may be copied at once behind `at` bytes of a packet of `n`: all but the packet's last byte.
fn room(at: usize, n: usize, left: usize) -> usize
    requires { at < max_packet }
    ensures { (result ≤ left) × (0 < result → (3 ≤ at) × (at + result < n)) }
{
    if at < 3 {
        return 0;
    }
    n.saturating_sub(at + 1).min(left)
}

// Copies bytes from the middle of a packet at once, and returns how many.
fn bulk(at: usize, i: usize, input: &[u8], packet: &mut [u8]) -> usize
    requires { (at < max_packet) × (max_packet ≤ length packet.old) × (i ≤ length input.now) }
    ensures within { (i + result ≤ length input.now) × (at + result < max_packet) }
    ensures model { framed packet.old at i (drop i input.now)
        ≡ framed packet.new (at + result) (i + result) (drop (i + result) input.now) }
{
    let n = be16_at(packet, 1);
    let m = room(at, n, input.len() - i);
    copy_into(packet, at, &input[i..i + m]);
    m
}

// Takes offered bytes into the packet store behind the `begun` ones that stand there: the prefix byte by byte, and what follows at once.
fn read_on(begun: usize, input: &[u8], packet: &mut [u8]) -> Framed
    requires { (begun < max_packet) × (max_packet ≤ length packet.old) }
    ensures whole { result.frame ≡ Frame.Whole → (3 ≤ result.begun) × (result.begun ≤ max_packet) }
    ensures model { frames result packet.new ≡ framed packet.old begun 0 input.now }
{
    let mut at = begun;
    let mut i = 0;
    // Stays a loop over two places: it copies runs of many lengths, and the bytes that it has copied tell how long the next may be.
    loop {
        let m = bulk(at, i, input, packet);
        at += m;
        i += m;
        if input.len() <= i {
            return Framed {
                begun: at,
                taken: i,
                frame: Frame::More,
            };
        }
        packet[at] = input[i];
        at += 1;
        i += 1;
        let frame = frame_end(packet, at);
        let Frame::More = frame else {
            return Framed {
                begun: at,
                taken: i,
                frame,
            };
        };
    }
}

// Returns the length of the packet with which `input` begins, or `None` if `input` does not hold all of it or its length field is under 3.
fn whole_length(input: &[u8]) -> Option<usize>
    ensures fits { IfSome result (λ n. (n ≤ length input.now) × (n ≤ max_packet)) }
    ensures field { IfSome result (λ n. (3 ≤ n) × (n ≡ be16 input.now 1)) }
{
    if input.len() < 3 {
        return None;
    }
    let n = be16_at(input, 1);
    if n < 3 || n > input.len() {
        return None;
    }
    Some(n)
}

// Takes offered bytes into the packet store, up to the packet's end and never past it. A packet that is offered whole is copied at once,
// since most reads bring whole packets.
fn read_offered(begun: usize, input: &[u8], packet: &mut [u8]) -> Framed
    requires { (begun < max_packet) × (max_packet ≤ length packet.old) }
    ensures whole { result.frame ≡ Frame.Whole → (3 ≤ result.begun) × (result.begun ≤ max_packet) }
    ensures model { frames result packet.new ≡ framed packet.old begun 0 input.now }
{
    if begun == 0
        && let Some(n) = whole_length(input)
    {
        copy_into(packet, 0, &input[..n]);
        return Framed {
            begun: n,
            taken: n,
            frame: Frame::Whole,
        };
    }
    read_on(begun, input, packet)
}

// Returns where a packet with the length field `n` ends at the earliest, once a byte more than `begun` of it is there: not before that
// byte, the end of its prefix, and its length.
fn earliest_end(begun: usize, n: usize) -> usize
    requires { (begun < max_packet) × (n ≤ max_packet) }
    ensures reached { (3 ≤ result) × (begun < result) × (n ≤ result) × (result ≤ max_packet) }
    ensures least { (m : ℕ) → 3 ≤ m → begun < m → n ≤ m → result ≤ m }
{
    n.max(begun + 1).max(3)
}

// Returns where `count` bytes behind the first `begun` of a store of `len` bytes end. The store may end before them.
fn placed_end(begun: usize, count: usize, len: usize) -> usize
    requires { begun ≤ len }
    ensures { (begun ≤ result) × (result ≤ len) × (result ≤ begun + count) × (result < len → result ≡ begun + count) }
{
    begun + count.min(len - begun)
}

// Takes `count` bytes that stand in the packet store already, behind the `begun` ones, up to the packet's end and never past it.
fn read_placed(begun: usize, count: usize, packet: &[u8]) -> Framed
    requires { (begun < max_packet) × (max_packet ≤ length packet.now) }
    ensures more { result.frame ≡ Frame.More → result.begun < max_packet }
    ensures whole { result.frame ≡ Frame.Whole → (3 ≤ result.begun) × (result.begun ≤ max_packet) }
    ensures model { frames result packet.now
        ≡ framed packet.now begun 0 (placed_in packet.now begun count) }
{
    let end = placed_end(begun, count, packet.len());
    let n = be16_at(packet, 1);
    let stop = earliest_end(begun, n);
    if end < stop {
        return Framed {
            begun: end,
            taken: end - begun,
            frame: Frame::More,
        };
    }
    Framed {
        begun: stop,
        taken: stop - begun,
        frame: if n < 3 { Frame::Short } else { Frame::Whole },
    }
}

// Takes bytes into the packet store, up to the packet's end and never past it: first the `placed` ones that the host has put there already,
// behind the `begun` ones, then those of `input`.
pub fn read_packet(begun: usize, placed: usize, input: &[u8], packet: &mut [u8]) -> Framed
    requires { (begun < max_packet) × (max_packet ≤ length packet.old) }
    ensures whole { result.frame ≡ Frame.Whole → (3 ≤ result.begun) × (result.begun ≤ max_packet) }
    ensures model { frames result packet.new
        ≡ framed packet.old begun 0 (coming packet.old begun placed input.now) }
{
    let f = read_placed(begun, placed, packet);
    let Frame::More = f.frame else {
        return f;
    };
    let g = read_offered(f.begun, input, packet);
    Framed {
        taken: f.taken + g.taken,
        ..g
    }
}
