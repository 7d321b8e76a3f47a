// The walk over headers, as a struct that holds the packet's bytes and its place. The work is `header_at`'s, the cursor form, which takes a
// plain slice; each function here takes the struct apart or makes one.
#![tactic(auto)]

ghost use Rattle.std.specs.Prelude.{◌≡◌};
ghost use Rattle.packet.specs.Header.{header_at_of, read_headers};
ghost use Rattle.walk.specs.Walk.{walk_at, count_of};

use packet::header::{HeaderAt, header_at};

// The packet's bytes, and the place in them where the walk stands.
#[derive(Clone, Copy)]
pub struct Walk<'a> {
    pub packet: &'a [u8],
    pub at: usize,
}

// Starts a walk at `at`; a packet's headers start behind its prefix.
pub fn new<'a>(packet: &'a [u8], at: usize) -> Walk<'a>
    ensures { result ≡ walk_at packet.entry at }
{
    Walk { packet, at }
}

// Reads the header where the walk stands.
pub fn next<'a>(w: Walk<'a>) -> HeaderAt
    ensures { result ≡ header_at_of w.entry.packet.now w.entry.at }
{
    header_at(w.packet, w.at)
}

// Reads the header at `at`: a walk's step for callers that have a plain slice. The loops over headers above this crate go by it.
pub fn step(packet: &[u8], at: usize) -> HeaderAt
    ensures { result ≡ header_at_of packet.now at }
{
    next(new(packet, at))
}

// Counts the headers of a packet from `from` up to its end, if they can be read (the source's Headers::parse and Headers::len).
pub fn len(packet: &[u8], from: usize) -> Option<usize>
    ensures { result ≡ count_of (read_headers packet.now from) }
{
    let mut at = from;
    let mut n = 0;
    loop {
        match step(packet, at) {
            HeaderAt::At {
                id: _,
                encoding: _,
                start: _,
                end,
            } => {
                at = end;
                n = n + 1;
            }
            HeaderAt::Unreadable => {
                return None;
            }
            HeaderAt::End => {
                return Some(n);
            }
        }
    }
}
