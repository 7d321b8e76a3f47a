// Tag lists (docs/PROTOCOL.md#tag-lists; the source's tlv.rs): Application Parameters, Authenticate Challenge, Authenticate Response and
// Session Parameters carry a sequence of tag, length and value. The reader is a cursor: it takes a slice and a place and returns an enum.
// The writer appends one tag to a lent store.
ghost use Rattle.std.specs.Prelude.{◌≡◌};
ghost use Rattle.packet.specs.Tags.{tag_at, is_tag_list, counts, last_under, last_value, put_tag};
ghost use Rattle.packet.specs.Placed.{putting};

use crate::limits::MAX_TAG_VALUE;
use crate::store::{LengthField, room};
use base::{Span, copy_into, wide};

// What stands at a place of a payload.
//
// Stays an enum of its own: the payload's end is neither a tag nor an error, and an Option of a Result says the same three cases in two layers.
#[derive(Clone, Copy)]
pub enum TagAt {
    // A whole tag, with the places where its value starts and where the next tag does.
    At { tag: u8, start: usize, next: usize },
    // A tag that the payload's end cuts off.
    Bad,
    // The payload ends here.
    End,
}

// What became of bytes that were to be written. Each case has its number in `wrote_number` (specs/Placed).
#[derive(Clone, Copy)]
pub enum Wrote {
    // The bytes were written, and end at this place.
    Written(usize),
    // 7: a header or a packet is longer than the two bytes of its length field can say.
    TooLong,
    // 8: a value is longer than the one byte of a tag's length can say.
    BadValue,
    // 10: the store is too short. This is told before the two above.
    Short,
}

// Reads the tag at `at`.
pub fn tag_at(s: &[u8], at: usize) -> TagAt
    ensures { result ≡ tag_at s.now at }
{
    if s.len() <= at {
        return TagAt::End;
    }
    if s.len() - at < 2 {
        return TagAt::Bad;
    }
    let start = at + 2;
    let n = wide(s[at + 1]);
    if s.len() - start < n {
        return TagAt::Bad;
    }
    TagAt::At {
        tag: s[at],
        start,
        next: start + n,
    }
}

// Tells whether whole tags fill the payload.
pub fn is_tag_list(s: &[u8]) -> bool
    ensures { result ≡ is_tag_list s.now }
{
    let mut at = 0;
    loop {
        match tag_at(s, at) {
            TagAt::At {
                tag: _,
                start: _,
                next,
            } => {
                at = next;
            }
            TagAt::Bad => {
                return false;
            }
            TagAt::End => {
                return true;
            }
        }
    }
}

// Tells whether the tag `t` with a value of `n` bytes is one that is looked for; `empty` says whether an empty value counts.
fn is_wanted(tag: u8, empty: bool, t: u8, n: usize) -> bool
    ensures { result ≡ counts tag empty t n }
{
    t == tag && (empty || 0 < n)
}

// Finds the last value under `tag`; `empty` says whether an empty value counts. If the payload is no tag list, nothing is found.
pub fn last_under(s: &[u8], tag: u8, empty: bool) -> Option<Span>
    ensures { result ≡ last_under s.now tag empty }
{
    let mut at = 0;
    let mut found = None;
    loop {
        match tag_at(s, at) {
            TagAt::At {
                tag: t,
                start,
                next,
            } => {
                if is_wanted(tag, empty, t, next - start) {
                    found = Some(Span { start, end: next });
                }
                at = next;
            }
            TagAt::Bad => {
                return None;
            }
            TagAt::End => {
                return found;
            }
        }
    }
}

// Finds the last value under `tag`, even an empty one.
pub fn last_value(s: &[u8], tag: u8) -> Option<Span>
    ensures { result ≡ last_value s.now tag }
{
    last_under(s, tag, true)
}

// Writes a tag at `at` of the store. A tag that is refused leaves the store as it was.
pub fn put_tag(store: &mut [u8], at: usize, tag: u8, value: &[u8]) -> Wrote
    ensures { putting result store.new ≡ put_tag store.old at tag value.now }
{
    let n = value.len();
    let answer = room(
        store.len(),
        at,
        2 + n,
        LengthField::OneByte,
        MAX_TAG_VALUE < n,
    );
    let Wrote::Written(next) = answer else {
        return answer;
    };
    store[at] = tag;
    store[at + 1] = n as u8;
    copy_into(store, at + 2, value);
    Wrote::Written(next)
}
