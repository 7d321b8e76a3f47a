// Headers (IrOBEX 1.5, section 2; docs/PROTOCOL.md#headers; the source's header.rs): a one-byte id, for two encodings a 16-bit length, and
// the value. The reader is a cursor: it takes a slice and a place and returns an enum.
ghost use Rattle.std.specs.Prelude.{◌≡◌, ◌+◌, ◌-◌, ◌^◌, ◌<◌, ◌≤◌, min, length, get_or, drop, false, [], ◌∷◌, ◌++◌};
ghost use Rattle.std.proofs.lemmas.List.Edits.{sets};
ghost use Rattle.base.specs.Bytes.{be32, bytes32};
ghost use Rattle.text.specs.Text.{ascii_text, unicode_bytes};
ghost use Rattle.text.specs.Unicode.{scalars16, lossy, scalars8, text8};
ghost use Rattle.packet.specs.Auth.{same};
ghost use Rattle.packet.specs.Canonical.{terminated16, rewritten, canonical};
ghost use Rattle.packet.specs.Header.{encoding_of, lead_of, size_at, tagged, allowed, encoded_at, header_at_of, first_place};
ghost use Rattle.packet.specs.HeaderIds as header_id;
ghost use Rattle.packet.specs.HeaderList.{readable_from};
ghost use Rattle.packet.specs.HeaderWriter.{too_long_of, put_header, room_for, lead_bytes, header, start_header, text_value};
ghost use Rattle.packet.specs.Placed.{laid, putting};

use crate::action::is_action;
use crate::header_id::{
    ACTION_ID, APPLICATION_PARAMETERS, AUTHENTICATE_CHALLENGE, AUTHENTICATE_RESPONSE, PERMISSIONS,
    SESSION_PARAMETERS, SINGLE_RESPONSE_MODE, SINGLE_RESPONSE_MODE_PARAMETERS, TIME, TYPE,
};
use crate::limits::MAX_CAPACITY;
use crate::srm::{is_mode, is_parameter};
use crate::tlv::{Wrote, is_tag_list};
use base::{Span, be16_at, copy_into, wide32};
use text::{
    ascii_len, decode_ascii, encode_unicode, encoded_unicode_len, is_well_formed8, is_well_formed16,
};

// The encoding of a header's value, which the two top bits of its id select. So every header can be read, user defined and future ones too.
#[derive(Clone, Copy)]
pub enum HeaderEncoding {
    // UTF-16 text with a 16-bit length, top bits 00.
    Unicode,
    // A byte sequence with a 16-bit length, top bits 01.
    Bytes,
    // One byte, top bits 10.
    U8,
    // A number of four bytes, top bits 11.
    U32,
}

// What stands at a place of a packet.
//
// Stays an enum of its own: the packet's end is neither a header nor an error, and an Option of a Result says the same three cases in two layers.
#[derive(Clone, Copy)]
pub enum HeaderAt {
    // A whole header, whose value stands from `start` up to `end`; the next header starts at `end`.
    At {
        id: u8,
        encoding: HeaderEncoding,
        start: usize,
        end: usize,
    },
    Unreadable,
    End,
}

// ---- reading

// Returns the encoding that the two top bits of `id` select.
pub fn encoding(id: u8) -> HeaderEncoding
    ensures { result ≡ encoding_of id }
{
    if id < 0x40 {
        return HeaderEncoding::Unicode;
    }
    if id < 0x80 {
        return HeaderEncoding::Bytes;
    }
    if id < 0xC0 {
        return HeaderEncoding::U8;
    }
    HeaderEncoding::U32
}

// Stays a number: it is how many bytes, and no code of a kind.
//
// Returns how many bytes stand before the value: the id, and for two encodings a length.
fn lead(e: HeaderEncoding) -> usize
    ensures { (result ≡ lead_of e) × (result ≤ 3) }
{
    match e {
        HeaderEncoding::Unicode => 3,
        HeaderEncoding::Bytes => 3,
        HeaderEncoding::U8 => 1,
        HeaderEncoding::U32 => 1,
    }
}

// Returns how many bytes the header at `at` takes in all: its length field counts its own three bytes.
fn size_at(e: HeaderEncoding, s: &[u8], at: usize) -> usize
    requires { at + lead_of e ≤ length s.now }
    ensures { (result ≡ size_at e s.now at) × (result < 65536) }
{
    match e {
        HeaderEncoding::Unicode => be16_at(s, at + 1),
        HeaderEncoding::Bytes => be16_at(s, at + 1),
        HeaderEncoding::U8 => 2,
        HeaderEncoding::U32 => 5,
    }
}

// Returns the byte of a value of one byte.
fn first_byte(value: &[u8]) -> u8
    ensures { result ≡ get_or value.now 0 0 }
{
    if value.len() == 0 {
        return 0;
    }
    value[0]
}

// Tells whether the value under `id` is a tag list.
#[tactic(auto, unfolding(crate::specs::Header::tagged))]
fn is_tagged(id: u8) -> bool
    ensures { result ≡ tagged id }
{
    matches!(
        id,
        APPLICATION_PARAMETERS | AUTHENTICATE_CHALLENGE | AUTHENTICATE_RESPONSE | SESSION_PARAMETERS
    )
}

// Tells whether `id` allows `value`. Ids that the standard does not define allow any, so that such headers survive.
fn is_allowed(id: u8, value: &[u8]) -> bool
    ensures { result ≡ allowed id value.now }
{
    if id == ACTION_ID {
        return is_action(first_byte(value));
    }
    if id == SINGLE_RESPONSE_MODE {
        return is_mode(first_byte(value));
    }
    if id == SINGLE_RESPONSE_MODE_PARAMETERS {
        return is_parameter(first_byte(value));
    }
    if is_tagged(id) {
        return is_tag_list(value);
    }
    true
}

// Reads the header at `at`, whose id and encoding are known.
fn encoded_at(id: u8, e: HeaderEncoding, s: &[u8], at: usize) -> HeaderAt
    requires { at ≤ length s.now }
    ensures { result ≡ encoded_at id e s.now at }
{
    let left = s.len() - at;
    let n = lead(e);
    if left < n {
        return HeaderAt::Unreadable;
    }
    let size = size_at(e, s, at);
    if size < n {
        return HeaderAt::Unreadable;
    }
    if left < size {
        return HeaderAt::Unreadable;
    }
    let start = at + n;
    let end = at + size;
    if is_allowed(id, &s[start..end]) {
        return HeaderAt::At {
            id,
            encoding: e,
            start,
            end,
        };
    }
    HeaderAt::Unreadable
}

// Reads the header at `at`.
pub fn header_at(s: &[u8], at: usize) -> HeaderAt
    ensures { result ≡ header_at_of s.now at }
{
    if s.len() <= at {
        return HeaderAt::End;
    }
    let id = s[at];
    encoded_at(id, encoding(id), s, at)
}

// A place in a packet, from which headers are read.
#[derive(Clone, Copy)]
pub struct Cursor {
    pub at: usize,
}

impl Cursor {
    // Makes a cursor at `at`.
    pub fn new(at: usize) -> Cursor
        ensures { result.at ≡ at }
    {
        Cursor { at }
    }

    // Reads the header at the cursor. The next header's cursor stands at the end of this one.
    pub fn read(self, s: &[u8]) -> HeaderAt
        ensures { result ≡ header_at_of s.now self.at }
    {
        header_at(s, self.at)
    }
}

// Tells whether headers fill the packet from `from` up to its end.
pub fn is_readable(s: &[u8], from: usize) -> bool
    ensures { result ≡ readable_from s.now from }
{
    let mut at = from;
    loop {
        match header_at(s, at) {
            HeaderAt::At {
                id: _,
                encoding: _,
                start: _,
                end,
            } => {
                at = end;
            }
            HeaderAt::Unreadable => {
                return false;
            }
            HeaderAt::End => {
                return true;
            }
        }
    }
}

// Finds the value of the first header with `id`, in list order. The search ends at a header that cannot be read.
pub fn first_header(s: &[u8], from: usize, id: u8) -> Option<Span>
    ensures { result ≡ first_place id s.now from }
{
    let mut at = from;
    loop {
        match header_at(s, at) {
            HeaderAt::At {
                id: i,
                encoding: _,
                start,
                end,
            } => {
                if i == id {
                    return Some(Span { start, end });
                }
                at = end;
            }
            HeaderAt::Unreadable => {
                return None;
            }
            HeaderAt::End => {
                return None;
            }
        }
    }
}

// Reads the 32-bit number at `at`, its high-order byte first.
pub fn be32_at(s: &[u8], at: usize) -> u32
    requires { at + 4 ≤ length s.now }
    ensures { result ≡ be32 s.now at }
{
    let high = wide32(s[at]) * 256 + wide32(s[at + 1]);
    (high * 256 + wide32(s[at + 2])) * 256 + wide32(s[at + 3])
}

// ---- writing: a header's bytes follow the encoding of its id

// Tells whether a value of `n` bytes is too long for the header's length field.
fn is_too_long(e: HeaderEncoding, n: usize) -> bool
    ensures { result ≡ too_long_of e n }
{
    match e {
        HeaderEncoding::Unicode => MAX_CAPACITY < n,
        HeaderEncoding::Bytes => MAX_CAPACITY < n,
        HeaderEncoding::U8 => false,
        HeaderEncoding::U32 => false,
    }
}

// Tells whether a header with a value of `n` bytes fits at `at` of a store of `len` bytes, and where it ends. A store that is too short is
// told before a header that is too long.
fn room(e: HeaderEncoding, len: usize, at: usize, n: usize) -> Wrote
    ensures { result ≡ room_for e len at n }
{
    if len < at {
        return Wrote::Short;
    }
    let first = lead(e);
    if len - at < first {
        return Wrote::Short;
    }
    if len - at - first < n {
        return Wrote::Short;
    }
    if is_too_long(e, n) {
        return Wrote::TooLong;
    }
    Wrote::Written(at + first + n)
}

// Writes what stands before a value of `n` bytes.
fn put_lead(store: &mut [u8], at: usize, e: HeaderEncoding, id: u8, n: usize)
    requires { (at + lead_of e ≤ length store.old) × (too_long_of e n ≡ false) }
    ensures { store.new ≡ sets store.old at (lead_bytes e id n) }
{
    store[at] = id;
    if lead(e) == 1 {
        return;
    }
    store[at + 1] = ((3 + n) / 256) as u8;
    store[at + 2] = ((3 + n) % 256) as u8;
}

// Makes room for a header with a value of `n` bytes and writes what stands before the value. The value is to end at the place that is
// returned.
fn start(store: &mut [u8], at: usize, id: u8, n: usize) -> Wrote
    ensures { putting result store.new ≡ start_header store.old at id n }
{
    let e = encoding(id);
    let answer = room(e, store.len(), at, n);
    let Wrote::Written(end) = answer else {
        return answer;
    };
    put_lead(store, at, e, id, n);
    Wrote::Written(end)
}

// Writes a header with the bytes `value` at `at` of the store. A header that is refused leaves the store as it was.
pub fn put_bytes(store: &mut [u8], at: usize, id: u8, value: &[u8]) -> Wrote
    ensures { putting result store.new ≡ put_header store.old at (header id value.now) }
{
    let n = value.len();
    let answer = start(store, at, id, n);
    let Wrote::Written(end) = answer else {
        return answer;
    };
    copy_into(store, end - n, value);
    Wrote::Written(end)
}

// Writes a header with a value of one byte.
pub fn put_u8(store: &mut [u8], at: usize, id: u8, value: u8) -> Wrote
    ensures { putting result store.new ≡ put_header store.old at (header id (value ∷ [])) }
{
    let v = [value];
    put_bytes(store, at, id, &v)
}

// Writes a header with a value of four bytes, the high-order one first.
pub fn put_u32(store: &mut [u8], at: usize, id: u8, value: u32) -> Wrote
    ensures { putting result store.new ≡ put_header store.old at (header id (bytes32 value)) }
{
    let v = [
        (value / 16777216 % 256) as u8,
        (value / 65536 % 256) as u8,
        (value / 256 % 256) as u8,
        (value % 256) as u8,
    ];
    put_bytes(store, at, id, &v)
}

// ---- writing text, which is given in UTF-8; what is ill-formed is replaced

// How the text of a header is laid out.
#[derive(Clone, Copy)]
enum TextForm {
    // UTF-16, with a zero unit behind it unless the text is empty.
    Wide,
    // UTF-8, with a zero byte behind it.
    Ended,
    // UTF-8, with nothing behind it.
    Bare,
}

// Returns `a + b`, or the largest number if the sum is more.
fn plus(a: usize, b: usize) -> usize
    ensures { result ≡ min (a + b) (2 ^ 64 - 1) }
{
    if 0xFFFF_FFFF_FFFF_FFFF - a < b {
        return 0xFFFF_FFFF_FFFF_FFFF;
    }
    a + b
}

// Returns how many bytes `text` takes in UTF-16 with its zero unit, or the largest number if there are more.
fn wide_size(text: &[u8]) -> usize
    ensures { result ≡ min (length (terminated16 (lossy text.now))) (2 ^ 64 - 1) }
{
    let n = encoded_unicode_len(text);
    if n == 0 {
        return 0;
    }
    plus(n, 2)
}

// Returns how many bytes `text` takes in the given form, or the largest number if there are more.
fn text_size(text: &[u8], form: TextForm) -> usize
    ensures { result ≡ min (length (text_value form text.now)) (2 ^ 64 - 1) }
{
    match form {
        TextForm::Wide => wide_size(text),
        TextForm::Ended => plus(ascii_len(text), 1),
        TextForm::Bare => ascii_len(text),
    }
}

// Stays beside `write_bare`: each is one call, of another function of `text`, and a common one would take that function as a parameter.
//
// Writes `text` in UTF-16 from `from` up to `end`.
fn write_units(store: &mut [u8], from: usize, end: usize, text: &[u8])
    requires { (from + length (unicode_bytes text.now) ≡ end) × (end ≤ length store.old) }
    ensures { store.new ≡ laid store.old from (unicode_bytes text.now) }
{
    let _ = encode_unicode(text, &mut store[from..end]);
}

// Writes `text` in UTF-16 and a zero unit behind it, unless the text is empty.
fn write_wide(store: &mut [u8], from: usize, end: usize, text: &[u8])
    requires { (from + length (terminated16 (lossy text.now)) ≡ end) × (end ≤ length store.old) }
    ensures { store.new ≡ laid store.old from (terminated16 (lossy text.now)) }
{
    if from == end {
        return;
    }
    let n = end - 2;
    write_units(store, from, n, text);
    store[n] = 0;
    store[n + 1] = 0;
}

// Writes `text` in UTF-8, up to its first zero byte.
fn write_bare(store: &mut [u8], from: usize, end: usize, text: &[u8])
    requires { (from + length (ascii_text text.now) ≡ end) × (end ≤ length store.old) }
    ensures { store.new ≡ laid store.old from (ascii_text text.now) }
{
    let _ = decode_ascii(text, &mut store[from..end]);
}

// Writes `text` in UTF-8, up to its first zero byte, and a zero byte behind it.
fn write_ended(store: &mut [u8], from: usize, end: usize, text: &[u8])
    requires { (from + length (ascii_text text.now ++ (0 ∷ [])) ≡ end) × (end ≤ length store.old) }
    ensures { store.new ≡ laid store.old from (ascii_text text.now ++ (0 ∷ [])) }
{
    let n = end - 1;
    write_bare(store, from, n, text);
    store[n] = 0;
}

// Writes `text` in the given form, from `from` up to `end`.
fn write_text(store: &mut [u8], from: usize, end: usize, text: &[u8], form: TextForm)
    requires { (from + length (text_value form text.now) ≡ end) × (end ≤ length store.old) }
    ensures { store.new ≡ laid store.old from (text_value form text.now) }
{
    match form {
        TextForm::Wide => write_wide(store, from, end, text),
        TextForm::Ended => write_ended(store, from, end, text),
        TextForm::Bare => write_bare(store, from, end, text),
    }
}

// Writes a header with `text` in the given form.
fn put_text(store: &mut [u8], at: usize, id: u8, text: &[u8], form: TextForm) -> Wrote
    ensures { putting result store.new ≡ put_header store.old at (header id (text_value form text.now)) }
{
    let n = text_size(text, form);
    let answer = start(store, at, id, n);
    let Wrote::Written(end) = answer else {
        return answer;
    };
    write_text(store, end - n, end, text, form);
    Wrote::Written(end)
}

// Writes a header with UTF-16 text: a zero unit ends it, unless the text is empty, for an empty Name is an empty header.
pub fn put_unicode(store: &mut [u8], at: usize, id: u8, text: &[u8]) -> Wrote
    ensures { putting result store.new
        ≡ put_header store.old at (header id (terminated16 (lossy text.now))) }
{
    put_text(store, at, id, text, TextForm::Wide)
}

// Writes the Type header: the text up to its first zero, and always a zero byte.
pub fn put_type(store: &mut [u8], at: usize, text: &[u8]) -> Wrote
    ensures { putting result store.new
        ≡ put_header store.old at (header header_id.type (ascii_text text.now ++ (0 ∷ []))) }
{
    put_text(store, at, TYPE, text, TextForm::Ended)
}

// Writes the Time header: the text up to its first zero, and no zero byte.
pub fn put_time(store: &mut [u8], at: usize, text: &[u8]) -> Wrote
    ensures { putting result store.new ≡ put_header store.old at (header header_id.time (ascii_text text.now)) }
{
    put_text(store, at, TIME, text, TextForm::Bare)
}

// ---- canonical bytes: what the writer gives for what the reader reads

// Tells whether `value` is what the writer gives for UTF-16 text: no bytes, or well-formed ones and a zero unit.
fn is_terminated16(value: &[u8]) -> bool
    ensures { result ≡ same (terminated16 (scalars16 value.now)) value.now }
{
    if value.len() == 0 {
        return true;
    }
    if value.len() < 4 {
        return false;
    }
    let n = value.len() - 2;
    if value[n] != 0 {
        return false;
    }
    if value[n + 1] != 0 {
        return false;
    }
    is_well_formed16(&value[..n])
}

// Tells whether `value` is what the writer gives for Type: well-formed UTF-8 and a zero byte.
fn is_terminated8(value: &[u8]) -> bool
    ensures { result ≡ same (text8 (scalars8 value.now) ++ (0 ∷ [])) value.now }
{
    if value.len() == 0 {
        return false;
    }
    let n = value.len() - 1;
    if value[n] != 0 {
        return false;
    }
    is_well_formed8(&value[..n])
}

// Tells whether `value` is what the writer gives for Permissions: the top byte is 0.
fn is_top_zero(value: &[u8]) -> bool
    ensures { result ≡ same (0 ∷ drop 1 value.now) value.now }
{
    if value.len() == 0 {
        return false;
    }
    value[0] == 0
}

// Tells whether the writer gives `value` for what the reader reads from it.
fn is_rewritten(id: u8, value: &[u8]) -> bool
    ensures { result ≡ same (rewritten id value.now) value.now }
{
    if id < 0x40 {
        return is_terminated16(value);
    }
    if id == TYPE {
        return is_terminated8(value);
    }
    if id == TIME {
        return is_well_formed8(value);
    }
    if id == PERMISSIONS {
        return is_top_zero(value);
    }
    true
}

// Tells whether headers fill the bytes, each as the writer gives it. The engine refuses a host's answer that is not canonical (refusal 8).
pub fn is_canonical(s: &[u8]) -> bool
    ensures { result ≡ canonical s.now }
{
    let mut at = 0;
    loop {
        match header_at(s, at) {
            HeaderAt::At {
                id,
                encoding: _,
                start,
                end,
            } => {
                if is_rewritten(id, &s[start..end]) {
                    at = end;
                } else {
                    return false;
                }
            }
            HeaderAt::Unreadable => {
                return false;
            }
            HeaderAt::End => {
                return true;
            }
        }
    }
}
