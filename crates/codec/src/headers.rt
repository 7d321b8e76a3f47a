// Questions on tag lists and headers: what is read, and what the writers make of it.
ghost use Rattle.std.specs.Prelude.{◌<◌, ◌≤◌, length, IfSome};

use crate::show::{Byte, Hex};
use lines::word::byte_at;
use packet::action::permissions;
use packet::header::{HeaderAt, HeaderEncoding};
use packet::header_id::{
    APPLICATION_PARAMETERS, AUTHENTICATE_CHALLENGE, AUTHENTICATE_RESPONSE, PERMISSIONS,
    SESSION_PARAMETERS, TIME, TYPE,
};
use packet::tlv::{TagAt, Wrote};
use packet::{header, tlv};
use std::io;
use std::io::Write;

// A header or a tag of a list, its value, and the place where the next one starts.
#[derive(Clone, Copy)]
struct Piece<'a> {
    id: u8,
    value: &'a [u8],
    next: usize,
}

// Returns the piece of `s` whose value stands from `start` up to `next`, if it is one and ends behind `at`.
fn piece_behind(s: &[u8], at: usize, id: u8, start: usize, next: usize) -> Option<Piece<'_>>
    ensures { IfSome result (λ p. (at < p.next) × (p.next ≤ length s.now)) }
{
    if next <= at {
        return None;
    }
    let value = s.get(start..next)?;
    Some(Piece { id, value, next })
}

// ---- tag lists

// Returns the tag of the list `s` at `at`.
fn tag_piece(s: &[u8], at: usize) -> Option<Piece<'_>>
    ensures { IfSome result (λ p. (at < p.next) × (p.next ≤ length s.now)) }
{
    match tlv::tag_at(s, at) {
        TagAt::At { tag, start, next } => piece_behind(s, at, tag, start, next),
        TagAt::Bad | TagAt::End => None,
    }
}

// Writes the tags of the list `s` with `separator` between them, or a dash if there are none.
fn put_tags(out: &mut impl Write, s: &[u8], separator: &str) -> io::Result<()> {
    if s.is_empty() {
        return write!(out, "-");
    }
    let mut at = 0;
    // Stays a loop over a place: a tag says itself where the next one starts.
    while let Some(tag) = tag_piece(s, at) {
        if at != 0 {
            write!(out, "{separator}")?;
        }
        write!(out, "{}={}", Byte(tag.id), Hex(tag.value))?;
        at = tag.next;
    }
    Ok(())
}

// Answers with the tags of a list.
pub(crate) fn tags(out: &mut impl Write, s: &[u8]) -> io::Result<()> {
    if tlv::is_tag_list(s) {
        put_tags(out, s, " ")
    } else {
        write!(out, "unreadable")
    }
}

// ---- headers

// How a header's value is shown and written.
#[derive(Clone, Copy)]
enum Kind {
    Unicode,
    Type,
    Time,
    Tags,
    Bytes,
    U8,
    U32,
}

impl From<u8> for Kind {
    // Returns the kind of the header `id`. Of those whose value is bytes, Type and Time are text, and four are tag lists.
    fn from(id: u8) -> Kind {
        match header::encoding(id) {
            HeaderEncoding::Unicode => Kind::Unicode,
            HeaderEncoding::Bytes => match id {
                TYPE => Kind::Type,
                TIME => Kind::Time,
                APPLICATION_PARAMETERS
                | AUTHENTICATE_CHALLENGE
                | AUTHENTICATE_RESPONSE
                | SESSION_PARAMETERS => Kind::Tags,
                _ => Kind::Bytes,
            },
            HeaderEncoding::U8 => Kind::U8,
            HeaderEncoding::U32 => Kind::U32,
        }
    }
}

// Returns the header of `s` at `at`.
fn header_piece(s: &[u8], at: usize) -> Option<Piece<'_>>
    ensures { IfSome result (λ p. (at < p.next) × (p.next ≤ length s.now)) }
{
    match walk::step(s, at) {
        HeaderAt::At { id, start, end, .. } => piece_behind(s, at, id, start, end),
        HeaderAt::Unreadable | HeaderAt::End => None,
    }
}

// Returns a value of four bytes, that of Permissions as it is written back.
fn number_of(id: u8, v: &[u8]) -> u32 {
    if v.len() < 4 {
        return 0;
    }
    let n = header::be32_at(v, 0);
    if id == PERMISSIONS { permissions(n) } else { n }
}

// Writes the text of a header's value to `store`, two bytes a character or one, and returns it. It is empty if it does not fit.
fn decoded<'a>(kind: Kind, v: &[u8], store: &'a mut [u8]) -> &'a [u8] {
    let done = match kind {
        Kind::Unicode => text::decode_unicode(v, store),
        _ => text::decode_ascii(v, store),
    };
    match done {
        Ok(n) => store.get(..n).unwrap_or(b""),
        Err(_) => b"",
    }
}

// Writes the header to `store` as the writers give it, from its text if it has one.
fn write_header(kind: Kind, id: u8, v: &[u8], text: &[u8], store: &mut [u8]) -> Wrote {
    match kind {
        Kind::Unicode => header::put_unicode(store, 0, id, text),
        Kind::Type => header::put_type(store, 0, text),
        Kind::Time => header::put_time(store, 0, text),
        Kind::U8 => header::put_u8(store, 0, id, byte_at(v, 0)),
        Kind::U32 => header::put_u32(store, 0, id, number_of(id, v)),
        Kind::Bytes | Kind::Tags => header::put_bytes(store, 0, id, v),
    }
}

// Writes a number as four bytes, the highest first.
fn put_u32(out: &mut impl Write, n: u32) -> io::Result<()> {
    let [a, b, c, d] = n.to_be_bytes();
    write!(out, "{}{}{}{}", Byte(a), Byte(b), Byte(c), Byte(d))
}

// Writes a header's value by its kind.
fn put_value(out: &mut impl Write, kind: Kind, id: u8, v: &[u8], text: &[u8]) -> io::Result<()> {
    match kind {
        Kind::Unicode | Kind::Type | Kind::Time => write!(out, ":text:{}", Hex(text)),
        Kind::U8 => write!(out, ":u8:{}", Hex(v)),
        Kind::Bytes => write!(out, ":bytes:{}", Hex(v)),
        Kind::U32 => {
            write!(out, ":u32:")?;
            put_u32(out, number_of(id, v))
        }
        Kind::Tags => {
            write!(out, ":tags:")?;
            put_tags(out, v, ";")
        }
    }
}

// Writes what is shown of a text that is too long to be written: its length as a header, or of Type and Time the text itself.
fn put_refused(out: &mut impl Write, id: u8, text: &[u8]) -> io::Result<()> {
    if id < 0x40 {
        let size = text::encoded_unicode_len(text).saturating_add(5);
        write!(out, "<{}:error HeaderTooLarge {size}>", Byte(id))
    } else {
        write!(out, "<{}:{}>", Byte(id), Hex(text))
    }
}

// Writes what became of a header: its bytes, or what is shown of its text if that is too long to be written.
fn put_written(
    out: &mut impl Write,
    done: Wrote,
    store: &[u8],
    id: u8,
    text: &[u8],
) -> io::Result<()> {
    match done {
        Wrote::Written(n) => write!(out, "{}", Hex(store.get(..n).unwrap_or(b""))),
        Wrote::TooLong => put_refused(out, id, text),
        Wrote::BadValue => write!(out, "bad"),
        Wrote::Short => write!(out, "short"),
    }
}

// Writes a header's value, or the header as it is written if `is_rewritten` is set. Its text has at most `TEXT` bytes, and all of it at most
// `STORE`.
fn show_within<const TEXT: usize, const STORE: usize>(
    out: &mut impl Write,
    id: u8,
    v: &[u8],
    is_rewritten: bool,
) -> io::Result<()>
    requires { (TEXT < 1000000) × (STORE < 1000000) }
{
    let mut characters = [0u8; TEXT];
    let kind = Kind::from(id);
    let text = decoded(kind, v, &mut characters);
    if is_rewritten {
        let mut store = [0u8; STORE];
        let done = write_header(kind, id, v, text, &mut store);
        put_written(out, done, &store, id, text)
    } else {
        write!(out, " {}", Byte(id))?;
        put_value(out, kind, id, v, text)
    }
}

// Shows each header of `s`, with stores as long as its value needs.
fn each_header(out: &mut impl Write, s: &[u8], is_rewritten: bool) -> io::Result<()> {
    let mut at = 0;
    // Stays a loop over a place: a header says itself where the next one starts.
    while let Some(header) = header_piece(s, at) {
        if header.value.len() < 500 {
            show_within::<1600, 3300>(out, header.id, header.value, is_rewritten)?;
        } else {
            show_within::<200000, 401000>(out, header.id, header.value, is_rewritten)?;
        }
        at = header.next;
    }
    Ok(())
}

// Answers with the headers of `s`: how many there are, their values, what the writers give for them, and whether that is the same.
pub(crate) fn put_headers(out: &mut impl Write, s: &[u8]) -> io::Result<()> {
    let Some(n) = walk::len(s, 0) else {
        return write!(out, "unreadable");
    };
    write!(out, "{n}")?;
    each_header(out, s, false)?;
    write!(out, " = ")?;
    if s.is_empty() {
        write!(out, "-")?;
    }
    each_header(out, s, true)?;
    if header::is_canonical(s) {
        write!(out, " canonical")
    } else {
        write!(out, " other")
    }
}
