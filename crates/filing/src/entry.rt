// What the frames of a log say (docs/ARCHIVE.md#the-log): their kinds, their entries, and the settings of the first one.
ghost use Rattle.std.specs.Prelude.{◌≡◌, ◌&&◌, ◌||◌, ◌+◌, ◌*◌, eqb, get_or};
ghost use Rattle.base.specs.Pick.{pick};
ghost use Rattle.filing.specs.Kinds.{is_set, settings_in};
ghost use Rattle.filing.specs.declared.entry.EntryRead.TheVariants.{End, Nothing};
ghost use Rattle.filing.specs.ReadBack.{kind_read, entry_read, settings_with};

use crate::frame::Kind;
use base::wide32;

// What a payload says; what has no number here is the payload, or a part of it.
#[derive(Clone, Copy)]
pub enum EntryRead {
    // Bytes of the client: the payload.
    Packet,
    // A reply that was sent, by its first byte.
    Reply(u8),
    // The host's reply, by its code; its headers follow the first byte of the payload.
    Answer(u8),
    // The host's object.
    Object,
    // A check of a password, and whether it was right.
    Check(bool),
    // A challenge's nonce: the payload.
    Nonce,
    // The ids that the host closed together: the payload, four bytes each.
    Ids,
    // The end of the client's stream.
    End,
    // Nothing that decides which records there are.
    Nothing,
}

// The settings of a session, so far as they decide which records there are.
#[derive(Clone, Copy)]
pub struct SettingsRead {
    pub limit: u32,
    pub srm: bool,
    pub authentication: bool,
    // A user id is asked for, and one that is not the user's is refused.
    pub demands_user: bool,
    pub refuses: bool,
}

// Returns the kind of a frame, by its four letters as one number; none if no frame has these letters.
// Stays a match on numbers: they are the letters that stand in the log (docs/ARCHIVE.md#the-log).
pub fn kind_in(letters: u32) -> Option<Kind>
    ensures { result ≡ kind_read letters }
{
    match letters {
        0x6F70656E => Some(Kind::Open),
        0x72656376 => Some(Kind::Recv),
        0x70617274 => Some(Kind::Part),
        0x73656E74 => Some(Kind::Sent),
        0x616E7377 => Some(Kind::Answ),
        0x6F626A74 => Some(Kind::Objt),
        0x70617373 => Some(Kind::Pass),
        0x6E6F6E63 => Some(Kind::Nonc),
        0x636C6F73 => Some(Kind::Clos),
        0x66696C65 => Some(Kind::File),
        0x6661696C => Some(Kind::Fail),
        0x646F6E65 => Some(Kind::Done),
        _ => None,
    }
}

// Returns the byte at place `i`, or 0 if there is none.
fn byte_at(payload: &[u8], i: usize) -> u8
    ensures { result ≡ get_or payload.now i 0 }
{
    if i < payload.len() { payload[i] } else { 0 }
}

// Returns what the end with this number says: in the first two cases the client's stream ended.
fn end_read(number: u8) -> EntryRead
    ensures { result ≡ pick (eqb number 1 || eqb number 2) End Nothing }
{
    if number == 1 {
        return EntryRead::End;
    }
    if number == 2 {
        return EntryRead::End;
    }
    EntryRead::Nothing
}

// Returns what the payload of a frame says.
pub fn entry_in(kind: Kind, payload: &[u8]) -> EntryRead
    ensures { result ≡ entry_read kind payload.now }
{
    let b = byte_at(payload, 0);
    match kind {
        Kind::Open => EntryRead::Nothing,
        Kind::Recv => EntryRead::Packet,
        Kind::Part => EntryRead::Packet,
        Kind::Sent => EntryRead::Reply(b),
        Kind::Answ => EntryRead::Answer(b),
        Kind::Objt => EntryRead::Object,
        Kind::Pass => EntryRead::Check(b == 1),
        Kind::Nonc => EntryRead::Nonce,
        Kind::Clos => EntryRead::Ids,
        Kind::File => EntryRead::Nothing,
        Kind::Fail => EntryRead::Nothing,
        Kind::Done => end_read(b),
    }
}

// Returns the number of four bytes.
fn be32_of(a: u8, b: u8, c: u8, d: u8) -> u32
    ensures { result ≡ ((a * 256 + b) * 256 + c) * 256 + d }
{
    ((wide32(a) * 256 + wide32(b)) * 256 + wide32(c)) * 256 + wide32(d)
}

// Tells whether a user id is demanded, by the flags of the first frame.
fn must_name_user(flags: u8) -> bool
    ensures { result ≡ (is_set 16 flags && is_set 4 flags) }
{
    if flags / 16 % 2 != 1 {
        return false;
    }
    flags / 4 % 2 == 1
}

// Returns the settings that the first frame's payload says; bytes that are missing count as zeros.
pub fn settings_in(payload: &[u8]) -> SettingsRead
    ensures { settings_with result ≡ settings_in payload.now }
{
    let flags = byte_at(payload, 10);
    let limit = be32_of(
        byte_at(payload, 4),
        byte_at(payload, 5),
        byte_at(payload, 6),
        byte_at(payload, 7),
    );
    SettingsRead {
        limit: limit,
        srm: flags % 2 == 1,
        authentication: flags / 2 % 2 == 1,
        demands_user: must_name_user(flags),
        refuses: flags / 32 % 2 == 1,
    }
}
