// The reply to a Connect (docs/PROTOCOL.md#connect; of the source's handle_connect): the code measures it first, then writes it piece by
// piece.
ghost use Rattle.std.specs.Prelude.{◌≡◌, ◌+◌, ◌≤◌, false, ◌∷◌, ◌++◌, length};
ghost use Rattle.base.specs.Pick.{pick};
ghost use Rattle.digest.specs.Md5.{octets16};
ghost use Rattle.packet.specs.Limits.{max_packet, max_capacity, max_tag_value};
ghost use Rattle.packet.specs.HeaderIds as header_id;
ghost use Rattle.packet.specs.ResponseCodes as response;
ghost use Rattle.packet.specs.Header.{part, bytes_of, all_bytes};
ghost use Rattle.packet.specs.declared.header.HeaderEncoding.TheVariants.{Bytes};
ghost use Rattle.packet.specs.HeaderWriter.{lead_bytes};
ghost use Rattle.packet.specs.Tags.{bytes_at};
ghost use Rattle.packet.specs.Flags.{flag_bits};
ghost use Rattle.packet.specs.AuthWrite.{given, overlong};
ghost use Rattle.packet.specs.Placed.{laid};
ghost use Rattle.connection.specs.Reply.{fields_of, send_bytes, sending, sent_into};
ghost use Rattle.connection.specs.ConnectReply.{connect_headers, challenge_header};
ghost use Rattle.connection.specs.Pieces.{headers_from, first_in, who_place, cut_at, readable, credentials_of, id_given};
ghost use Rattle.connection.specs.Pieces.{id_bytes, who_bytes, answer_bytes, named_bytes, added_bytes, Room, Puts};
ghost use Rattle.connection.specs.Pieces.{id_size, who_size, answer_size, size_of, Inside, Ordered};

use crate::challenge::{first_in, nonce_for};
use crate::reply::begin_connect;
use base::{Span, copy_into};
use digest::md5::Octets16;
use packet::auth::{respond, write_challenge};
use packet::header::{HeaderAt, header_at, is_readable, put_bytes, put_u8, put_u32};
use packet::header_id::{
    AUTHENTICATE_CHALLENGE, AUTHENTICATE_RESPONSE, CONNECTION_ID, SINGLE_RESPONSE_MODE, WHO,
};
use packet::response::UNAUTHORIZED;
use packet::srm::ENABLE;

// ---- what goes into it

// Returns how many of the host's header bytes count: all of them, or none if they cannot be read.
fn readable_len(headers: &[u8]) -> usize
    ensures { result ≡ length (readable headers.now) }
{
    if !is_readable(headers, 0) {
        return 0;
    }
    headers.len()
}

// Returns the place that Who gives back: that of the packet's `target`, unless the host gave a Who itself.
fn who_place(target: Option<Span>, headers: &[u8]) -> Option<Span>
    ensures { result ≡ who_place target (first_in header_id.who headers.now 0) }
{
    if first_in(headers, 0, WHO).is_some() {
        return None;
    }
    target
}

// Returns how many of the host's header bytes go before Who, which is the second header.
fn who_cut(front: Option<u32>, headers: &[u8]) -> usize
    ensures { result ≡ cut_at front headers.now }
{
    if let Some(_) = front {
        return 0;
    }
    match header_at(headers, 0) {
        HeaderAt::At {
            id: _,
            encoding: _,
            start: _,
            end,
        } => end,
        HeaderAt::Unreadable => 0,
        HeaderAt::End => 0,
    }
}

// ---- how long it is

// Returns how many bytes the ConnectionID in front takes.
fn id_size(front: Option<u32>) -> usize
    ensures { result ≡ id_size front }
{
    match front {
        Some(_) => 5,
        None => 0,
    }
}

// Returns how many bytes Who takes.
fn who_size(who: Option<Span>) -> usize
    requires { Ordered who }
    ensures { result ≡ who_size who }
{
    match who {
        Some(value) => 3 + value.size(),
        None => 0,
    }
}

// Stays a flag beside a length, as `connect_reply` has them.
//
// Returns how many bytes the answer to the peer's challenge takes.
fn answer_size(nonce: Option<Octets16>, has_user: bool, user: usize) -> usize
    requires { pick has_user user 0 ≤ max_tag_value }
    ensures { result ≡ answer_size nonce has_user user }
{
    let Some(_) = nonce else {
        return 0;
    };
    if !has_user {
        return 39;
    }
    39 + (2 + user)
}

// Stays a flag beside a length, as `challenge_reply` has them.
//
// Returns how many bytes the header with a challenge takes: 24 without a realm (IrOBEX 1.5, section 3.6.4).
fn challenge_size(has_realm: bool, realm: usize) -> usize
    requires { pick has_realm realm 0 ≤ 254 }
    ensures { result ≡ 24 + pick has_realm (2 + (realm + 1)) 0 }
{
    if !has_realm {
        return 24;
    }
    24 + (2 + (realm + 1))
}

// Returns how many bytes the header that grants Single Response Mode (SRM) takes.
fn grant_size(srm: bool) -> usize
    ensures { result ≡ pick srm 2 0 }
{
    if srm {
        return 2;
    }
    0
}

// Returns how many bytes the headers of the reply take.
fn connect_size(
    front: Option<u32>,
    who: Option<Span>,
    headers: usize,
    nonce: Option<Octets16>,
    // Stays a flag beside a length, as `connect_reply` has them.
    has_user: bool,
    user: usize,
    srm: bool,
) -> usize
    requires { (headers ≤ max_packet) × Ordered who × (pick has_user user 0 ≤ max_tag_value) }
    ensures { result ≡ size_of front who headers nonce has_user user srm }
{
    id_size(front) + headers + who_size(who) + answer_size(nonce, has_user, user) + grant_size(srm)
}

// ---- its pieces

// Writes what stands before a header's value of `n` bytes.
fn put_lead(reply: &mut [u8], at: usize, id: u8, n: usize)
    requires { (at + 3 ≤ length reply.old) × (n ≤ max_capacity) }
    ensures { reply.new ≡ laid reply.old at (lead_bytes Bytes id n) }
{
    reply[at] = id;
    reply[at + 1] = ((3 + n) / 256) as u8;
    reply[at + 2] = ((3 + n) % 256) as u8;
}

// Copies the bytes of `s` from `from` up to `to`, and returns the place behind them.
fn put_part(reply: &mut [u8], at: usize, s: &[u8], from: usize, to: usize) -> usize
    requires { Room reply.old at (part s.now from to) × (from ≤ to) × (to ≤ length s.now) }
    ensures { Puts reply.old at (part s.now from to) result reply.new }
{
    copy_into(reply, at, &s[from..to]);
    at + (to - from)
}

// Writes the ConnectionID in front, if there is one, and returns the place behind it.
fn put_id(reply: &mut [u8], at: usize, front: Option<u32>) -> usize
    requires { Room reply.old at (id_bytes front) }
    ensures { Puts reply.old at (id_bytes front) result reply.new }
{
    let Some(id) = front else {
        return at;
    };
    put_u32(reply, at, CONNECTION_ID, id);
    at + 5
}

// Writes Who, if there is one, and returns the place behind it.
fn put_who(reply: &mut [u8], at: usize, who: Option<Span>, packet: &[u8]) -> usize
    requires { Room reply.old at (who_bytes (bytes_at packet.now who)) × Inside packet.now who }
    ensures { Puts reply.old at (who_bytes (bytes_at packet.now who)) result reply.new }
{
    let Some(value) = who else {
        return at;
    };
    put_bytes(reply, at, WHO, value.of(packet));
    at + 3 + value.size()
}

// Writes the host's headers, with the id in front and Who in the second place, and returns the place behind them.
fn put_named(
    reply: &mut [u8],
    at: usize,
    front: Option<u32>,
    who: Option<Span>,
    packet: &[u8],
    headers: &[u8],
) -> usize
    requires { Room reply.old at (named_bytes front (bytes_at packet.now who) headers.now) × Inside packet.now who }
    ensures { Puts reply.old at (named_bytes front (bytes_at packet.now who) headers.now)
        result reply.new }
{
    let cut = who_cut(front, headers);
    let first = put_id(reply, at, front);
    let second = put_part(reply, first, headers, 0, cut);
    let third = put_who(reply, second, who, packet);
    put_part(reply, third, headers, cut, headers.len())
}

// Writes the answer to the peer's challenge, if there is one, and returns the place behind it.
fn put_answer(
    reply: &mut [u8],
    at: usize,
    nonce: Option<Octets16>,
    // Stays a flag beside the bytes, as `connect_reply` has them.
    has_user: bool,
    user: &[u8],
    password: &[u8],
) -> usize
    requires { Room reply.old at (answer_bytes nonce (given has_user user.now) password.now)
        × (overlong (given has_user user.now) ≡ false) }
    ensures { Puts reply.old at (answer_bytes nonce (given has_user user.now) password.now)
        result reply.new }
{
    let Some(n) = nonce else {
        return at;
    };
    let size = answer_size(nonce, has_user, user.len());
    put_lead(reply, at, AUTHENTICATE_RESPONSE, size - 3);
    respond(reply, at + 3, n, has_user, user, password);
    at + size
}

// Writes the answer to the peer's challenge, and the header that grants SRM, if it is granted.
fn put_added(
    reply: &mut [u8],
    at: usize,
    nonce: Option<Octets16>,
    // Stays a flag beside the bytes, as `connect_reply` has them.
    has_user: bool,
    user: &[u8],
    password: &[u8],
    srm: bool,
)
    requires { Room reply.old at (added_bytes nonce (given has_user user.now) password.now srm)
        × (overlong (given has_user user.now) ≡ false) }
    ensures { reply.new
        ≡ laid reply.old at (added_bytes nonce (given has_user user.now) password.now srm) }
{
    let next = put_answer(reply, at, nonce, has_user, user, password);
    if srm {
        put_u8(reply, next, SINGLE_RESPONSE_MODE, ENABLE);
    }
}

// Writes the reply with all its pieces behind Connect's fields, once they are measured.
fn send_pieces(
    reply: &mut [u8],
    remote: usize,
    code: u8,
    limit: u16,
    front: Option<u32>,
    who: Option<Span>,
    packet: &[u8],
    headers: &[u8],
    nonce: Option<Octets16>,
    // Stays a flag beside the bytes, as `connect_reply` has them.
    has_user: bool,
    user: &[u8],
    password: &[u8],
    srm: bool,
) -> Option<usize>
    requires { (max_packet ≤ length reply.old) × (length packet.now ≤ max_packet) × (length headers.now ≤ max_packet) × Inside packet.now who
        × (overlong (given has_user user.now) ≡ false) }
    ensures { sending result reply.new ≡ sent_into (send_bytes remote code (fields_of limit)
        (named_bytes front (bytes_at packet.now who) headers.now
        ++ added_bytes nonce (given has_user user.now) password.now srm)) reply.old }
{
    let size = connect_size(front, who, headers.len(), nonce, has_user, user.len(), srm);
    let begun = begin_connect(reply, remote, code, limit, size);
    if begun.whole {
        let next = put_named(reply, 7, front, who, packet, headers);
        put_added(reply, next, nonce, has_user, user, password, srm);
    }
    begun.sent
}

// Writes the reply to a Connect that the host accepted: `front` goes in front, and the host's headers and credentials follow. The packet's
// headers start at `from`, and `target` is where the first Target among them stands; `srm` says whether SRM is granted.
pub fn connect_reply(
    reply: &mut [u8],
    remote: usize,
    code: u8,
    limit: u16,
    front: Option<u32>,
    packet: &[u8],
    from: usize,
    target: Option<Span>,
    headers: &[u8],
    has_credentials: bool,
    // Stays a flag beside the bytes: so a host hands a user id over, from C too (`engine::calls::credentials_given`).
    has_user: bool,
    user: &[u8],
    password: &[u8],
    srm: bool,
) -> Option<usize>
    requires { (max_packet ≤ length reply.old) × (length packet.now ≤ max_packet) × (length headers.now ≤ max_packet)
        × (overlong (given has_user user.now) ≡ false) × (target ≡ first_in header_id.target packet.now from) }
    ensures { sending result reply.new ≡ sent_into (send_bytes remote code (fields_of limit) (all_bytes
        (connect_headers (id_given front) (headers_from packet.now from) (headers_from headers.now 0)
        (credentials_of has_credentials (given has_user user.now) password.now) srm))) reply.old }
{
    let n = readable_len(headers);
    let answer = &headers[..n];
    let who = who_place(target, answer);
    let nonce = nonce_for(packet, from, has_credentials);
    send_pieces(
        reply, remote, code, limit, front, who, packet, answer, nonce, has_user, user, password,
        srm,
    )
}

// ---- the challenge that the engine makes

// Writes Unauthorized with a challenge: the client must send the Connect again with a response to it.
pub fn challenge_reply(
    reply: &mut [u8],
    remote: usize,
    limit: u16,
    nonce: Octets16,
    user_id_required: bool,
    read_only: bool,
    // Stays a flag beside the bytes: so the settings say whether there is a realm, from C too (`server::Settings`).
    has_realm: bool,
    charset: u8,
    realm: &[u8],
) -> Option<usize>
    requires { (max_packet ≤ length reply.old) × (overlong (given has_realm (charset ∷ realm.now)) ≡ false) }
    ensures { sending result reply.new ≡ sent_into (send_bytes remote response.unauthorized (fields_of limit) (bytes_of
        (challenge_header (octets16 nonce) (flag_bits user_id_required read_only) (given has_realm (charset ∷ realm.now)))))
        reply.old }
{
    let size = challenge_size(has_realm, realm.len());
    let begun = begin_connect(reply, remote, UNAUTHORIZED, limit, size);
    if begun.whole {
        put_lead(reply, 7, AUTHENTICATE_CHALLENGE, size - 3);
        write_challenge(
            reply,
            10,
            nonce,
            user_id_required,
            read_only,
            has_realm,
            charset,
            realm,
        );
    }
    begun.sent
}
