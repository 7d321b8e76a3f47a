// Replies (docs/PROTOCOL.md#reply-limit; the source's send). A reply over 65,535 bytes ends the engine (7). If a reply is over the peer's
// limit, the host produced headers that the client cannot receive: Internal Server Error goes in its place, and keeps Connect's fields.
ghost use Rattle.std.specs.Prelude.{◌≡◌, ◌+◌, ◌<◌, ◌≤◌, [], length};
ghost use Rattle.packet.specs.Limits.{max_packet};
ghost use Rattle.packet.specs.Packet.{packet_bytes};
ghost use Rattle.connection.specs.Reply.{fields_of, start_bytes, send_bytes, front, continue_bytes};
ghost use Rattle.connection.specs.Reply.{sending, sent_into, fit_of_of, beginning, begins_by};

use base::copy_into;
use packet::header_id::SINGLE_RESPONSE_MODE;
use packet::limits::MAX_PACKET;
use packet::packet::{OBEX_VERSION, put_prefix};
use packet::response::{CONTINUE_BYTE, INTERNAL_SERVER_ERROR, to_byte};
use packet::srm::ENABLE;

// A reply that was begun: whether its headers are to follow, and how many bytes of it then stand in the store; none if the reply is too
// large (7).
#[derive(Clone, Copy)]
pub struct Begun {
    pub whole: bool,
    pub sent: Option<usize>,
}

// Stays an enum of three answers: a reply that is replaced is sent, and one that is too large is not.
//
// What becomes of a reply by its length: it goes whole, it is replaced, or it is too large for any packet.
#[derive(Clone, Copy)]
pub enum Fit {
    Whole,
    Replaced,
    TooLarge,
}

// Tells what becomes of a reply of `lead` bytes before its headers and `headers` bytes of headers. Too large for any packet is told before
// the peer's limit.
pub fn fits(remote: usize, lead: usize, headers: usize) -> Fit
    requires { lead ≤ max_packet }
    ensures { result ≡ fit_of_of remote (lead + headers) }
{
    if headers > MAX_PACKET - lead {
        return Fit::TooLarge;
    }
    if lead + headers > remote {
        return Fit::Replaced;
    }
    Fit::Whole
}

// Writes a reply of three bytes, without headers.
pub fn put_reply_code(reply: &mut [u8], byte: u8)
    requires { 3 ≤ length reply.old }
    ensures { reply.new ≡ front (packet_bytes byte [] []) reply.old }
{
    put_prefix(reply, byte, 3);
}

// Writes Continue, with SingleResponseMode if Single Response Mode (SRM) is granted, and returns how many bytes that takes.
pub fn put_continue(reply: &mut [u8], grant: bool) -> usize
    requires { 5 ≤ length reply.old }
    ensures { (result ≡ length (continue_bytes grant)) × (reply.new ≡ front (continue_bytes grant) reply.old) }
{
    if !grant {
        put_prefix(reply, CONTINUE_BYTE, 3);
        return 3;
    }
    put_prefix(reply, CONTINUE_BYTE, 5);
    reply[3] = SINGLE_RESPONSE_MODE;
    reply[4] = ENABLE;
    5
}

// Writes a reply with headers and without Connect's fields, and returns how many bytes that takes; none if the reply is too large (7).
pub fn send(reply: &mut [u8], remote: usize, code: u8, headers: &[u8]) -> Option<usize>
    requires { max_packet ≤ length reply.old }
    ensures { sending result reply.new ≡ sent_into (send_bytes remote code [] headers.now) reply.old }
{
    let n = headers.len();
    match fits(remote, 3, n) {
        Fit::TooLarge => None,
        Fit::Replaced => {
            put_prefix(reply, to_byte(INTERNAL_SERVER_ERROR), 3);
            Some(3)
        }
        Fit::Whole => {
            put_prefix(reply, to_byte(code), 3 + n);
            copy_into(reply, 3, headers);
            Some(3 + n)
        }
    }
}

// Writes what stands before the headers of a reply to a Connect: also version 1.0, no flags, and the engine's own limit.
pub fn put_connect_prefix(reply: &mut [u8], byte: u8, n: usize, limit: u16)
    requires { (n < 65536) × (7 ≤ length reply.old) }
    ensures { reply.new ≡ front (start_bytes byte n limit) reply.old }
{
    put_prefix(reply, byte, n);
    reply[3] = OBEX_VERSION;
    reply[4] = 0x00;
    reply[5] = (limit / 256) as u8;
    reply[6] = (limit % 256) as u8;
}

// Begins a reply to a Connect whose headers take `size` bytes.
pub fn begin_connect(reply: &mut [u8], remote: usize, code: u8, limit: u16, size: usize) -> Begun
    requires { 7 ≤ length reply.old }
    ensures { beginning result reply.new ≡ begins_by (fit_of_of remote (7 + size)) code limit size reply.old }
{
    match fits(remote, 7, size) {
        Fit::TooLarge => Begun {
            whole: false,
            sent: None,
        },
        Fit::Replaced => {
            put_connect_prefix(reply, to_byte(INTERNAL_SERVER_ERROR), 7, limit);
            Begun {
                whole: false,
                sent: Some(7),
            }
        }
        Fit::Whole => {
            put_connect_prefix(reply, to_byte(code), 7 + size, limit);
            Begun {
                whole: true,
                sent: Some(7 + size),
            }
        }
    }
}

// Writes a reply with Connect's fields and headers, and returns how many bytes that takes; none if the reply is too large (7).
pub fn send_connect(
    reply: &mut [u8],
    remote: usize,
    code: u8,
    limit: u16,
    headers: &[u8],
) -> Option<usize>
    requires { max_packet ≤ length reply.old }
    ensures { sending result reply.new
        ≡ sent_into (send_bytes remote code (fields_of limit) headers.now) reply.old }
{
    let begun = begin_connect(reply, remote, code, limit, headers.len());
    if begun.whole {
        copy_into(reply, 7, headers);
    }
    begun.sent
}
