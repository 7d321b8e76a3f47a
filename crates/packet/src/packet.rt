// Packets (IrOBEX 1.5, sections 3.1 and 3.2; docs/PROTOCOL.md#packets; the source's packet.rs): a first byte, the 16-bit length of the
// whole, Connect's four bytes or SetPath's two, and headers up to the end.
ghost use Rattle.std.specs.Prelude.{◌≡◌, ◌∷◌, ◌+◌, ◌≤◌, ◌<◌, length, get_or, take};
ghost use Rattle.base.specs.Bytes.{bytes16};
ghost use Rattle.packet.specs.Placed.{laid, putting};
ghost use Rattle.packet.specs.Packet.{fields_of, prefix_of, connect_limit, packet_bytes};
ghost use Rattle.packet.specs.PacketWrite.{encoded_connect, connect_bytes, set_path_byte, field_bytes, filled4, parameter_bytes, write_packet, write_request, write_response};
ghost use Rattle.packet.specs.PacketRead.{packet_head, packet_length, parse_packet, parse_front, flags_of, parse_response};
ghost use Rattle.packet.specs.ResponsePacket.{response_prefix};

use crate::flags::flag_bits;
use crate::header::is_readable;
use crate::limits::{MAX_PACKET, MIN_PACKET};
use crate::opcode::{FirstByte, Opcode, from_byte, to_byte};
use crate::response;
use crate::store::{LengthField, room};
use crate::tlv::Wrote;
use base::{be16_at, copy_into, wide};

// The protocol version that Connect packets name: 1.0, the major version in the high four bits.
pub const OBEX_VERSION: u8 = 0x10;

// The number of bytes before the headers of a regular packet: the first byte and the length.
pub const PACKET_PREFIX_LENGTH: usize = 3;

// The bit by which SetPath goes up a level before it applies the name.
const BACKUP: u8 = 0x01;

// The bit by which SetPath does not create a folder.
const NO_CREATE: u8 = 0x02;

// What stands before a packet's headers, which start at `headers`.
#[derive(Clone, Copy)]
pub struct Head {
    pub opcode: Opcode,
    pub is_final: bool,
    pub headers: usize,
}

// A request as read. Its headers stand from `headers` up to the packet's end at `length`.
#[derive(Clone, Copy)]
pub struct Request {
    pub opcode: Opcode,
    pub is_final: bool,
    pub headers: usize,
    pub length: usize,
}

// A response as read. The code stands without the Final bit; the headers stand from `headers` up to the packet's end at `length`.
#[derive(Clone, Copy)]
pub struct Response {
    pub code: u8,
    pub is_final: bool,
    pub headers: usize,
    pub length: usize,
}

// The flags of a SetPath request.
#[derive(Clone, Copy)]
pub struct SetPathFlags {
    // The path goes up a level before the name is applied, like `cd ..`.
    pub backup: bool,
    // A folder that does not exist is not created; the answer is an error instead.
    pub no_create: bool,
}

// ---- reading

// Returns the length of the packet at the start of `buf`, once its length field has come. This is all that a stream transport needs to
// split bytes into packets.
pub fn packet_length(buf: &[u8]) -> Option<usize>
    ensures { result ≡ packet_length buf.now }
{
    if buf.len() < PACKET_PREFIX_LENGTH {
        return None;
    }
    Some(be16_at(buf, 1))
}

// Returns how many bytes stand between the length and the headers.
fn fields_len(opcode: Opcode) -> usize
    ensures { (result ≡ fields_of opcode) × (result ≤ 4) }
{
    match opcode {
        Opcode::Connect => 4,
        Opcode::SetPath => 2,
        _ => 0,
    }
}

// Returns how many bytes stand before the headers of a request with `opcode`.
pub fn prefix_len(opcode: Opcode) -> usize
    ensures { result ≡ prefix_of opcode }
{
    PACKET_PREFIX_LENGTH + fields_len(opcode)
}

// Reads what stands before the headers of packet `p`. Whether its headers can be read is not looked at, so that a caller who walks them
// anyway need not walk them twice.
pub fn packet_head(p: &[u8]) -> Option<Head>
    ensures { result ≡ packet_head p.now }
{
    if p.len() < PACKET_PREFIX_LENGTH {
        return None;
    }
    let FirstByte { opcode, is_final } = from_byte(p[0])?;
    let headers = prefix_len(opcode);
    if p.len() < headers {
        return None;
    }
    Some(Head {
        opcode,
        is_final,
        headers,
    })
}

// Reads `p` as one packet, whatever its length field says.
pub fn parse_packet(p: &[u8]) -> Option<Request>
    ensures { result ≡ parse_packet p.now }
{
    let Head {
        opcode,
        is_final,
        headers,
    } = packet_head(p)?;
    if !is_readable(p, headers) {
        return None;
    }
    Some(Request {
        opcode,
        is_final,
        headers,
        length: p.len(),
    })
}

// Reads the packet at the front of `s`, by its length field.
pub fn parse(s: &[u8]) -> Option<Request>
    ensures { result ≡ parse_front s.now }
{
    let n = packet_length(s)?;
    if n < PACKET_PREFIX_LENGTH {
        return None;
    }
    parse_packet(s.get(..n)?)
}

// Returns the byte at `at` of a packet, or 0 past its end.
fn byte_at(p: &[u8], at: usize) -> u8
    ensures { result ≡ get_or p.now at 0 }
{
    p.get(at).copied().unwrap_or(0)
}

// Returns how many bytes stand before the headers of a response: Connect's fields stand there only if it answers a Connect.
fn response_prefix(connect: bool) -> usize
    ensures { result ≡ response_prefix connect }
{
    if connect {
        PACKET_PREFIX_LENGTH + 4
    } else {
        PACKET_PREFIX_LENGTH
    }
}

// Reads `p` as one response, to a Connect or to another request, whatever its length field says. As in the source, the Final bit is read
// and not demanded.
pub fn parse_response(p: &[u8], connect: bool) -> Option<Response>
    ensures { result ≡ parse_response connect p.now }
{
    let first = byte_at(p, 0);
    let code = first % 128;
    if !response::is_code(code) {
        return None;
    }
    let start = response_prefix(connect);
    if p.len() < start {
        return None;
    }
    if !is_readable(p, start) {
        return None;
    }
    Some(Response {
        code,
        is_final: 128 <= first,
        headers: start,
        length: p.len(),
    })
}

// Returns the limit that a Connect names: the largest packet that its sender can receive.
pub fn connect_limit(p: &[u8]) -> usize
    ensures { result ≡ connect_limit p.now }
{
    wide(byte_at(p, 5)) * 256 + wide(byte_at(p, 6))
}

// Reads the flags of a SetPath.
pub fn set_path_flags(p: &[u8]) -> SetPathFlags
    ensures { result ≡ flags_of p.now }
{
    let flags = byte_at(p, 3);
    SetPathFlags {
        backup: flags & BACKUP != 0,
        no_create: flags & NO_CREATE != 0,
    }
}

// ---- writing

// The operation specific fields of a request that is to be written. The writer ignores fields of another operation, and gives missing ones
// their defaults.
#[derive(Clone, Copy)]
pub enum Fields {
    Default,
    Connect(ConnectParameters),
    SetPath(SetPathFlags),
}

// The fields of a Connect, and of a response to one. Such a response cannot be told from any other by its bytes alone.
#[derive(Clone, Copy)]
pub struct ConnectParameters {
    pub version: u8,
    pub flags: u8,
    pub max_packet_length: u16,
}

// Writes the first byte and the length of a packet at the front of the store.
pub fn put_prefix(store: &mut [u8], byte: u8, size: usize)
    requires { (3 ≤ length store.old) × (size < 65536) }
    ensures { store.new ≡ laid store.old 0 (byte ∷ bytes16 size) }
{
    store[0] = byte;
    store[1] = (size / 256) as u8;
    store[2] = (size % 256) as u8;
}

// Writes a packet that fits at the front of the store.
fn put_packet(store: &mut [u8], byte: u8, fields: &[u8], headers: &[u8])
    requires { (3 + length fields.now + length headers.now ≤ length store.old)
        × (3 + length fields.now + length headers.now < 65536) }
    ensures { store.new ≡ laid store.old 0 (packet_bytes byte fields.now headers.now) }
{
    let n = PACKET_PREFIX_LENGTH + fields.len();
    put_prefix(store, byte, n + headers.len());
    copy_into(store, PACKET_PREFIX_LENGTH, fields);
    copy_into(store, n, headers);
}

// Writes a packet at the front of the store; its fields are the first `n` of four bytes. A length over 65,535 has no length field.
fn write_packet(store: &mut [u8], byte: u8, fields: [u8; 4], n: usize, headers: &[u8]) -> Wrote
    requires { (length fields ≡ 4) × (n ≤ 4) }
    ensures { putting result store.new
        ≡ write_packet store.old (packet_bytes byte (take n fields) headers.now) }
{
    let need = PACKET_PREFIX_LENGTH + n + headers.len();
    let answer = room(
        store.len(),
        0,
        need,
        LengthField::TwoBytes,
        MAX_PACKET < need,
    );
    let Wrote::Written(next) = answer else {
        return answer;
    };
    put_packet(store, byte, &fields[..n], headers);
    Wrote::Written(next)
}

// Returns Connect's four bytes: version, flags and limit.
fn encode_connect(connect: ConnectParameters) -> [u8; 4]
    ensures { result ≡ encoded_connect connect }
{
    let ConnectParameters {
        version,
        flags,
        max_packet_length: limit,
    } = connect;
    [version, flags, (limit / 256) as u8, (limit % 256) as u8]
}

// Returns Connect's four bytes by `fields`, or the defaults: version 1.0, no flags, the smallest limit.
fn connect_bytes(fields: Fields) -> [u8; 4]
    ensures { result ≡ connect_bytes fields }
{
    match fields {
        Fields::Connect(connect) => encode_connect(connect),
        _ => encode_connect(ConnectParameters {
            version: OBEX_VERSION,
            flags: 0,
            max_packet_length: MIN_PACKET,
        }),
    }
}

// Returns SetPath's first byte by `fields`, or 0; its second byte, the constants, is 0.
fn set_path_byte(fields: Fields) -> u8
    ensures { result ≡ set_path_byte fields }
{
    match fields {
        Fields::SetPath(flags) => flag_bits(flags.backup, flags.no_create),
        _ => 0,
    }
}

// Returns the fields of a request in front of zeros, four bytes in all.
fn field_bytes(opcode: Opcode, fields: Fields) -> [u8; 4]
    ensures { result ≡ filled4 (field_bytes opcode fields) }
{
    match opcode {
        Opcode::Connect => connect_bytes(fields),
        Opcode::SetPath => [set_path_byte(fields), 0, 0, 0],
        _ => [0, 0, 0, 0],
    }
}

// Writes a request at the front of the store. The Final bit is set if `is_final` asks for it or the opcode always has it.
pub fn write_request(
    store: &mut [u8],
    opcode: Opcode,
    is_final: bool,
    fields: Fields,
    headers: &[u8],
) -> Wrote
    ensures { putting result store.new ≡ write_request store.old opcode is_final fields headers.now }
{
    let byte = to_byte(opcode, is_final);
    let bytes = field_bytes(opcode, fields);
    write_packet(store, byte, bytes, fields_len(opcode), headers)
}

// Returns the four bytes of a response to a Connect, or four zeros, of which none is written, for any other.
fn parameter_bytes(connect: Option<ConnectParameters>) -> [u8; 4]
    ensures { result ≡ filled4 (parameter_bytes connect) }
{
    match connect {
        Some(connect) => encode_connect(connect),
        None => [0, 0, 0, 0],
    }
}

// Returns how many of those four bytes are written.
fn parameters_len(connect: Option<ConnectParameters>) -> usize
    ensures { (result ≡ length (parameter_bytes connect)) × (result ≤ 4) }
{
    if connect.is_some() { 4 } else { 0 }
}

// Writes a response at the front of the store.
pub fn write_response(
    store: &mut [u8],
    code: u8,
    connect: Option<ConnectParameters>,
    headers: &[u8],
) -> Wrote
    ensures { putting result store.new ≡ write_response store.old code connect headers.now }
{
    let byte = response::to_byte(code);
    let bytes = parameter_bytes(connect);
    write_packet(store, byte, bytes, parameters_len(connect), headers)
}
