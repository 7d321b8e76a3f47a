// Questions on first bytes, response codes and packets: what is read, and what the writers give.
use crate::headers::put_headers;
use crate::show::{Byte, final_word, put_done};
use base::wide;
use lines::word::byte_at;
use packet::flags::flag_bits;
use packet::opcode::{FirstByte, Opcode};
use packet::packet::{ConnectParameters, Fields, PACKET_PREFIX_LENGTH, SetPathFlags};
use packet::{header, opcode, packet as packets, response};
use std::io;
use std::io::Write;

// ---- bytes that name things

// Returns the opcode whose own value is `byte`.
fn opcode_of(byte: u8) -> Option<Opcode> {
    let op = opcode::from_byte(byte)?.opcode;
    if opcode::value(op) == byte {
        Some(op)
    } else {
        None
    }
}

// Returns the code of `byte` without its Final bit, which is taken away first, as the original does.
fn code_of(byte: u8) -> Option<u8> {
    let code = byte & 0x7F;
    if response::is_code(code) {
        Some(code)
    } else {
        None
    }
}

// Answers a question on the first byte of a request: opcode, Final bit, and the byte that the two make again.
pub(crate) fn first(out: &mut impl Write, byte: u8) -> io::Result<()> {
    let Some(FirstByte { opcode, is_final }) = opcode::from_byte(byte) else {
        return write!(out, "unknown");
    };
    write!(
        out,
        "{} {} {} {}",
        opcode,
        Byte(opcode::value(opcode)),
        final_word(is_final),
        Byte(opcode::to_byte(opcode, is_final)),
    )
}

// Answers a question on a response code.
pub(crate) fn code(out: &mut impl Write, byte: u8) -> io::Result<()> {
    let Some(code) = code_of(byte) else {
        return write!(out, "unknown");
    };
    let class = if response::is_success(code) {
        " success "
    } else {
        " other "
    };
    let sent = response::to_byte(code);
    write!(out, "{}{class}{}", Byte(code), Byte(sent))
}

// Answers with the length that the front of a packet states.
pub(crate) fn packet_length(out: &mut impl Write, s: &[u8]) -> io::Result<()> {
    match packets::packet_length(s) {
        Some(n) => write!(out, "{n}"),
        None => write!(out, "none"),
    }
}

// ---- packets that are read

// Writes version, flags and packet length of a Connect, the length as it limits what is sent.
fn put_connect(out: &mut impl Write, is_connect: bool, p: &[u8]) -> io::Result<()> {
    if !is_connect {
        return write!(out, "none");
    }
    let limit = packets::connect_limit(p);
    write!(
        out,
        "{}{}{}{}",
        Byte(byte_at(p, 3)),
        Byte(byte_at(p, 4)),
        Byte((limit / 256 % 256) as u8),
        Byte((limit % 256) as u8),
    )
}

// Writes the flags of a SetPath.
fn put_set_path(out: &mut impl Write, op: Opcode, p: &[u8]) -> io::Result<()> {
    if !matches!(op, Opcode::SetPath) {
        return write!(out, "none");
    }
    let flags = packets::set_path_flags(p);
    write!(out, "{}", Byte(flag_bits(flags.backup, flags.no_create)))
}

// Answers with the request at the front of `s`: its opcode, the fields of its prefix, how many bytes are left behind it, and its headers.
pub(crate) fn parsed(out: &mut impl Write, s: &[u8]) -> io::Result<()> {
    let Some(request) = packets::parse(s) else {
        return write!(out, "unreadable");
    };
    let (p, rest) = split(s, request.length);
    write!(
        out,
        "{} {} {} connect=",
        request.opcode,
        Byte(opcode::value(request.opcode)),
        final_word(request.is_final),
    )?;
    put_connect(out, matches!(request.opcode, Opcode::Connect), p)?;
    write!(out, " set_path=")?;
    put_set_path(out, request.opcode, p)?;
    write!(out, " left={} ", rest.len())?;
    put_headers(out, p.get(request.headers..).unwrap_or(b""))
}

// Returns the packet of `n` bytes at the front of `s` and what stands behind it, or no packet if it is not whole.
fn split(s: &[u8], n: usize) -> (&[u8], &[u8]) {
    s.split_at_checked(n).unwrap_or((b"", s))
}

// Answers a question on a response, to a Connect or to another request.
pub(crate) fn answered(out: &mut impl Write, s: &[u8], connect: bool) -> io::Result<()> {
    let (p, rest) = split(s, packets::packet_length(s).unwrap_or(0));
    let Some(response) = packets::parse_response(p, connect) else {
        return write!(out, "unreadable");
    };
    write!(
        out,
        "{} {} connect=",
        Byte(response.code),
        final_word(response.is_final),
    )?;
    put_connect(out, connect, s)?;
    write!(out, " left={} ", rest.len())?;
    put_headers(out, p.get(response.headers..).unwrap_or(b""))
}

// ---- packets that are written

// Returns the Connect parameters of four bytes. A missing byte is 0.
fn parameters_of(b: &[u8]) -> ConnectParameters {
    let n = wide(byte_at(b, 2)) * 256 + wide(byte_at(b, 3));
    ConnectParameters {
        version: byte_at(b, 0),
        flags: byte_at(b, 1),
        max_packet_length: n as u16,
    }
}

// Returns the fields that some bytes name: four are a Connect's, one is a SetPath's. Without bytes they are the defaults.
pub(crate) fn fields_of(bytes: Option<&[u8]>) -> Fields {
    let Some(b) = bytes else {
        return Fields::Default;
    };
    if b.len() == 4 {
        return Fields::Connect(parameters_of(b));
    }
    let flags = byte_at(b, 0);
    Fields::SetPath(SetPathFlags {
        backup: flags & 0x01 != 0,
        no_create: flags & 0x02 != 0,
    })
}

// Answers with the bytes of a request. `byte` names an opcode only if it is the opcode's own value.
pub(crate) fn request(
    out: &mut impl Write,
    byte: u8,
    is_final: bool,
    fields: Fields,
    headers: &[u8],
) -> io::Result<()> {
    let Some(op) = opcode_of(byte) else {
        return write!(out, "unknown");
    };
    if !header::is_readable(headers, 0) {
        return write!(out, "unreadable");
    }
    let mut store = [0u8; 150000];
    let done = packets::write_request(&mut store, op, is_final, fields, headers);
    let size = packets::prefix_len(op).saturating_add(headers.len());
    put_done(out, done, &store, "error PacketTooLarge ", size)
}

// Answers with the bytes of a response. `parameters` are the bytes of its Connect parameters, if it has any.
pub(crate) fn reply(
    out: &mut impl Write,
    byte: u8,
    parameters: Option<&[u8]>,
    headers: &[u8],
) -> io::Result<()> {
    let Some(code) = code_of(byte) else {
        return write!(out, "unknown");
    };
    if !header::is_readable(headers, 0) {
        return write!(out, "unreadable");
    }
    let mut store = [0u8; 150000];
    let connect = parameters.map(parameters_of);
    let done = packets::write_response(&mut store, code, connect, headers);
    let prefix = if parameters.is_some() {
        PACKET_PREFIX_LENGTH + 4
    } else {
        PACKET_PREFIX_LENGTH
    };
    let size = headers.len().saturating_add(prefix);
    put_done(out, done, &store, "error PacketTooLarge ", size)
}
