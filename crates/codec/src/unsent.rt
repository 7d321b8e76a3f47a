// Questions on what is still to be sent of an object: packets that are made, put back and made again.
ghost use Rattle.std.specs.Prelude.{◌≤◌};
ghost use Rattle.packet.specs.Limits.{max_capacity};

use crate::show::Hex;
use lines::word::unhex;
use outgoing::object::{Next, NextPacket, Outgoing, body_given, next_after};
use outgoing::queue as queues;
use packet::header;
use packet::limits::{MAX_CAPACITY, MAX_PACKET};
use packet::packet::PACKET_PREFIX_LENGTH;
use packet::tlv::Wrote;
use std::io;
use std::io::Write;

// What is still to be sent of an object: the headers of one store that `outgoing` names, and the body from `given` up to `end` of another. The
// packet that was made last and not put back is the first `made` bytes of the third. No packet is longer than `limit`.
// Stays stores with places beside them: what goes out is passed over and not moved, and what is put back is written in front of the rest.
#[derive(Drop)]
struct Unsent {
    limit: usize,
    outgoing: Outgoing,
    headers: [u8; 20000],
    body: [u8; 20000],
    given: usize,
    end: usize,
    packet: [u8; 65535],
    made: usize,
}

// Returns how many bytes stand behind the first three of a packet of `limit` bytes.
fn capacity_of(limit: usize) -> usize
    ensures { result ≤ max_capacity }
{
    limit.min(MAX_PACKET).saturating_sub(PACKET_PREFIX_LENGTH)
}

// Gives body bytes to a packet if it waits for so many.
fn give(p: NextPacket, d: &[u8], packet: &mut [u8; 65535]) -> NextPacket {
    let Next::Read = p.next else {
        return p;
    };
    let c = p.chunk;
    let fits = d.len() <= c.room
        && c.at <= MAX_CAPACITY
        && c.got <= MAX_CAPACITY - c.at
        && c.room <= MAX_CAPACITY + 1 - c.at - c.got;
    if !fits {
        return NextPacket {
            next: Next::TooLarge,
            ..p
        };
    }
    body_given(p.outgoing, c, d, packet)
}

// Returns how many of `len` body bytes a packet waits for.
fn awaited(p: NextPacket, len: usize) -> usize
    ensures { result ≤ len }
{
    match p.next {
        Next::Read => p.chunk.room.min(len),
        _ => 0,
    }
}

impl Unsent {
    // Begins the next packet.
    fn begin(&mut self) -> NextPacket {
        let outgoing = Outgoing {
            total: self.outgoing.total.min(self.headers.len()),
            ..self.outgoing
        };
        next_after(
            PACKET_PREFIX_LENGTH,
            capacity_of(self.limit),
            outgoing,
            &self.headers,
            &mut self.packet,
        )
    }

    // Makes the next packet. A byte that was read ahead is given again with the next.
    fn make(&mut self, out: &mut impl Write) -> io::Result<()> {
        let first = self.begin();
        let body = self.body.get(self.given..self.end).unwrap_or(b"");
        let n = awaited(first, body.len());
        let second = give(first, &body[..n], &mut self.packet);
        let third = give(second, &body[n..], &mut self.packet);
        self.outgoing = third.outgoing;
        self.given = self.given.saturating_add(n);
        if self.outgoing.has_pending {
            self.outgoing.has_pending = false;
            self.given = self.given.saturating_sub(1);
        }
        let Next::Send { length, last } = third.next else {
            self.made = PACKET_PREFIX_LENGTH;
            return write!(out, "large");
        };
        self.made = length;
        write!(
            out,
            "{}{}",
            if last { "last:" } else { "more:" },
            Hex(self.headers_made()),
        )
    }

    // Returns the packet that was made last, without what stands before its headers.
    fn headers_made(&self) -> &[u8] {
        self.packet
            .get(PACKET_PREFIX_LENGTH..self.made)
            .unwrap_or(b"")
    }

    // Puts the packet back that was made last.
    fn put_back(&mut self, out: &mut impl Write) -> io::Result<()> {
        write!(out, "r")?;
        let sent = self.outgoing.sent.min(self.headers.len());
        let given = self.given.min(self.body.len());
        let done = queues::rewind(
            self.packet
                .get(PACKET_PREFIX_LENGTH..self.made)
                .unwrap_or(b""),
            self.outgoing.has_body,
            &mut self.headers[sent..],
            self.outgoing.total.saturating_sub(sent),
            &mut self.body[given..],
            self.end.saturating_sub(given),
        );
        let Some(rewound) = done else {
            return write!(out, " short");
        };
        self.outgoing.total = sent.saturating_add(rewound.headers);
        self.end = given.saturating_add(rewound.pending);
        self.made = PACKET_PREFIX_LENGTH;
        Ok(())
    }

    // Puts the header in early whose digits are `w`.
    fn put_early(&mut self, out: &mut impl Write, w: &[u8]) -> io::Result<()> {
        let mut header = [0u8; 1024];
        let n = unhex(w, &mut header);
        write!(out, "i")?;
        let sent = self.outgoing.sent.min(self.headers.len());
        let done = queues::insert_early(
            &mut self.headers[sent..],
            self.outgoing.total.saturating_sub(sent),
            &header[..n],
        );
        let Wrote::Written(n) = done else {
            return write!(out, " short");
        };
        self.outgoing.total = sent.saturating_add(n);
        Ok(())
    }

    // Does the step that the word `w` names: `n` makes the next packet, `r` puts it back, `i:` and a header puts that in early.
    fn step(&mut self, out: &mut impl Write, w: &[u8]) -> io::Result<()> {
        match w.first() {
            Some(b'n') => self.make(out),
            Some(b'r') => self.put_back(out),
            _ => self.put_early(out, w.get(2..).unwrap_or(b"")),
        }
    }
}

// Answers with a word for each step on what is still to be sent of `headers` and a body. The steps of `text` are separated by commas.
pub(crate) fn queue(
    out: &mut impl Write,
    limit: usize,
    headers: &[u8],
    body: Option<&[u8]>,
    text: &[u8],
) -> io::Result<()> {
    if !header::is_readable(headers, 0) {
        return write!(out, "unreadable");
    }
    let bytes = body.unwrap_or(b"");
    let mut q = Unsent {
        limit,
        outgoing: Outgoing {
            total: headers.len(),
            sent: 0,
            lead: false,
            has_body: body.is_some(),
            has_pending: false,
            pending: 0,
        },
        headers: [0; 20000],
        body: [0; 20000],
        given: 0,
        end: bytes.len(),
        packet: [0; 65535],
        made: PACKET_PREFIX_LENGTH,
    };
    if q.headers.len() < headers.len() || q.body.len() < bytes.len() {
        return Ok(());
    }
    q.headers[..headers.len()].copy_from_slice(headers);
    q.body[..bytes.len()].copy_from_slice(bytes);
    write!(out, "steps")?;
    for piece in text.split_inclusive(|byte| *byte == b',') {
        write!(out, " ")?;
        q.step(out, piece.strip_suffix(b",").unwrap_or(piece))?;
    }
    Ok(())
}
