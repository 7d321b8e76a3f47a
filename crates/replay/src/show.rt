// What the engine did, in the words of the original's `oracle engine`. The two digits of a byte are put both or, where the output has no room
// for them, neither.
ghost use Rattle.std.specs.Ordering.{nat_cmp};
ghost use Rattle.std.specs.Prelude.{IsPermutation, IsSorted};

use crate::OUTPUT;
use crate::command::{Lent, TABLES};
use crate::stores::Stores;
use base::Span;
use connection::peer::Peer;
use digest::md5::octets;
use lines::store::between;
use lines::text::Text;
use server::HostRequest;
use table::targets::{Target, is_named};

// Puts a flag with its name.
fn put_flag(out: &mut Text<OUTPUT>, name: &[u8], b: bool) {
    out.put(name);
    out.put_flag(b);
}

// The line of a request, with the stores in which its parts stand. A longer part is printed by length and MD5. The original makes its nonces
// itself, so it tells of no request for one.
#[derive(Clone, Copy)]
pub struct RequestLine<'a> {
    pub request: HostRequest,
    pub stores: &'a Stores,
    pub longest: usize,
}

impl RequestLine<'_> {
    pub(crate) fn put(self, out: &mut Text<OUTPUT>) {
        match self.request {
            // A Connect's fields stand before its headers.
            HostRequest::Connect { length } => {
                self.put_name(out, b"connect");
                self.put_packet(out, b" headers=", 7, length);
                self.put_packet(out, b" fields=", 3, 7);
            }
            HostRequest::Disconnect { length } => {
                self.put_name(out, b"disconnect");
                self.put_packet(out, b" headers=", 3, length);
            }
            HostRequest::SetPath {
                length,
                backup,
                no_create,
            } => {
                self.put_name(out, b"set_path");
                self.put_packet(out, b" headers=", 5, length);
                put_flag(out, b" backup=", backup);
                put_flag(out, b" no_create=", no_create);
            }
            HostRequest::Abort { length } => {
                self.put_name(out, b"abort");
                self.put_packet(out, b" headers=", 3, length);
            }
            HostRequest::Put { kept, body } => {
                self.put_headers(out, b"put", kept);
                out.put(b" body=");
                match body {
                    Some(size) => out.put_hex(between(&self.stores.body, 0, size), self.longest),
                    None => out.put(b"none"),
                }
            }
            HostRequest::Get { kept } => self.put_headers(out, b"get", kept),
            HostRequest::Action { kept } => self.put_headers(out, b"action", kept),
            HostRequest::Session { kept } => self.put_headers(out, b"session", kept),
            HostRequest::UserDefined { opcode, kept } => {
                self.put_headers(out, b"user_defined", kept);
                out.put(b" opcode=");
                out.put_digits(&[opcode]);
            }
            HostRequest::Read { room } => {
                out.put(b"body-read ");
                out.put_number(room);
            }
            HostRequest::Password { user_id } => match user_id {
                Some(Span { start, end }) => self.put_packet(out, b"password ", start, end),
                None => out.put(b"password none"),
            },
            HostRequest::Credentials {
                nonce,
                user_id_required,
                read_only,
                realm,
            } => {
                out.put(b"credentials nonce=");
                out.put_digits(&octets(nonce));
                put_flag(out, b" user_id_required=", user_id_required);
                put_flag(out, b" read_only=", read_only);
                self.put_realm(out, realm);
            }
            HostRequest::Nonce => return,
        }
        out.put(b"\n");
    }

    // Puts the name of a request, and whether its packet is final, as the top bit of its first byte says.
    fn put_name(self, out: &mut Text<OUTPUT>, name: &[u8]) {
        out.put(name);
        let opcode = self.stores.packet.first().copied().unwrap_or(0);
        put_flag(out, b" final=", opcode >= 128);
    }

    // Puts the name of a request whose packets are all there, and the headers that are kept of them.
    fn put_headers(self, out: &mut Text<OUTPUT>, name: &[u8], kept: usize) {
        out.put(name);
        out.put(b" final=1 headers=");
        out.put_hex(between(&self.stores.headers, 0, kept), self.longest);
    }

    // Puts a part of the packet with its name.
    fn put_packet(self, out: &mut Text<OUTPUT>, name: &[u8], from: usize, to: usize) {
        out.put(name);
        out.put_hex(between(&self.stores.packet, from, to), self.longest);
    }

    // Puts the realm of a challenge, in the packet: its charset, and the bytes behind that, which are printed whole.
    fn put_realm(self, out: &mut Text<OUTPUT>, realm: Option<Span>) {
        out.put(b" realm=");
        match realm {
            Some(Span { start, end }) => {
                let packet = &self.stores.packet;
                out.put_digits(&[packet.get(start).copied().unwrap_or(0)]);
                out.put(b":");
                out.put_hex(between(packet, start.saturating_add(1), end), packet.len());
            }
            None => out.put(b"none"),
        }
    }
}

// The line of the state. The open ids are the first ones of the tables, and are printed in ascending order.
#[derive(Clone, Copy)]
pub struct StateLine<'a> {
    pub peer: Peer,
    pub tables: &'a [u64],
}

impl StateLine<'_> {
    pub(crate) fn put(self, out: &mut Text<OUTPUT>) {
        let p = self.peer;
        out.put(b"state remote_max=");
        out.put_number(p.remote_max_packet_length as usize);
        put_flag(out, b" srm=", p.srm_enabled);
        put_flag(out, b" authenticated=", p.authenticated);
        out.put(b" ids=");
        self.put_ids(out);
        out.put(b" next=");
        out.put_digits(&p.next_connection_id.to_be_bytes());
        out.put(b" challenge=");
        match p.challenge {
            Some(nonce) => out.put_digits(&octets(nonce)),
            None => out.put(b"none"),
        }
        out.put(b"\n");
    }

    // Puts the ids, or a dash if there are none.
    fn put_ids(self, out: &mut Text<OUTPUT>) {
        let mut store = [0u64; TABLES];
        let n = self.peer.count.min(self.tables.len()).min(TABLES);
        store[..n].copy_from_slice(&self.tables[..n]);
        let ids = &mut store[..n];
        ascend(ids);
        let mut mark = b"".as_slice();
        for &id in ids.iter() {
            out.put(mark);
            put_id(out, id);
            mark = b",";
        }
        if n == 0 {
            out.put(b"-");
        }
    }
}

// Brings the ids into ascending order.
fn ascend(ids: &mut [u64])
    ensures ascending { IsSorted nat_cmp ids.new }
    ensures same { IsPermutation ids.old ids.new }
{
    ids.sort_unstable();
}

// Puts an id, which is below 2^32.
fn put_id(out: &mut Text<OUTPUT>, id: u64) {
    out.put_digits(&id.to_be_bytes()[4..]);
}

// The line of the Target that a request names: its length and its sixteen bytes, or the word none for the mark.
#[derive(Clone, Copy)]
pub struct TargetLine(pub Target);

impl TargetLine {
    pub(crate) fn put(self, out: &mut Text<OUTPUT>) {
        let target = self.0;
        out.put(b"target ");
        if is_named(target) {
            out.put_number(target.length);
            out.put(b" ");
            out.put_digits(&octets(target.bytes));
        } else {
            out.put(b"none");
        }
        out.put(b"\n");
    }
}

// The line of the stores as far as they are lent.
#[derive(Clone, Copy)]
pub struct StoresLine<'a> {
    pub stores: &'a Stores,
    pub lent: Lent,
}

impl StoresLine<'_> {
    pub(crate) fn put(self, out: &mut Text<OUTPUT>) {
        let s = self.stores;
        let lent = self.lent;
        out.put(b"stores ");
        out.put_digest(between(&s.packet, 0, lent.packet));
        out.put(b" ");
        out.put_digest(between(&s.headers, 0, lent.headers));
        out.put(b" ");
        out.put_digest(between(&s.body, 0, lent.body));
        out.put(b" ");
        out.put_digest(between(&s.reply, 0, lent.reply));
        out.put(b"\n");
    }
}

// The line of what only the port's state has: the window over the last 64 checks of passwords, and how many nonces are remembered.
#[derive(Clone, Copy)]
pub struct OwnLine(pub Peer);

impl OwnLine {
    pub(crate) fn put(self, out: &mut Text<OUTPUT>) {
        let p = self.0;
        out.put(b"own window=");
        out.put_digits(&p.window.to_be_bytes());
        out.put(b" nonces=");
        out.put_number(p.nonces);
        out.put(b"\n");
    }
}
