// What the journal asks of a packet: its opcode, the Final bit, and the first of a few headers.
ghost use Rattle.std.specs.Prelude.{◌≡◌, List, ◌≤◌, length, take};
ghost use Rattle.std.proofs.Math.Option.{some};
ghost use Rattle.packet.specs.Header.{Header, read_headers, first, present};
ghost use Rattle.packet.specs.HeaderIds as header_id;
ghost use Rattle.packet.specs.Packet.{request_of};
ghost use Rattle.connection.specs.Peer.{target_asked};
ghost use Rattle.table.specs.Places.{table_length};
ghost use Rattle.journal_code.specs.Heading.{link_by, reading_of};

use incoming::survey::{Survey, survey_headers};
use packet::header::first_header;
use packet::header_id::{AUTHENTICATE_RESPONSE, NAME, TARGET};
use packet::opcode::Opcode;
use packet::packet::packet_head;
use table::targets::{Target, find_place, target_at, target_of, unnamed};

// The connection that a packet names.
#[derive(Clone, Copy)]
pub(crate) struct Link {
    // The first ConnectionID.
    pub named: Option<u32>,
    // It is not open.
    pub unknown: bool,
    // The Target under which it was opened; the mark if there is none, or if it is not open.
    pub under: Target,
}

// The parts of a readable packet on which the records depend.
#[derive(Clone, Copy)]
pub(crate) struct Heading {
    pub opcode: Opcode,
    pub is_final: bool,
    // Where the headers start.
    pub headers: usize,
    // The first SingleResponseMode is Enable.
    pub enable: bool,
    pub named: Option<u32>,
    pub unknown: bool,
    pub under: Target,
    pub has_name: bool,
    pub has_response: bool,
    // The Target that an id takes, by the first Target header.
    pub target: Option<Target>,
}

// Tells whether the headers of `p` from `at` on, which can all be read, have one with `id`.
#[tactic(auto, using(crate::proofs::Found::there))]
fn has_header(p: &[u8], at: usize, id: u8) -> bool
    ensures { (hs : List Header) → read_headers p.now at ≡ some hs → result ≡ present (first id hs) }
{
    first_header(p, at, id).is_some()
}

// Returns the Target, if there is one, that an id takes by the headers of `p` from `at` on, which can all be read.
fn target_in(p: &[u8], at: usize) -> Option<Target>
    ensures { (hs : List Header) → read_headers p.now at ≡ some hs → result ≡ target_asked (first header_id.target hs) }
{
    match first_header(p, at, TARGET) {
        Some(value) => Some(target_of(value.of(p))),
        None => None,
    }
}

// Returns the connection that a survey names, of the first `count` ids of the table store.
fn link_of(v: Survey, tables: &[u64], count: usize) -> Link
    requires { (count ≤ 64) × (table_length ≤ length tables.now) }
    ensures { result ≡ link_by v.has_id v.id (take count tables.now) tables.now }
{
    if !v.has_id {
        return Link {
            named: None,
            unknown: false,
            under: unnamed(),
        };
    }
    match find_place(tables, count, v.id) {
        Some(place) => Link {
            named: Some(v.id),
            unknown: false,
            under: target_at(tables, place),
        },
        None => Link {
            named: Some(v.id),
            unknown: true,
            under: unnamed(),
        },
    }
}

// Reads a whole packet, or none if it cannot be read, if `count` ids of the table store are open.
pub(crate) fn read_heading(p: &[u8], tables: &[u64], count: usize) -> Option<Heading>
    requires { (count ≤ 64) × (table_length ≤ length tables.now) }
    ensures { result ≡ reading_of (request_of p.now) (take count tables.now) tables.now }
{
    let Some(head) = packet_head(p) else {
        return None;
    };
    let headers = head.headers;
    let v = survey_headers(p, headers);
    if !v.readable {
        return None;
    }
    let link = link_of(v, tables, count);
    Some(Heading {
        opcode: head.opcode,
        is_final: head.is_final,
        headers,
        enable: v.enable,
        named: link.named,
        unknown: link.unknown,
        under: link.under,
        has_name: has_header(p, headers, NAME),
        has_response: has_header(p, headers, AUTHENTICATE_RESPONSE),
        target: target_in(p, headers),
    })
}
