// What the engine asks of the headers of every packet, found in the one pass that reads them (docs/PROTOCOL.md#admission, #srm).
ghost use Rattle.std.specs.Prelude.{◌≡◌, length};
ghost use Rattle.packet.specs.HeaderIds as header_id;
ghost use Rattle.packet.specs.Header.{read_headers};
ghost use Rattle.incoming.specs.Noted.{note_id, note_mode, note_parameter, note_one, survey_noted};
ghost use Rattle.incoming.specs.Survey.{unreadable_survey, survey_of};

use packet::header::{HeaderAt, be32_at};
use packet::header_id::{CONNECTION_ID, SINGLE_RESPONSE_MODE, SINGLE_RESPONSE_MODE_PARAMETERS};
use packet::srm::{ENABLE, requests_additional_packet, requests_wait};
use walk::step;

// What the engine asks of the headers of every packet.
#[derive(Clone, Copy)]
pub struct Survey {
    // The first ConnectionID, or 0 if there is none.
    pub id: u32,
    // There is a ConnectionID.
    pub has_id: bool,
    // The headers can be read.
    pub readable: bool,
    // The first SingleResponseMode is Enable: the client asks for Single Response Mode (SRM).
    pub enable: bool,
    // The first SingleResponseModeParameters asks for an additional packet.
    pub additional: bool,
    // The first SingleResponseModeParameters asks the engine to wait.
    pub wait: bool,
}

// What was found of the three headers up to a place; of each the first counts.
#[derive(Clone, Copy)]
struct Noted {
    id: u32,
    has_id: bool,
    has_mode: bool,
    enable: bool,
    has_parameter: bool,
    additional: bool,
    wait: bool,
}

// Notes the connection id `id`, unless one was found before.
fn note_id(n: Noted, id: u32) -> Noted
    ensures { result ≡ note_id n id }
{
    if n.has_id {
        return n;
    }
    let mut r = n;
    r.id = id;
    r.has_id = true;
    r
}

// Notes the mode `mode`, unless one was found before.
fn note_mode(n: Noted, mode: u8) -> Noted
    ensures { result ≡ note_mode n mode }
{
    if n.has_mode {
        return n;
    }
    let mut r = n;
    r.has_mode = true;
    r.enable = mode == ENABLE;
    r
}

// Notes the parameter `parameter`, unless one was found before.
fn note_parameter(n: Noted, parameter: u8) -> Noted
    ensures { result ≡ note_parameter n parameter }
{
    if n.has_parameter {
        return n;
    }
    let mut r = n;
    r.has_parameter = true;
    r.additional = requests_additional_packet(parameter);
    r.wait = requests_wait(parameter);
    r
}

// Notes the header with `id` and `value`. A connection id has four bytes, a mode and a parameter one.
fn note(n: Noted, id: u8, value: &[u8]) -> Noted
    requires { (id ≡ header_id.connection_id → length value.now ≡ 4) × (id ≡ header_id.single_response_mode → length value.now ≡ 1) × (id ≡ header_id.single_response_mode_parameters → length value.now ≡ 1) }
    ensures { result ≡ note_one n (record { id = id; value = value.now }) }
{
    match id {
        CONNECTION_ID => note_id(n, be32_at(value, 0)),
        SINGLE_RESPONSE_MODE => note_mode(n, value[0]),
        SINGLE_RESPONSE_MODE_PARAMETERS => note_parameter(n, value[0]),
        _ => n,
    }
}

// Makes the survey of readable headers from what was noted of them.
fn surveyed(n: Noted) -> Survey
    ensures { result ≡ survey_noted n }
{
    Survey {
        id: n.id,
        has_id: n.has_id,
        readable: true,
        enable: n.enable,
        additional: n.additional,
        wait: n.wait,
    }
}

// Makes the survey of headers that cannot be read: the engine asks nothing more of them.
fn unreadable() -> Survey
    ensures { result ≡ unreadable_survey }
{
    Survey {
        id: 0,
        has_id: false,
        readable: false,
        enable: false,
        additional: false,
        wait: false,
    }
}

// Surveys the headers of a packet from `from` on, in one pass.
pub fn survey_headers(p: &[u8], from: usize) -> Survey
    ensures { result ≡ survey_of (read_headers p.now from) }
{
    let mut n = Noted {
        id: 0,
        has_id: false,
        has_mode: false,
        enable: false,
        has_parameter: false,
        additional: false,
        wait: false,
    };
    let mut at = from;
    loop {
        match step(p, at) {
            HeaderAt::At {
                id,
                encoding: _,
                start,
                end,
            } => {
                n = note(n, id, &p[start..end]);
                at = end;
            }
            HeaderAt::Unreadable => {
                return unreadable();
            }
            HeaderAt::End => {
                return surveyed(n);
            }
        }
    }
}
