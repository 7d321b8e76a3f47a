// The settings of a session, as they were read at its start.
ghost use Rattle.std.specs.Prelude.{◌≡◌};
ghost use Rattle.receiver.specs.Opening.{settings_by};

use crate::path::{PATH, in_folder, part};
use crate::system::{Text, read_whole};
use files::path::front;
use filing::conf::{Conf, is_record_taken, read_conf};
use filing::payload::{OpenFlags, OpenNumbers};
use server::Settings;
use std::env::Env;
use std::fs::Files;
use std::num::wrapping_add_usize;
use table::targets::Target;

// How long the file `conf` may be.
pub(crate) const TEXT: usize = 2048;

// The text of the settings, as long as a session lasts: the first `length` bytes, and where the realm stands in them.
#[derive(Clone, Copy)]
pub(crate) struct Said {
    pub text: [u8; TEXT],
    pub length: usize,
    pub realm_at: usize,
    pub realm: u8,
}

// Returns the text as a session keeps it.
pub(crate) fn kept(text: [u8; TEXT], length: usize, conf: Conf) -> Said {
    let numbers = conf.numbers;
    Said {
        text,
        length,
        realm_at: conf.realm_at,
        realm: numbers.realm,
    }
}

// Reads the file `conf` into the store.
pub(crate) fn read_text<R: Env + Files>(rt: &R, text: &mut [u8; TEXT]) -> Text {
    let mut path = [0u8; PATH];
    let n = in_folder(rt, b"conf", &mut path);
    read_whole(rt, &path[0..n], text)
}

// Returns the engine's settings, by the numbers and flags that the first frame of the log has.
pub(crate) fn settings_of(numbers: OpenNumbers, flags: OpenFlags) -> Settings
    ensures { result ≡ settings_by numbers flags }
{
    Settings {
        max_object_size: numbers.limit,
        max_packet_length: numbers.packet,
        charset: numbers.charset,
        has_realm: flags.has_realm,
        srm_supported: flags.srm,
        authentication: flags.authentication,
        user_id_required: flags.asks_user,
        read_only: flags.read_only,
        user_id_enforced: flags.enforces_user,
        refuse_trailing: flags.refuses,
    }
}

// Tells whether records are taken under a Target.
pub(crate) fn is_taken(said: Said, target: Target) -> bool {
    let text = said.text;
    is_record_taken(front(&text, said.length), target)
}

// Puts the realm at the front of `store`, and returns how long it is.
pub(crate) fn put_realm(said: Said, store: &mut [u8]) -> usize {
    let text = said.text;
    let at = said.realm_at;
    lines::output::put(
        store,
        0,
        part(&text, at, wrapping_add_usize(at, base::wide(said.realm))),
    )
}

// The longest realm.
pub(crate) const REALM: usize = 254;

// Returns the first `n` bytes of a realm.
pub(crate) fn realm_in(realm: &[u8; REALM], n: usize) -> &[u8] {
    front(realm, n)
}

// Reads the settings in the first `n` bytes of a text.
pub(crate) fn conf_in(text: &[u8; TEXT], n: usize) -> Conf {
    read_conf(front(text, n))
}
