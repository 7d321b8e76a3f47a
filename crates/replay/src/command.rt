// Lines of a transcript as commands, and the calls on the engine that they name, with what each call hands over.
use check::same;
use digest::md5::{Octets16, octets16_at};
use lines::text::Text;
use lines::word::{after, byte_at, find, number, piece_at, unhex, value, word_of};
use server::{Settings, default_settings};

// How many bytes an answer hands over at most.
pub const WORDS: usize = 262144;

// How many bytes of a realm are kept: more than 254, so that a realm that is too long reaches the engine, which refuses it.
pub const REALM: usize = 1024;

// How long each store is, and so the most that is lent of it.
pub const TABLES: usize = 320;

pub const STORE: usize = 65536;

pub const BODY: usize = 1048576;

// A line with the words behind its first one. A line that tells what the original did is no command.
#[derive(Clone, Copy)]
pub enum Command<'a> {
    Longest(usize),
    Start(&'a [u8]),
    Sent(&'a [u8]),
    Read(usize),
    Nonce(&'a [u8]),
    Answer(&'a [u8]),
    // None if the line is one that `show` has printed.
    Stores(Option<Lent>),
    Hold,
    Taken,
    Acknowledge,
    Show,
    Inspect,
    Close(&'a [u8]),
}

// How much of each store is lent to the engine.
#[derive(Clone, Copy)]
pub struct Lent {
    pub packet: usize,
    pub headers: usize,
    pub body: usize,
    pub reply: usize,
    pub tables: usize,
}

impl Lent {
    pub const WHOLE: Lent = Lent {
        packet: STORE,
        headers: STORE,
        body: BODY,
        reply: STORE,
        tables: TABLES,
    };

    // Returns how much is lent by four numbers and, if there is a fifth, by that for the tables.
    fn parse(words: &[u8]) -> Lent {
        let tables = piece_at(words, 4, b' ').start;
        Lent {
            packet: number(word_of(words, 0)),
            headers: number(word_of(words, 1)),
            body: number(word_of(words, 2)),
            reply: number(word_of(words, 3)),
            tables: match &words[tables..] {
                [] => TABLES,
                digits => number(digits),
            },
        }
    }
}

// What a start names, beside the bytes of the realm: the engine's settings, and what the program does.
#[derive(Clone, Copy)]
pub struct Options {
    pub settings: Settings,
    // Whether the Target of each request is printed.
    pub targets: bool,
    // Whether the stores are filled with zeros.
    pub clear: bool,
    // The number from which ids are counted up.
    pub counter: u32,
}

// The credentials that answer a client's challenge.
#[derive(Clone, Copy)]
pub struct Credentials<'a> {
    pub user: Option<&'a [u8]>,
    pub password: &'a [u8],
}

// A call on the engine, with what it hands over.
#[derive(Clone, Copy)]
pub enum Call<'a> {
    Start(Options),
    Bytes,
    EndOfStream,
    Taken,
    Acknowledge,
    Nonce(Octets16),
    Reply { code: u8, headers: &'a [u8] },
    Object { headers: &'a [u8], has_body: bool },
    Body(&'a [u8]),
    BodyFailed,
    Password(Option<&'a [u8]>),
    Credentials(Option<Credentials<'a>>),
    // The ids, four bytes each.
    Close(&'a [u8]),
}

impl<'a> Command<'a> {
    // Returns the command that a line is.
    pub(crate) fn parse(line: &'a [u8]) -> Option<Command<'a>> {
        let end = find(line, 0, b' ');
        let words = &line[after(line, end)..];
        match &line[..end] {
            b"read" => Some(Command::Read(number(words))),
            b"sent" => Some(Command::Sent(words)),
            b"answer" => Some(Command::Answer(words)),
            b"start" => Some(Command::Start(words)),
            b"nonce" => Some(Command::Nonce(words)),
            b"longest" => Some(Command::Longest(number(words))),
            b"stores" => Some(Command::Stores(stores_of(words))),
            b"hold" => Some(Command::Hold),
            b"taken" => Some(Command::Taken),
            b"acknowledge" => Some(Command::Acknowledge),
            b"show" => Some(Command::Show),
            b"inspect" => Some(Command::Inspect),
            b"close" => Some(Command::Close(words)),
            _ => None,
        }
    }
}

fn stores_of(words: &[u8]) -> Option<Lent> {
    if words.first() == Some(&b'#') {
        None
    } else {
        Some(Lent::parse(words))
    }
}

// Returns the byte that two hexadecimal digits stand for.
fn byte_of(word: &[u8]) -> u8 {
    value(byte_at(word, 0)) * 16 + value(byte_at(word, 1))
}

// ---- the settings of a start

fn is_set(word: &[u8]) -> bool {
    word.first() == Some(&b'1')
}

impl Options {
    // Returns the options that the words of a start name, and puts the bytes of the realm into `realm`.
    pub(crate) fn parse(words: &[u8], realm: &mut Text<REALM>) -> Options {
        let mut options = Options::new();
        realm.length = 0;
        for word in words.split(|&b| b == b' ') {
            let end = find(word, 0, b'=');
            options.set(&word[..end], &word[after(word, end)..], realm);
        }
        options
    }

    // Returns the options with which the original starts. The body store is the Put limit.
    fn new() -> Options {
        Options {
            settings: default_settings(BODY as u32),
            targets: false,
            clear: false,
            counter: 1,
        }
    }

    // Changes one of the options.
    fn set(&mut self, key: &[u8], word: &[u8], realm: &mut Text<REALM>) {
        match key {
            b"realm" => {
                self.settings.has_realm = true;
                realm.length = unhex(word, &mut realm.bytes);
            }
            b"targets" => self.targets = is_set(word),
            b"clear" => self.clear = is_set(word),
            b"counter" => self.counter = (number(word) % 4294967296) as u32,
            _ => set(&mut self.settings, key, word),
        }
    }
}

// Changes one of the engine's settings. A limit above the body store is cut down to that.
fn set(settings: &mut Settings, key: &[u8], word: &[u8]) {
    match key {
        b"max_packet_length" => settings.max_packet_length = (number(word) % 65536) as u16,
        b"max_object_size" => settings.max_object_size = number(word).min(BODY) as u32,
        b"srm" => settings.srm_supported = is_set(word),
        b"auth" => settings.authentication = is_set(word),
        b"charset" => settings.charset = byte_of(word),
        b"user_id_required" => settings.user_id_required = is_set(word),
        b"read_only" => settings.read_only = is_set(word),
        b"user_id_enforced" => settings.user_id_enforced = is_set(word),
        b"refuse_trailing" => settings.refuse_trailing = is_set(word),
        _ => {}
    }
}

// ---- what the host answers

impl<'a> Call<'a> {
    // Returns the call of an answer: its name and two words, of which one or both are bytes. The bytes go into `store`, those of the second
    // word behind those of the first.
    pub(crate) fn answer(words: &[u8], store: &'a mut [u8]) -> Option<Call<'a>> {
        let one = word_of(words, 1);
        let two = word_of(words, 2);
        let n = unhex(one, store);
        let m = unhex(two, &mut store[n..]);
        let first = &store[..n];
        let second = &store[n..n + m];
        match word_of(words, 0) {
            b"reply" => Some(Call::Reply {
                code: byte_of(one),
                headers: second,
            }),
            b"object" => Some(Call::Object {
                headers: first,
                has_body: same(two, b"body"),
            }),
            b"read" => Some(Call::Body(first)),
            b"readfail" => Some(Call::BodyFailed),
            b"password" => Some(Call::Password(unless(same(one, b"none"), first))),
            b"credentials" => Some(Call::Credentials(unless(
                same(one, b"none"),
                Credentials {
                    user: unless(same(one, b"nouser"), first),
                    password: second,
                },
            ))),
            _ => None,
        }
    }

    // Returns the call with a nonce, or none if that is not sixteen bytes long.
    pub(crate) fn nonce(word: &[u8], store: &mut [u8]) -> Option<Call<'a>> {
        let n = unhex(word, store);
        if n != 16 {
            return None;
        }
        Some(Call::Nonce(octets16_at(&store[..n], 0)))
    }

    // Returns the call that closes ids, of eight digits each; what stands between two of them is passed over.
    pub(crate) fn close(word: &[u8], store: &'a mut [u8]) -> Call<'a> {
        let n = unhex(word, store);
        Call::Close(&store[..n])
    }

    // Returns the call of a read of `n` bytes: of none it is the end of the stream.
    pub(crate) fn read(n: usize) -> Call<'a> {
        if n == 0 {
            Call::EndOfStream
        } else {
            Call::Bytes
        }
    }
}

fn unless<T: Drop>(is_missing: bool, x: T) -> Option<T> {
    if is_missing { None } else { Some(x) }
}
