// The payloads of frames that a receiver makes up itself (docs/ARCHIVE.md#the-log). Those of packets, nonces and texts are these bytes alone.
ghost use Rattle.std.specs.Prelude.{◌≡◌, ◌≤◌};
ghost use Rattle.journal.specs.Checks.{bit};
ghost use Rattle.filing.specs.Kinds.{check_pair, flags_in, open_row};

// The flags of the first frame.
#[derive(Clone, Copy)]
pub struct OpenFlags {
    pub srm: bool,
    pub authentication: bool,
    pub asks_user: bool,
    pub read_only: bool,
    pub enforces_user: bool,
    pub refuses: bool,
    pub has_realm: bool,
}

// The numbers of the first frame: its limits, the realm's charset and the realm's length.
#[derive(Clone, Copy)]
pub struct OpenNumbers {
    pub limit: u32,
    pub packet: u16,
    pub charset: u8,
    pub realm: u8,
}

// How a check of a password came out: it was right or not, and it was refused because of too many wrong ones or not.
#[derive(Clone, Copy)]
pub struct CheckMade {
    pub right: bool,
    pub stopped: bool,
}

// Returns 1 for true, and 0 for false.
fn number(b: bool) -> u8
    ensures value { result ≡ bit b }
    ensures small { result ≤ 1 }
{
    if b { 1 } else { 0 }
}

// Returns the flags as one number.
fn flag_byte(flags: OpenFlags) -> u8
    ensures { result ≡ flags_in flags }
{
    let user = 4 * number(flags.asks_user);
    let only = 8 * number(flags.read_only);
    let enforced = 16 * number(flags.enforces_user);
    let refuses = 32 * number(flags.refuses);
    let realm = 64 * number(flags.has_realm);
    number(flags.srm) + 2 * number(flags.authentication) + user + only + enforced + refuses + realm
}

// Makes the first row of the first frame's payload. The session's name, the realm and what is known of the client follow it.
pub fn open_row(numbers: OpenNumbers, flags: OpenFlags) -> [u8; 16]
    ensures { result ≡ open_row numbers flags }
{
    let limit = numbers.limit;
    let packet = numbers.packet;
    [
        b'O',
        b'B',
        b'X',
        b'1',
        (limit / 16777216 % 256) as u8,
        (limit / 65536 % 256) as u8,
        (limit / 256 % 256) as u8,
        (limit % 256) as u8,
        (packet / 256) as u8,
        (packet % 256) as u8,
        flag_byte(flags),
        numbers.charset,
        numbers.realm,
        0,
        0,
        0,
    ]
}

// Makes the payload of a check of a password.
pub fn check_pair(check: CheckMade) -> [u8; 2]
    ensures { result ≡ check_pair check }
{
    [number(check.right), number(check.stopped)]
}
