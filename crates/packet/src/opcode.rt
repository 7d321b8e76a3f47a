// The first byte of a request (IrOBEX 1.5, section 3.4; docs/PROTOCOL.md#first-byte): its opcode, and in the top bit the Final bit, which
// marks the last packet of a request.
ghost use Rattle.std.specs.Prelude.{◌≡◌, Some};
ghost use Rattle.packet.specs.FirstByte.{name_of, opcode_numbered, first_byte, first_byte_table, entry_says, value_of, always_final, byte_of, kind_of, same_opcode};

use std::fmt;

// The operation that a request belongs to.
#[derive(Clone, Copy)]
pub enum Opcode {
    Connect,
    Disconnect,
    Put,
    Get,
    SetPath,
    Action,
    Session,
    Abort,
    // An opcode that the application defines; if it was read, its value is from 0x10 to 0x1F.
    UserDefined(u8),
}

// A number that no opcode has.
#[derive(Clone, Copy)]
pub struct UnknownOpcode;

// What the first byte of a request says: an opcode and the Final bit.
#[derive(Clone, Copy)]
pub struct FirstByte {
    pub opcode: Opcode,
    pub is_final: bool,
}

// The Final bit of an opcode or a response code.
pub const FINAL_BIT: u8 = 0x80;

// Connect chooses a partner and negotiates capabilities.
pub const CONNECT: u8 = 0x00;

// Disconnect signals the end of the session.
pub const DISCONNECT: u8 = 0x01;

// Put sends an object.
pub const PUT: u8 = 0x02;

// Get asks for an object.
pub const GET: u8 = 0x03;

// SetPath changes the current path on the receiving side.
pub const SET_PATH: u8 = 0x05;

// Action copies, moves, renames, or sets permissions on the receiving side.
pub const ACTION: u8 = 0x06;

// Session supports reliable sessions.
pub const SESSION: u8 = 0x07;

// The first opcode that an application may define.
pub const FIRST_USER_DEFINED: u8 = 0x10;

// The last opcode that an application may define.
pub const LAST_USER_DEFINED: u8 = 0x1F;

// Abort ends the current operation.
pub const ABORT: u8 = 0x7F;

// The table in which a first byte is looked up: its row is the first hexadecimal digit, its column the second. An entry is the number of
// the opcode, with the Final bit if the packet is final. 0x40, which is the number of no opcode, stands at the bytes that are unknown.
// Reserved bits 5 and 6 are ignored, as the standard requires, so the rows repeat; Abort alone sets them, in the last column of two rows.
//                                  _0  _1  _2  _3  _4  _5  _6  _7  _8  _9  _A  _B  _C  _D  _E  _F
const FIRST_BYTES: [u8; 256] = *b"\x00\x01\x02\x03\x40\x05\x06\x07\x40\x40\x40\x40\x40\x40\x40\x40\
                                  \x10\x11\x12\x13\x14\x15\x16\x17\x18\x19\x1A\x1B\x1C\x1D\x1E\x1F\
                                  \x00\x01\x02\x03\x40\x05\x06\x07\x40\x40\x40\x40\x40\x40\x40\x40\
                                  \x10\x11\x12\x13\x14\x15\x16\x17\x18\x19\x1A\x1B\x1C\x1D\x1E\x1F\
                                  \x00\x01\x02\x03\x40\x05\x06\x07\x40\x40\x40\x40\x40\x40\x40\x40\
                                  \x10\x11\x12\x13\x14\x15\x16\x17\x18\x19\x1A\x1B\x1C\x1D\x1E\x1F\
                                  \x00\x01\x02\x03\x40\x05\x06\x07\x40\x40\x40\x40\x40\x40\x40\x40\
                                  \x10\x11\x12\x13\x14\x15\x16\x17\x18\x19\x1A\x1B\x1C\x1D\x1E\x7F\
                                  \x80\x81\x82\x83\x40\x85\x86\x87\x40\x40\x40\x40\x40\x40\x40\x40\
                                  \x90\x91\x92\x93\x94\x95\x96\x97\x98\x99\x9A\x9B\x9C\x9D\x9E\x9F\
                                  \x80\x81\x82\x83\x40\x85\x86\x87\x40\x40\x40\x40\x40\x40\x40\x40\
                                  \x90\x91\x92\x93\x94\x95\x96\x97\x98\x99\x9A\x9B\x9C\x9D\x9E\x9F\
                                  \x80\x81\x82\x83\x40\x85\x86\x87\x40\x40\x40\x40\x40\x40\x40\x40\
                                  \x90\x91\x92\x93\x94\x95\x96\x97\x98\x99\x9A\x9B\x9C\x9D\x9E\x9F\
                                  \x80\x81\x82\x83\x40\x85\x86\x87\x40\x40\x40\x40\x40\x40\x40\x40\
                                  \x90\x91\x92\x93\x94\x95\x96\x97\x98\x99\x9A\x9B\x9C\x9D\x9E\xFF";

// Returns the table of first bytes: each of its 256 entries is what the definition of the first byte gives for its byte.
fn table() -> [u8; 256]
    ensures { result ≡ first_byte_table }
{
    FIRST_BYTES
}

impl TryFrom<u8> for Opcode {
    type Error = UnknownOpcode;

    ghost try_from_gives = { λ value r. r ≡ opcode_numbered value };

    // Returns the opcode whose number is `value`.
    fn try_from(value: u8) -> Result<Self, UnknownOpcode> {
        Ok(match value {
            CONNECT => Opcode::Connect,
            DISCONNECT => Opcode::Disconnect,
            PUT => Opcode::Put,
            GET => Opcode::Get,
            SET_PATH => Opcode::SetPath,
            ACTION => Opcode::Action,
            SESSION => Opcode::Session,
            ABORT => Opcode::Abort,
            FIRST_USER_DEFINED..=LAST_USER_DEFINED => Opcode::UserDefined(value),
            _ => return Err(UnknownOpcode),
        })
    }
}

impl From<Opcode> for u8 {
    ghost from_gives = { λ op n. n ≡ value_of op };

    // Returns the number of the opcode `op`, without the Final bit.
    fn from(op: Opcode) -> u8 {
        match op {
            Opcode::Connect => CONNECT,
            Opcode::Disconnect => DISCONNECT,
            Opcode::Put => PUT,
            Opcode::Get => GET,
            Opcode::SetPath => SET_PATH,
            Opcode::Action => ACTION,
            Opcode::Session => SESSION,
            Opcode::Abort => ABORT,
            Opcode::UserDefined(value) => value,
        }
    }
}

// Reads an entry of the table: the Final bit, and the opcode whose number the other bits are.
fn from_entry(entry: u8) -> Option<FirstByte>
    ensures { result ≡ entry_says entry }
{
    let is_final = FINAL_BIT <= entry;
    let value = entry % FINAL_BIT;
    let opcode = Opcode::try_from(value).ok()?;
    Some(FirstByte { opcode, is_final })
}

// Decodes the first byte of a request, by looking it up. Nothing comes of a byte that names no opcode.
pub fn from_byte(byte: u8) -> Option<FirstByte>
    ensures { result ≡ first_byte byte }
{
    let entries = table();
    from_entry(entries[byte as usize])
}

// Returns the number of the opcode `op`, without the Final bit.
pub fn value(op: Opcode) -> u8
    ensures { result ≡ value_of op }
{
    u8::from(op)
}

// Tells whether the opcode `op` must always be sent with the Final bit set.
pub fn is_always_final(op: Opcode) -> bool
    ensures { result ≡ always_final op }
{
    matches!(
        op,
        Opcode::Connect | Opcode::Disconnect | Opcode::SetPath | Opcode::Session | Opcode::Abort,
    )
}

// Returns the byte that is sent: with the Final bit if `is_final` asks for it or the opcode `op` always has it.
#[tactic(auto, using(crate::proofs::TopBit::set_top), unfolding(crate::specs::FirstByte::byte_of))]
pub fn to_byte(op: Opcode, is_final: bool) -> u8
    ensures { result ≡ byte_of op is_final }
{
    let v = value(op);
    if is_final || is_always_final(op) {
        v | FINAL_BIT
    } else {
        v
    }
}

// Returns 1 for a UserDefined and 0 for a named opcode: the value that a UserDefined holds can be that of a named one.
fn kind(op: Opcode) -> u8
    ensures { result ≡ kind_of op }
{
    match op {
        Opcode::UserDefined(_) => 1,
        _ => 0,
    }
}

// Tells whether `a` and `b` are the same opcode; of two UserDefined, whether they hold the same value.
// Stays a comparison of kinds and values: that a derived `==` is `same_opcode` takes 81 cases, in which the search gave up.
#[tactic(auto, unfolding(crate::specs::FirstByte::same_opcode))]
pub fn same(a: Opcode, b: Opcode) -> bool
    ensures { result ≡ same_opcode a b }
{
    kind(a) == kind(b) && value(a) == value(b)
}

impl fmt::Display for Opcode {
    ghost output = { λ op. Some (name_of op) };

    // Writes the name of an operation; those that an application defines have one name.
    fn fmt<W: fmt::Write>(&self, f: &mut fmt::Formatter<W>) -> fmt::Result {
        f.write_str(match self {
            Opcode::Connect => "connect",
            Opcode::Disconnect => "disconnect",
            Opcode::Put => "put",
            Opcode::Get => "get",
            Opcode::SetPath => "set_path",
            Opcode::Action => "action",
            Opcode::Session => "session",
            Opcode::Abort => "abort",
            Opcode::UserDefined(_) => "user_defined",
        })
    }
}
