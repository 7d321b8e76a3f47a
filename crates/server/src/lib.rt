// The types that a host sees: the state that it passes from call to call, and what each call answers. The calls themselves stand in
// `engine::calls`.
#![tactic(auto)]

ghost use Rattle.std.specs.Prelude.{◌≡◌};
ghost use Rattle.server.specs.Settings.{default_settings};
ghost use Rattle.server.specs.Numbers.{end_number, refusal_number, await_number};

// The settings at the start (docs/PROTOCOL.md#settings).
#[derive(Clone, Copy)]
pub struct Settings {
    // The Put limit: the most body bytes that one Put may carry.
    pub max_object_size: u32,
    // The longest packet that the server takes, as Connect's reply tells the client.
    pub max_packet_length: u16,
    // The character set of the realm, its first byte on the wire.
    pub charset: u8,
    // Whether the server's challenges carry a realm. Its bytes are a store that the host lends to the start and with each nonce.
    pub has_realm: bool,
    // Whether the server grants Single Response Mode (SRM) to a client that asks for it.
    pub srm_supported: bool,
    // Whether a client must give a password before anything but Connect, Disconnect and Abort.
    pub authentication: bool,
    // Whether the server's challenges say that a user id is required.
    pub user_id_required: bool,
    // Whether the server's challenges say that access is read only.
    pub read_only: bool,
    // Whether a response without a user id fails if the challenges say that one is required. The source lets such a response pass.
    pub user_id_enforced: bool,
    // Whether the packets that trail a Put that was too long are refused with it (docs/PROTOCOL.md#trailing).
    pub refuse_trailing: bool,
}

// Returns the source's settings, but for the Put limit: the host chooses `max_object_size`, since it must lend a body store of that length.
pub fn default_settings(max_object_size: u32) -> Settings
    ensures { result ≡ default_settings max_object_size }
{
    Settings {
        max_object_size,
        max_packet_length: 65535,
        charset: 0,
        has_realm: false,
        srm_supported: false,
        authentication: false,
        user_id_required: false,
        read_only: false,
        user_id_enforced: false,
        refuse_trailing: false,
    }
}

// The operation that is open, with what the engine has gathered of it.
#[derive(Clone, Copy)]
pub enum Operation {
    // No operation is open.
    Nothing,
    // No operation is open, and the engine refuses the packets that trail a Put that was too long.
    Trailing,
    // A Put whose packets the engine gathers. `srm` says whether SRM is on for this operation.
    Putting {
        gathered: incoming::gather::Gathered,
        srm: bool,
    },
    // A Get whose request the engine gathers, or about which it has asked the host. `confirm_srm` says that SRM is still to be granted,
    // `wait` that the last packet asked the server to wait for the next request.
    Getting {
        gathered: incoming::gather::Gathered,
        srm: bool,
        confirm_srm: bool,
        wait: bool,
    },
    // A Get whose object the engine sends.
    Sending {
        outgoing: outgoing::object::Outgoing,
        chunk: outgoing::object::Chunk,
        srm: bool,
        wait: bool,
    },
    // An Action, a Session or a user-defined operation, whose headers the engine gathers.
    Gathering {
        opcode: packet::opcode::Opcode,
        gathered: incoming::gather::Gathered,
    },
    // A Connect that the host has answered with `code` and `length` bytes of headers, which stand in the header store while the engine
    // waits for credentials. `front` is the ConnectionID that the engine puts in front of them.
    Connecting {
        code: u8,
        front: Option<u32>,
        length: usize,
    },
    // A Put or Get that the engine turned away under SRM. The client keeps sending without waiting, so the engine reads the packets up to
    // the final one before it replies with `code`.
    Draining {
        code: u8,
    },
}

// What the engine waits for: every other call is refused with `WrongMoment`.
#[derive(Clone, Copy)]
pub enum Await {
    // Bytes from the client, or the end of its stream.
    Bytes,
    // The word that the reply was sent.
    Taken,
    // The word that the reply was sent, after which the engine ends with `OtherOperation`.
    Last,
    // The host's reply to a Connect.
    Connect,
    // The host's reply to a Disconnect.
    Disconnect,
    // The host's reply to a Get, or an object for it.
    Get,
    // The host's reply to any other request. The engine sends it as it is.
    Reply,
    // The host's word that it has heard of an Abort.
    Acknowledgement,
    // The password of the user that the client named.
    Password,
    // A fresh nonce for a challenge.
    Nonce,
    // Credentials with which the server answers the client's challenge.
    Credentials,
    // Bytes of the object's body.
    Body,
    // Nothing any more: the engine has ended.
    Nothing,
}

// The kinds of calls, by what they answer. `fits` of model/specs/Guard says at which moment each of them may come.
#[derive(Clone, Copy)]
pub enum CallKind {
    // Bytes from the client, and the end of its stream.
    FromPeer,
    ReplyTaken,
    ReplyGiven,
    ObjectGiven,
    AbortAcknowledged,
    PasswordGiven,
    NonceGiven,
    CredentialsGiven,
    // Bytes of the object's body, and the word that no more can be read.
    FromBody,
}

// The engine's state. A host hands the state that one call returned to the next call.
#[derive(Clone, Copy)]
pub struct Engine {
    pub settings: Settings,
    pub peer: connection::peer::Peer,
    pub operation: Operation,
    pub awaits: Await,
    // How many bytes of an unfinished packet stand in the packet store.
    pub begun: usize,
    // How long the last whole packet was. Later answers read it again from the packet store.
    pub length: usize,
    // The Target under which the last packet goes. If a call returns a request, this is the Target that the request names
    // (docs/PROTOCOL.md#targets).
    pub target: table::targets::Target,
}

// What the engine asks the host, by the names of the source's handler methods. docs/EMBEDDING.md says which call answers each request.
// A `length` is that of the client's packet at the front of the packet store, a `kept` that of the kept headers at the front of the
// header store; a user id and a realm are places in the packet store.
#[derive(Clone, Copy)]
pub enum HostRequest {
    Connect {
        length: usize,
    },
    Disconnect {
        length: usize,
    },
    SetPath {
        length: usize,
        backup: bool,
        no_create: bool,
    },
    Abort {
        length: usize,
    },
    // The Put is whole: its record is handed over here. The body is so many bytes of the body store; none if no body header
    // came, which differs from a body of 0 bytes.
    Put {
        kept: usize,
        body: Option<usize>,
    },
    Get {
        kept: usize,
    },
    Action {
        kept: usize,
    },
    Session {
        kept: usize,
    },
    UserDefined {
        opcode: u8,
        kept: usize,
    },
    // The password of this user; the user id is missing if the client named none.
    Password {
        user_id: Option<base::Span>,
    },
    // Sixteen fresh bytes for a challenge, none of the last 32 that were taken (docs/PROTOCOL.md#nonces).
    Nonce,
    // A user id and password with which to answer the client's challenge.
    Credentials {
        nonce: digest::md5::Octets16,
        user_id_required: bool,
        read_only: bool,
        realm: Option<base::Span>,
    },
    // At most `room` bytes of the object's body.
    Read {
        room: usize,
    },
}

// Why the engine has ended. Each end has a number (`end_number`, docs/PROTOCOL.md#ends).
#[derive(Clone, Copy)]
pub enum End {
    // 1: the client's stream ended between two packets.
    Disconnected,
    // 2: the client's stream ended inside a packet.
    Truncated,
    // 3: a packet's length field was under 3.
    LengthTooSmall,
    // 4: a packet inside an open operation could not be read.
    Unreadable,
    // 5: a packet inside an open operation had another opcode, and the reply 0x40 to it was taken.
    OtherOperation,
    // 6: an operation's kept headers were over 65,535 bytes.
    HeadersTooLarge,
    // 7: a reply was over 65,535 bytes.
    ReplyTooLarge,
}

// Why a call was refused, changing nothing. Each refusal has a number (`refusal_number`, docs/PROTOCOL.md#refusals).
#[derive(Clone, Copy)]
pub enum Refusal {
    // 8: the answer is none that a host may give.
    BadAnswer,
    // 9: the call is not the one that is awaited.
    WrongMoment,
    // 10: a lent store is too short.
    StoreTooShort,
    // 15: the nonce is one of the last 32 that were taken.
    NonceUsed,
    // 19: over 64 ids are to be closed together.
    TooManyIds,
    // 20: an id that is to be closed is not open.
    IdNotOpen,
    // 21: an id that is to be closed occurs twice.
    IdRepeated,
}

// What a call tells the host to do next.
#[derive(Clone, Copy)]
pub enum Outcome {
    // Offer more bytes, or say that the stream has ended.
    WantsBytes,
    // Send the first `length` bytes of the reply store, then say that the reply was taken.
    Reply { length: usize },
    // Answer the request.
    Request(HostRequest),
    // Stop: no call follows.
    End(End),
    // The call changed nothing; the right call may follow.
    Refused(Refusal),
}

// What a call returns: the state for the next call, how many of the offered bytes it took, and what the host is to do.
#[derive(Clone, Copy)]
pub struct CallResult {
    pub engine: Engine,
    pub taken: usize,
    pub outcome: Outcome,
}

// Stays a function of this name: docs/EMBEDDING.md names it, and the definition `end_number` states its numbers.
//
// Returns the number of `end` (docs/PROTOCOL.md#ends), which logs and the C interface give instead of its name.
pub fn end_number(end: End) -> u8
    ensures { result ≡ end_number end }
{
    match end {
        End::Disconnected => 1,
        End::Truncated => 2,
        End::LengthTooSmall => 3,
        End::Unreadable => 4,
        End::OtherOperation => 5,
        End::HeadersTooLarge => 6,
        End::ReplyTooLarge => 7,
    }
}

// Stays a function of this name: docs/EMBEDDING.md names it, and the definition `refusal_number` states its numbers.
//
// Returns the number of `refusal` (docs/PROTOCOL.md#refusals), which logs and the C interface give instead of its name.
pub fn refusal_number(refusal: Refusal) -> u8
    ensures { result ≡ refusal_number refusal }
{
    match refusal {
        Refusal::BadAnswer => 8,
        Refusal::WrongMoment => 9,
        Refusal::StoreTooShort => 10,
        Refusal::NonceUsed => 15,
        Refusal::TooManyIds => 19,
        Refusal::IdNotOpen => 20,
        Refusal::IdRepeated => 21,
    }
}

// Stays a function of this name: the C interface passes the number, and the definition `await_of` leads back from it.
//
// Returns the number of `a`, what the engine waits for. Two such things are told apart by it.
pub fn await_number(a: Await) -> u8
    ensures { result ≡ await_number a }
{
    match a {
        Await::Bytes => 0,
        Await::Taken => 1,
        Await::Last => 2,
        Await::Connect => 3,
        Await::Disconnect => 4,
        Await::Get => 5,
        Await::Reply => 6,
        Await::Acknowledgement => 7,
        Await::Password => 8,
        Await::Nonce => 9,
        Await::Credentials => 10,
        Await::Body => 11,
        Await::Nothing => 12,
    }
}
