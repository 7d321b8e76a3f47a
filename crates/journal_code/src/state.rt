// What of the journal lies in fields: state by value. The bytes of a packet that has begun, the kept headers and the body of a Put, and the open
// ids with their Targets lie in stores, which the caller lends.
ghost use Rattle.std.specs.Prelude.{◌≡◌};
ghost use Rattle.journal_code.specs.State.{quiet as quietState, ended_with, coming_to, standing_by, opens_now, moved_to, fresh_state, nothing_gathered as nothingKept, is_busy, fits_in};

use connection::peer::Peer;
use incoming::gather::Gathered;
use packet::limits::{MAX_CONNECTIONS, MAX_PACKET, MIN_PACKET};
use packet::opcode::Opcode;
use table::TABLE_LENGTH;
use table::targets::{Target, unnamed};

// What the first frame of a log says of the settings.
#[derive(Clone, Copy)]
pub struct Settings {
    // The Put limit.
    pub limit: usize,
    // Single Response Mode (SRM) is supported.
    pub srm: bool,
    // A password is required.
    pub authentication: bool,
    // What trails a Put that was too long is refused.
    pub refuses: bool,
}

// What is open (docs/PROTOCOL.md#journal).
#[derive(Clone, Copy)]
pub enum Open {
    Nothing,
    // The packets that trail a Put that was too long are refused.
    Trailing,
    Putting { srm: bool },
    Getting,
    // A Get whose object is sent.
    Sending,
    Gathering(Opcode),
    // An operation that was turned away, up to its last packet.
    Draining,
}

// What of the last packet decides what the host's reply to it does.
#[derive(Clone, Copy)]
pub enum Last {
    Other,
    Connect {
        // Its first SingleResponseMode is Enable.
        enable: bool,
        // The Target that an id takes, if it has one.
        target: Option<Target>,
    },
    // The id that it names.
    Disconnect(Option<u32>),
}

// The journal, as far as the records depend on it.
#[derive(Clone, Copy)]
pub struct State {
    pub settings: Settings,
    pub peer: Peer,
    // What the packets of a Put have carried, as counts of bytes in the stores.
    pub gathered: Gathered,
    // The Target under which the last packet goes.
    pub target: Target,
    pub last: Last,
    pub opened: Open,
    // How many bytes of a packet that has begun stand in the packet store.
    pub begun: usize,
    // The number with which the session ended, or 0; it comes after the end if another operation ended it.
    // Stays a number beside a flag: the claims HandsAll and SixTold (specs/Claims.antt) name it. It is 6 if the kept headers of a Put passed 65,535 bytes.
    pub number: u8,
    pub ended: bool,
    // The last entry handed a record over: `gathered` counts its bytes, and `target` is its Target.
    pub handed: bool,
}

// The four lengths of the stores.
#[derive(Clone, Copy)]
pub struct Lengths {
    pub packet: usize,
    pub headers: usize,
    pub body: usize,
    pub tables: usize,
}

// Returns the state after an entry that changes nothing and hands nothing over.
#[tactic(auto, unfolding(crate::specs::State::state_with))]
pub(crate) fn quiet(s: State) -> State
    ensures { result ≡ quietState s }
{
    State { handed: false, ..s }
}

// Returns the state once the session has ended with `number`; 0 if the number is still to come.
#[tactic(auto, unfolding(crate::specs::State::state_with))]
pub(crate) fn ended_with(s: State, number: u8) -> State
    ensures { result ≡ ended_with s number }
{
    State {
        begun: 0,
        number,
        ended: true,
        handed: false,
        ..s
    }
}

// Returns the state with `begun` bytes of a packet that goes on.
#[tactic(auto, unfolding(crate::specs::State::state_with))]
pub(crate) fn coming_to(s: State, begun: usize) -> State
    ensures { result ≡ coming_to s begun }
{
    State {
        begun,
        handed: false,
        ..s
    }
}

// Returns the state with `peer`.
#[tactic(auto, unfolding(crate::specs::State::state_with))]
pub(crate) fn standing_by(s: State, peer: Peer) -> State
    ensures { result ≡ standing_by s peer }
{
    State {
        peer,
        handed: false,
        ..s
    }
}

// Returns the state with `opened` open.
#[tactic(auto, unfolding(crate::specs::State::state_with))]
pub(crate) fn opening(s: State, opened: Open) -> State
    ensures { result ≡ opens_now s opened }
{
    State {
        opened,
        handed: false,
        ..s
    }
}

// Returns the state once a packet was read that left `opened` open, and `gathered` in the stores.
#[tactic(auto, unfolding(crate::specs::State::state_with))]
pub(crate) fn moved(
    s: State,
    peer: Peer,
    target: Target,
    last: Last,
    opened: Open,
    gathered: Gathered,
    handed: bool,
) -> State
    ensures { result ≡ moved_to s peer target last opened gathered handed }
{
    State {
        peer,
        gathered,
        target,
        last,
        opened,
        begun: 0,
        handed,
        ..s
    }
}

// Returns what is gathered before the first packet of a Put.
pub(crate) fn nothing_gathered() -> Gathered
    ensures { result ≡ nothingKept }
{
    Gathered {
        kept: 0,
        body: 0,
        came: false,
        over: false,
        full: false,
    }
}

// Returns the state at the start of a session.
#[tactic(auto, unfolding(crate::specs::State::state_with, connection::specs::Peer::peer_with))]
pub fn fresh(settings: Settings) -> State
    ensures { result ≡ fresh_state settings }
{
    let peer = Peer {
        count: 0,
        nonces: 0,
        window: 0,
        next_connection_id: 1,
        remote_max_packet_length: MIN_PACKET,
        srm_enabled: false,
        authenticated: false,
        challenge: None,
    };
    State {
        settings,
        peer,
        gathered: nothing_gathered(),
        target: unnamed(),
        last: Last::Other,
        opened: Open::Nothing,
        begun: 0,
        number: 0,
        ended: false,
        handed: false,
    }
}

// Tells whether an operation is open.
pub(crate) fn is_busy(opened: Open) -> bool
    ensures { result ≡ is_busy opened }
{
    !matches!(opened, Open::Nothing | Open::Trailing)
}

// Tells whether the stores have room and the counts of the state are within them. If not, an entry changes nothing.
#[tactic(auto, unfolding(crate::specs::State::fits_in))]
pub(crate) fn is_fitting(s: State, lengths: Lengths) -> bool
    ensures { result ≡ fits_in s lengths.packet lengths.headers lengths.body lengths.tables }
{
    lengths.packet >= MAX_PACKET
        && lengths.headers >= MAX_PACKET
        && lengths.body >= s.settings.limit
        && lengths.tables >= TABLE_LENGTH
        && s.peer.count <= MAX_CONNECTIONS
        && s.gathered.kept <= MAX_PACKET
        && s.gathered.body <= s.settings.limit
        && s.begun < MAX_PACKET
}
