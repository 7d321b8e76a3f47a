// The values of the Single Response Mode (SRM) headers (IrOBEX 1.5, section 3.3; docs/PROTOCOL.md#modes). SRM removes the answer to each
// packet of a Put and to each request of a Get, which is what makes OBEX fast over L2CAP; GOEP 2.0 profiles negotiate it for each
// operation. A header with any other value is unreadable.
ghost use Rattle.std.specs.Prelude.{◌≡◌};
ghost use Rattle.packet.specs.Modes.{is_mode, is_parameter, additional, wait};

// The sender asks that SRM is disabled.
pub const DISABLE: u8 = 0x00;

// The sender asks for SRM, or confirms it.
pub const ENABLE: u8 = 0x01;

// The sender supports SRM, without enabling it.
pub const SUPPORTED: u8 = 0x02;

// The sender asks for one additional packet from the other side.
pub const ADDITIONAL_PACKET: u8 = 0x00;

// The other side must wait for the next packet from the sender.
pub const WAIT: u8 = 0x01;

// The sender asks for an additional packet and that the other side waits.
pub const ADDITIONAL_PACKET_AND_WAIT: u8 = 0x02;

// Tells whether `b` is a value of the Single Response Mode header.
#[tactic(auto, unfolding(crate::specs::Modes::is_mode))]
pub fn is_mode(b: u8) -> bool
    ensures { result ≡ is_mode b }
{
    matches!(b, DISABLE | ENABLE | SUPPORTED)
}

// Stays beside the three tests like it: a common function would take the list of values, and each caller would write it.
//
// Tells whether `b` is a value of the Single Response Mode Parameters header.
#[tactic(auto, unfolding(crate::specs::Modes::is_parameter))]
pub fn is_parameter(b: u8) -> bool
    ensures { result ≡ is_parameter b }
{
    matches!(b, ADDITIONAL_PACKET | WAIT | ADDITIONAL_PACKET_AND_WAIT)
}

// Tells whether the parameter `b` asks for an additional packet.
#[tactic(auto, unfolding(crate::specs::Modes::additional))]
pub fn requests_additional_packet(b: u8) -> bool
    ensures { result ≡ additional b }
{
    matches!(b, ADDITIONAL_PACKET | ADDITIONAL_PACKET_AND_WAIT)
}

// Tells whether the parameter `b` asks the other side to wait.
#[tactic(auto, unfolding(crate::specs::Modes::wait))]
pub fn requests_wait(b: u8) -> bool
    ensures { result ≡ wait b }
{
    matches!(b, WAIT | ADDITIONAL_PACKET_AND_WAIT)
}
