// The values of the Action Id and Permissions headers (docs/PROTOCOL.md#modes; the source's action.rs).
ghost use Rattle.std.specs.Prelude.{◌≡◌};
ghost use Rattle.packet.specs.Modes.{is_action, permissions_of};

// The action copies an object.
pub const COPY: u8 = 0x00;

// The action moves or renames an object.
pub const MOVE_RENAME: u8 = 0x01;

// The action sets the permissions of an object.
pub const SET_PERMISSIONS: u8 = 0x02;

// Actions from this one up to 0xFF are vendor specific.
pub const FIRST_VENDOR_SPECIFIC: u8 = 0x80;

// Tells whether `b` is an action. A reader refuses an Action Id header with any other value.
#[tactic(auto, unfolding(crate::specs::Modes::is_action))]
pub fn is_action(b: u8) -> bool
    ensures { result ≡ is_action b }
{
    matches!(
        b,
        COPY | MOVE_RENAME | SET_PERMISSIONS | FIRST_VENDOR_SPECIFIC..=0xFF
    )
}

// Returns the Permissions that the four bytes of `n` say: user, group and other in the low three. The source drops the top byte when it
// reads, and writes it as 0.
pub fn permissions(n: u32) -> u32
    ensures { result ≡ permissions_of n }
{
    n & 0xFFFFFF
}
