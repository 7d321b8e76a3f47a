// Room in a lent store.
ghost use Rattle.std.specs.Prelude.{◌≡◌};
ghost use Rattle.packet.specs.Placed.{overlong_for, room_of};

use crate::tlv::Wrote;

// The length field that says how long a thing is.
#[derive(Clone, Copy)]
pub enum LengthField {
    // One byte: the value of a tag is at most 255 bytes long.
    OneByte,
    // Two bytes: a header or a packet is at most 65,535 bytes long.
    TwoBytes,
}

// Returns the answer to bytes that are longer than `field` can say.
fn overlong_for(field: LengthField) -> Wrote
    ensures { result ≡ overlong_for field }
{
    match field {
        LengthField::OneByte => Wrote::BadValue,
        LengthField::TwoBytes => Wrote::TooLong,
    }
}

// Tells whether `need` bytes fit at `at` of a store of `len` bytes, and where they end. A store that is too short is told before bytes that
// are longer than their length `field` can say, as `overlong` tells.
pub fn room(len: usize, at: usize, need: usize, field: LengthField, overlong: bool) -> Wrote
    ensures { result ≡ room_of len at need field overlong }
{
    if len < at {
        return Wrote::Short;
    }
    if len - at < need {
        return Wrote::Short;
    }
    if overlong {
        return overlong_for(field);
    }
    Wrote::Written(at + need)
}
