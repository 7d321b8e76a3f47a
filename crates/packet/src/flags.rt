// Two flags in one byte: a challenge's options (IrOBEX 1.5, section 3.6.3.2), and SetPath's flags (section 3.4.6.1).
ghost use Rattle.std.specs.Prelude.{◌≡◌};
ghost use Rattle.packet.specs.Flags.{flag_bits};

// Returns the byte whose bit 0 is `bit_0` and whose bit 1 is `bit_1`.
pub fn flag_bits(bit_0: bool, bit_1: bool) -> u8
    ensures { result ≡ flag_bits bit_0 bit_1 }
{
    if bit_0 {
        if bit_1 {
            return 3;
        }
        return 1;
    }
    if bit_1 {
        return 2;
    }
    0
}
