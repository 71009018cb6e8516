// The CRC of a packet.
ghost use Rattle.std.specs.Prelude.{◌≡◌, ◌<◌, ◌^◌};
ghost use Rattle.smp_line.specs.Crc.{crc_of, times_x, with_byte, IsCrc};

/// A remainder times x.
fn times_x(remainder: u16) -> u16
    ensures { result ≡ times_x remainder }
{
    if remainder < 0x8000 {
        remainder << 1
    } else {
        (remainder << 1) ^ 0x1021
    }
}

/// The remainder with one more byte.
fn with_byte(remainder: u16, byte: u8) -> u16
    ensures { result ≡ with_byte remainder byte }
{
    let mut rest = remainder ^ (u16::from(byte) << 8);
    for _ in 0..8u32 {
        rest = times_x(rest);
    }
    rest
}

/// The CRC-16 of a packet ("SMP transport specification", console): polynomial 0x1021, start 0, no
/// reflection and no final xor. It is the remainder of the bytes as a polynomial, times x^16, by the
/// generator x^16 + x^12 + x^5 + 1.
pub fn crc16(bytes: &[u8]) -> u16
    ensures value { result ≡ crc_of bytes.now }
    ensures remainder { IsCrc bytes.now result }
{
    let mut crc = 0;
    for byte in bytes {
        crc = with_byte(crc, *byte);
    }
    crc
}
