// A packet from its bytes.
ghost use Rattle.std.specs.Prelude.{◌≡◌, ◌+◌, ◌≤◌, length, IfSome};
ghost use Rattle.std.specs.Option.{option_map};
ghost use Rattle.smp_header.specs.Message.{packet, message_of};

use crate::{HEADER, LARGEST_PACKET, Packet};

/// The packet that the bytes are. It is None exactly where they are no packet: where they are fewer
/// than `HEADER` or more than `LARGEST_PACKET`, or their number is not 8 plus the length that the header states.
pub fn read_packet(bytes: &[u8]) -> Option<Packet<'_>>
    ensures packet { option_map message_of result ≡ packet bytes.now }
    ensures fits { IfSome result (λ p. length p.bytes.now + HEADER ≤ LARGEST_PACKET) }
{
    if bytes.len() < HEADER || bytes.len() > LARGEST_PACKET {
        return None;
    }
    let length = u16::from_be_bytes([bytes[2], bytes[3]]);
    if bytes.len() != HEADER + usize::from(length) {
        return None;
    }
    Some(Packet {
        version: bytes[0] / 8 % 4,
        op: bytes[0] % 8,
        group: u16::from_be_bytes([bytes[4], bytes[5]]),
        sequence: bytes[6],
        command: bytes[7],
        bytes: &bytes[HEADER..],
    })
}
