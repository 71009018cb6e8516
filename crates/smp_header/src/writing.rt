// The header of a packet.
ghost use Rattle.std.specs.Prelude.{◌≡◌, ◌+◌, ◌≤◌, ◌++◌};
ghost use Rattle.arrayvec.specs.ArrayVec.{array_vec_len};
ghost use Rattle.smp_header.specs.Message.{header};

use crate::{HEADER, LARGEST_PACKET, PacketBuffer};

/// Appends the eight bytes of a header. `length` is the number of bytes of the data that follows.
pub fn write_header(
    out: &mut PacketBuffer,
    version: u8,
    op: u8,
    group: u16,
    sequence: u8,
    command: u8,
    length: u16,
)
    requires room { array_vec_len out.old + HEADER ≤ LARGEST_PACKET }
    requires version { version ≤ 3 }
    requires op { op ≤ 7 }
    ensures { out.new.items ≡ out.old.items ++ header version op group sequence command length }
{
    let [length_high, length_low] = length.to_be_bytes();
    let [group_high, group_low] = group.to_be_bytes();
    let header = [
        version * 8 + op,
        0,
        length_high,
        length_low,
        group_high,
        group_low,
        sequence,
        command,
    ];
    let _ = out.try_extend_from_slice(&header);
}
