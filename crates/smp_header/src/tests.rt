// Packets worked out by hand from the frame's table.
use crate::{read_packet, write_header};
use arrayvec::ArrayVec;
use std::test::Fail;

#[test]
fn reads_each_field(rt: HostRuntime) -> Result<(), Fail> {
    // Reserved bits, version bits 2 and operation 5; flags 7f; 2 bytes of group 0x1234.
    let bytes = [0xf5, 0x7f, 0, 2, 0x12, 0x34, 9, 6, 0xa1, 0x61];
    let packet = read_packet(&bytes).ok_or("no packet")?;
    assert_eq!(rt; (packet.version, packet.op), (2, 5));
    assert_eq!(rt; packet.group, 0x1234);
    assert_eq!(rt; (packet.sequence, packet.command), (9, 6));
    assert_eq!(rt; packet.bytes, [0xa1, 0x61].as_slice());
    for (cut, why) in [(7, "no whole header"), (9, "a byte is missing")] {
        assert!(rt; read_packet(&bytes[..cut]).is_none(), "{why}");
    }
    assert!(rt;
        read_packet(&[2, 0, 0, 0, 0, 0, 1, 0, 0]).is_none(),
        "a byte too many"
    );
    Ok(())
}

/// The bytes of a packet whose data are so many zeros.
fn zeros(length: u16) -> ArrayVec<u8, 4096> {
    let mut bytes = ArrayVec::new();
    let [high, low] = length.to_be_bytes();
    let _ = bytes.try_extend_from_slice(&[2, 0, high, low, 0, 0, 1, 0]);
    for _ in 0..length {
        let _ = bytes.try_push(0);
    }
    bytes
}

#[test]
fn bounds_the_length(rt: HostRuntime) {
    for (length, is_packet) in [(0, true), (2040, true), (2041, false), (4088, false)] {
        let bytes = zeros(length);
        assert_eq!(rt; bytes.len(), usize::from(length) + 8);
        assert_eq!(rt; read_packet(bytes.as_slice()).is_some(), is_packet);
    }
}

#[test]
fn writes_each_field(rt: HostRuntime) {
    let mut out = ArrayVec::new();
    write_header(&mut out, 1, 3, 0x1234, 9, 6, 0x0708);
    assert_eq!(rt;
        out.as_slice(),
        [0x0b, 0, 7, 8, 0x12, 0x34, 9, 6].as_slice()
    );
}
