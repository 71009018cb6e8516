// The head of a side, and which side is the newest.
ghost use Rattle.std.specs.Prelude.{◌≡◌, ◌+◌, ◌<◌, ◌≤◌, length, IfOk, IfSome};
ghost use Rattle.std.specs.Option.{ForSome};
ghost use Rattle.smp_flash.specs.Area.{area, spot};
ghost use Rattle.smp_flash.specs.Calls.{Calls, ReadsAtMost, ChangesAtMost};
ghost use Rattle.smp_flash.specs.Geometry.{size_of};
ghost use Rattle.smp_flash.specs.State.{ended};
ghost use Rattle.smp_gate.specs.Head.{head_in, chosen};
ghost use Rattle.smp_gate.specs.Side.{seven_bits};

use smp_flash::{CallFault, Flash, GATE, read_part};

/// What the head of a valid side says: its generation, and the length of its body.
#[derive(Clone, Copy, Debug, PartialEq, Eq)]
pub struct Head {
    pub generation: u32,
    pub size: u32,
}

/// The newest side, and its head.
#[derive(Clone, Copy, Debug, PartialEq, Eq)]
pub struct Choice {
    pub second: bool,
    pub head: Head,
}

/// All bytes are below 128.
fn is_seven_bits(bytes: &[u8]) -> bool
    ensures { result ≡ seven_bits bytes.now }
{
    bytes.iter().all(|byte| *byte < 128)
}

/// Reads the head in the first sixteen bytes of a side.
fn read_head(bytes: &[u8]) -> Option<Head>
    requires { length bytes.now ≡ 16 }
    ensures head { result ≡ head_in bytes.now }
    ensures positive { ForSome result (λ h. 1 ≤ h.generation) }
    ensures small { ForSome result (λ h. h.size ≤ 4080) }
{
    if &bytes[..8] != GATE.as_slice() || !is_seven_bits(&bytes[8..]) {
        return None;
    }
    let front = ((bytes[8] as u64 * 128 + bytes[9] as u64) * 128 + bytes[10] as u64) * 128
        + bytes[11] as u64;
    let generation = front * 128 + bytes[12] as u64;
    let size = bytes[13] as u32 * 128 + bytes[14] as u32;
    if bytes[15] == 1 && 1 <= generation && generation < 0x1_0000_0000 && size <= 4080 {
        Some(Head {
            generation: generation as u32,
            size,
        })
    } else {
        None
    }
}

/// Reads the head of the side that begins there.
pub fn look<F: Flash>(flash: &mut F, at: u32) -> Result<Option<Head>, CallFault>
    requires { at + 4096 ≤ size_of (F.state flash.old).geometry }
    ensures calls { Calls (spot at 4096) (ended result) (F.state flash.old) (F.state flash.new) }
    ensures kept { (F.state flash.new).bytes ≡ (F.state flash.old).bytes }
    ensures changes { ChangesAtMost 0 0 (F.state flash.old).changes (F.state flash.new).changes }
    ensures reads { ReadsAtMost 16 (F.state flash.old).bytes_read (F.state flash.new).bytes_read }
    ensures positive { IfOk result (λ head. ForSome head (λ h. 1 ≤ h.generation)) }
    ensures small { IfOk result (λ head. ForSome head (λ h. h.size ≤ 4080)) }
    ensures head { IfOk result (λ head. IfSome (F.state flash.old).bytes (λ held. head ≡ head_in (area at 16 held))) }
{
    let mut buffer = [0u8; 16];
    read_part(flash, at, &mut buffer)?;
    Ok(read_head(&buffer))
}

/// The newest of two sides.
pub fn choose(first: Option<Head>, second: Option<Head>) -> Option<Choice>
    requires first { ForSome first (λ h. h.size ≤ 4080) }
    requires second { ForSome second (λ h. h.size ≤ 4080) }
    requires first_low { ForSome first (λ h. 1 ≤ h.generation) }
    requires second_low { ForSome second (λ h. 1 ≤ h.generation) }
    ensures chosen { result ≡ chosen first second }
    ensures small { ForSome result (λ c. c.head.size ≤ 4080) }
    ensures positive { ForSome result (λ c. 1 ≤ c.head.generation) }
{
    match (first, second) {
        (None, None) => None,
        (Some(head), None) => Some(Choice {
            second: false,
            head,
        }),
        (None, Some(head)) => Some(Choice { second: true, head }),
        (Some(first), Some(second)) => {
            if first.generation < second.generation {
                Some(Choice {
                    second: true,
                    head: second,
                })
            } else {
                Some(Choice {
                    second: false,
                    head: first,
                })
            }
        }
    }
}
