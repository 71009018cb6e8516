// The steps of a replacement, each with what every exit leaves.
ghost use Rattle.std.specs.Prelude.{◌≡◌, ◌+◌, ◌/◌, ◌<◌, ◌≤◌, ◌%◌, ◌^◌, ◌++◌, length, take, replicate, true, OnOk, IfSome};
ghost use Rattle.smp_flash.specs.Area.{area, blank, dirty_pages, spot, Erased, Told};
ghost use Rattle.smp_flash.specs.Calls.{Calls, ReadsAtMost, ChangesAtMost, Smaller};
ghost use Rattle.smp_flash.specs.Geometry.{size_of, IsPage, Regular};
ghost use Rattle.smp_flash.specs.Region.{gate, counts_write};
ghost use Rattle.smp_flash.specs.State.{ended};
ghost use Rattle.smp_gate.specs.Side.{head_bytes, side_bytes, whole_side};
ghost use Rattle.smp_gate.specs.Cells.{filled};
ghost use Rattle.smp_gate.specs.Step.{InOrder, Quiet, QuietOrRenewed, Ready, Renewed};

use smp_flash::{CallFault, Flash, GATE, SIDE, clear_page, write_part};

/// Erases the pages of a side that are not erased already, in ascending order. Each is read into the front of `buffer`.
pub fn erase_side<F: Flash>(
    flash: &mut F,
    at: u32,
    page: u32,
    buffer: &mut [u8],
) -> Result<(), CallFault>
    requires room { length buffer.old ≡ 512 }
    requires page { page ≡ (F.state flash.old).geometry.page }
    requires is_page { IsPage page }
    requires some { 0 < page }
    requires most { page ≤ 4096 }
    requires divides { 4096 % page ≡ 0 }
    requires small { size_of (F.state flash.old).geometry ≤ 2 ^ 25 }
    requires begins { at % page ≡ 0 }
    requires inside { at + 4096 ≤ size_of (F.state flash.old).geometry }
    ensures calls { Calls (spot at 4096) (ended result) (F.state flash.old) (F.state flash.new) }
    ensures reads { ReadsAtMost 4096 (F.state flash.old).bytes_read (F.state flash.new).bytes_read }
    ensures changes { ChangesAtMost 0 (4096 / page) (F.state flash.old).changes (F.state flash.new).changes }
    ensures erases { IfSome (F.state flash.old).bytes (λ held. ChangesAtMost 0 (dirty_pages page at (4096 / page) held) (F.state flash.old).changes (F.state flash.new).changes) }
    ensures order { Told (InOrder at page) (F.state flash.old).bytes (F.state flash.new).bytes }
    ensures quiet { Told (Quiet at) (F.state flash.old).bytes (F.state flash.new).bytes }
    ensures erased { OnOk result (Told (Erased at 4096) (F.state flash.old).bytes (F.state flash.new).bytes) }
{
    for i in 0..SIDE / page {
        clear_page(flash, at + i * page, page, buffer)?;
    }
    Ok(())
}

/// The head of a side, by its generation and the length of its body.
fn head_of(generation: u32, size: usize) -> [u8; 8]
    requires { size ≤ 4080 }
    ensures { result ≡ head_bytes generation size }
{
    let fourth = generation / 128;
    let third = fourth / 128;
    let second = third / 128;
    let first = second / 128;
    [
        first as u8,
        (second % 128) as u8,
        (third % 128) as u8,
        (fourth % 128) as u8,
        (generation % 128) as u8,
        (size / 128) as u8,
        (size % 128) as u8,
        1,
    ]
}

/// Makes all of a part zeros.
fn zero(part: &mut [u8], count: usize)
    requires { length part.old ≡ count }
    ensures { part.new ≡ replicate count 0 }
{
    part.fill(0);
}

/// Puts the head and the body at the front, and says how many bytes these are.
fn lay_out(into: &mut [u8], generation: u32, body: &[u8]) -> usize
    requires room { 8 + filled (length body.now) ≤ length into.old }
    requires fits { length body.now ≤ 4080 }
    ensures size { result ≡ length (side_bytes generation body.now) }
    ensures bytes { take result into.new ≡ side_bytes generation body.now }
    ensures most { result ≤ 4088 }
    ensures least { 8 ≤ result }
    ensures eights { result % 8 ≡ 0 }
{
    let size = body.len();
    let zeros = (8 - size % 8) % 8;
    into[..8].copy_from_slice(&head_of(generation, size));
    into[8..8 + size].copy_from_slice(body);
    zero(&mut into[8 + size..8 + size + zeros], zeros);
    8 + size + zeros
}

/// Writes the head and the body of a side that is erased, laid out in `buffer`, in one write behind the gate's place.
fn write_laid_out<F: Flash>(
    flash: &mut F,
    at: u32,
    generation: u32,
    body: &[u8],
    buffer: &mut [u8],
) -> Result<(), CallFault>
    requires room { 8 + filled (length body.now) ≤ length buffer.old }
    requires fits { length body.now ≤ 4080 }
    requires begins { at % 8 ≡ 0 }
    requires inside { at + 4096 ≤ size_of (F.state flash.old).geometry }
    requires regular { Regular (F.state flash.old).geometry }
    requires erased { IfSome (F.state flash.old).bytes (λ held. area at 4096 held ≡ blank 4096) }
    ensures calls { Calls (spot at 4096) (ended result) (F.state flash.old) (F.state flash.new) }
    ensures reads { ReadsAtMost 0 (F.state flash.old).bytes_read (F.state flash.new).bytes_read }
    ensures changes { ChangesAtMost 1 0 (F.state flash.old).changes (F.state flash.new).changes }
    ensures quiet { Told (Quiet at) (F.state flash.old).bytes (F.state flash.new).bytes }
    ensures ready { OnOk result (IfSome (F.state flash.new).bytes (Ready at (side_bytes generation body.now))) }
{
    let count = lay_out(buffer, generation, body);
    write_part(flash, at + 8, &buffer[..count])
}

/// The same for a body of any length.
fn write_large_body<F: Flash>(
    flash: &mut F,
    at: u32,
    generation: u32,
    body: &[u8],
) -> Result<(), CallFault>
    requires fits { length body.now ≤ 4080 }
    requires begins { at % 8 ≡ 0 }
    requires inside { at + 4096 ≤ size_of (F.state flash.old).geometry }
    requires regular { Regular (F.state flash.old).geometry }
    requires erased { IfSome (F.state flash.old).bytes (λ held. area at 4096 held ≡ blank 4096) }
    ensures calls { Calls (spot at 4096) (ended result) (F.state flash.old) (F.state flash.new) }
    ensures reads { ReadsAtMost 0 (F.state flash.old).bytes_read (F.state flash.new).bytes_read }
    ensures changes { ChangesAtMost 1 0 (F.state flash.old).changes (F.state flash.new).changes }
    ensures quiet { Told (Quiet at) (F.state flash.old).bytes (F.state flash.new).bytes }
    ensures ready { OnOk result (IfSome (F.state flash.new).bytes (Ready at (side_bytes generation body.now))) }
{
    let mut buffer = [0u8; SIDE as usize];
    write_laid_out(flash, at, generation, body, &mut buffer)
}

/// The same, by a small buffer where the body has room in it, since clearing a large one costs more than the write.
fn write_body<F: Flash>(
    flash: &mut F,
    at: u32,
    generation: u32,
    body: &[u8],
    buffer: &mut [u8],
) -> Result<(), CallFault>
    requires room { length buffer.old ≡ 512 }
    requires fits { length body.now ≤ 4080 }
    requires begins { at % 8 ≡ 0 }
    requires inside { at + 4096 ≤ size_of (F.state flash.old).geometry }
    requires regular { Regular (F.state flash.old).geometry }
    requires erased { IfSome (F.state flash.old).bytes (λ held. area at 4096 held ≡ blank 4096) }
    ensures calls { Calls (spot at 4096) (ended result) (F.state flash.old) (F.state flash.new) }
    ensures reads { ReadsAtMost 0 (F.state flash.old).bytes_read (F.state flash.new).bytes_read }
    ensures changes { ChangesAtMost 1 0 (F.state flash.old).changes (F.state flash.new).changes }
    ensures quiet { Told (Quiet at) (F.state flash.old).bytes (F.state flash.new).bytes }
    ensures ready { OnOk result (IfSome (F.state flash.new).bytes (Ready at (side_bytes generation body.now))) }
{
    if body.len() <= 496 {
        write_laid_out(flash, at, generation, body, buffer)
    } else {
        write_large_body(flash, at, generation, body)
    }
}

/// Writes the gate of a side, so that what stands behind it is valid.
fn write_gate<F: Flash>(
    flash: &mut F,
    at: u32,
    generation: u32,
    body: &[u8],
) -> Result<(), CallFault>
    requires fits { length body.now ≤ 4080 }
    requires positive { 1 ≤ generation }
    requires begins { at % 8 ≡ 0 }
    requires inside { at + 4096 ≤ size_of (F.state flash.old).geometry }
    requires regular { Regular (F.state flash.old).geometry }
    requires ready { IfSome (F.state flash.old).bytes (Ready at (side_bytes generation body.now)) }
    ensures calls { Calls (spot at 4096) (ended result) (F.state flash.old) (F.state flash.new) }
    ensures reads { ReadsAtMost 0 (F.state flash.old).bytes_read (F.state flash.new).bytes_read }
    ensures changes { ChangesAtMost 1 0 (F.state flash.old).changes (F.state flash.new).changes }
    ensures either { Told (QuietOrRenewed at (record { generation = generation; body = body.now })) (F.state flash.old).bytes (F.state flash.new).bytes }
    ensures renewed { OnOk result (Told (Renewed at (record { generation = generation; body = body.now })) (F.state flash.old).bytes (F.state flash.new).bytes) }
    ensures side { OnOk result (IfSome (F.state flash.new).bytes (λ held. area at 4096 held ≡ whole_side generation body.now)) }
    ensures pays { OnOk result (counts_write (F.state flash.old).geometry (F.state flash.old).aim at gate ≡ true
        → Smaller (F.state flash.old).patience (F.state flash.new).patience) }
{
    write_part(flash, at, &GATE)
}

/// Fills a side that is erased: it is not valid until the gate stands, and then it holds the body.
pub fn fill<F: Flash>(
    flash: &mut F,
    at: u32,
    generation: u32,
    body: &[u8],
    buffer: &mut [u8],
) -> Result<(), CallFault>
    requires room { length buffer.old ≡ 512 }
    requires fits { length body.now ≤ 4080 }
    requires positive { 1 ≤ generation }
    requires begins { at % 8 ≡ 0 }
    requires inside { at + 4096 ≤ size_of (F.state flash.old).geometry }
    requires regular { Regular (F.state flash.old).geometry }
    requires erased { IfSome (F.state flash.old).bytes (λ held. area at 4096 held ≡ blank 4096) }
    ensures calls { Calls (spot at 4096) (ended result) (F.state flash.old) (F.state flash.new) }
    ensures reads { ReadsAtMost 0 (F.state flash.old).bytes_read (F.state flash.new).bytes_read }
    ensures changes { ChangesAtMost 2 0 (F.state flash.old).changes (F.state flash.new).changes }
    ensures either { Told (QuietOrRenewed at (record { generation = generation; body = body.now })) (F.state flash.old).bytes (F.state flash.new).bytes }
    ensures renewed { OnOk result (Told (Renewed at (record { generation = generation; body = body.now })) (F.state flash.old).bytes (F.state flash.new).bytes) }
    ensures side { OnOk result (IfSome (F.state flash.new).bytes (λ held. area at 4096 held ≡ whole_side generation body.now)) }
    ensures pays { OnOk result (counts_write (F.state flash.old).geometry (F.state flash.old).aim at gate ≡ true
        → Smaller (F.state flash.old).patience (F.state flash.new).patience) }
{
    write_body(flash, at, generation, body, buffer)?;
    write_gate(flash, at, generation, body)
}

/// Renews a side: it holds what it held or less until the gate stands, and then the body.
pub fn renew<F: Flash>(
    flash: &mut F,
    at: u32,
    page: u32,
    generation: u32,
    body: &[u8],
    buffer: &mut [u8],
) -> Result<(), CallFault>
    requires room { length buffer.old ≡ 512 }
    requires fits { length body.now ≤ 4080 }
    requires positive { 1 ≤ generation }
    requires page { page ≡ (F.state flash.old).geometry.page }
    requires regular { Regular (F.state flash.old).geometry }
    requires begins { at % page ≡ 0 }
    requires eights { at % 8 ≡ 0 }
    requires inside { at + 4096 ≤ size_of (F.state flash.old).geometry }
    ensures calls { Calls (spot at 4096) (ended result) (F.state flash.old) (F.state flash.new) }
    ensures reads { ReadsAtMost 4096 (F.state flash.old).bytes_read (F.state flash.new).bytes_read }
    ensures changes { ChangesAtMost 2 (4096 / page) (F.state flash.old).changes (F.state flash.new).changes }
    ensures erases { IfSome (F.state flash.old).bytes (λ held. ChangesAtMost 2 (dirty_pages page at (4096 / page) held) (F.state flash.old).changes (F.state flash.new).changes) }
    ensures either { Told (QuietOrRenewed at (record { generation = generation; body = body.now })) (F.state flash.old).bytes (F.state flash.new).bytes }
    ensures renewed { OnOk result (Told (Renewed at (record { generation = generation; body = body.now })) (F.state flash.old).bytes (F.state flash.new).bytes) }
    ensures side { OnOk result (IfSome (F.state flash.new).bytes (λ held. area at 4096 held ≡ whole_side generation body.now)) }
    ensures pays { OnOk result (counts_write (F.state flash.old).geometry (F.state flash.old).aim at gate ≡ true
        → Smaller (F.state flash.old).patience (F.state flash.new).patience) }
{
    erase_side(flash, at, page, buffer)?;
    fill(flash, at, generation, body, buffer)
}
