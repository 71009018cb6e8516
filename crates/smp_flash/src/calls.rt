// The single operations of a flash, as the layers above call them.
ghost use Rattle.std.specs.Prelude.{◌≡◌, ◌≢◌, ◌+◌, ◌*◌, ◌%◌, ◌<◌, ◌≤◌, ◌↔◌, length, true, false, None, IfOk, OnOk, OnErr, IfSome, IsTrue};
ghost use Rattle.smp_flash.specs.Area.{area, blank, dirty, spot, Keeps, Holds, Fades, Erased, Told};
ghost use Rattle.smp_flash.specs.Calls.{Calls, ReadsAtMost, ChangesAtMost, Smaller};
ghost use Rattle.smp_flash.specs.Geometry.{is_lawful, size_of, IsPage, Regular};
ghost use Rattle.smp_flash.specs.Region.{counts, counts_write};
ghost use Rattle.smp_flash.specs.State.{FlashState, ended, call_fault};
ghost use Rattle.smp_flash.specs.State.End.{WentOff};

use crate::flash::{CallFault, Flash, FlashFault, Operation};
use crate::geometry::Geometry;

/// The fault of an operation, as a layer passes it on.
fn passed_on(operation: Operation, fault: FlashFault) -> CallFault
    ensures { result ≡ call_fault operation fault }
{
    match fault {
        FlashFault::Fault => CallFault::Fault(operation),
        FlashFault::Off => CallFault::Off,
    }
}

/// The sizes of a flash, and what lawful ones have in common.
pub fn sizes_of<F: Flash>(flash: &F) -> Geometry
    ensures same { result ≡ (F.state flash.now).geometry }
    ensures lawful { IsTrue (is_lawful result) }
    ensures regular { Regular result }
{
    flash.geometry()
}

/// Reads a part that is not empty.
pub fn read_part<F: Flash>(flash: &mut F, at: u32, into: &mut [u8]) -> Result<(), CallFault>
    requires inside { at + length into.old ≤ size_of (F.state flash.old).geometry }
    requires some { 0 < length into.old }
    ensures calls { Calls (spot at (length into.old)) (ended result) (F.state flash.old) (F.state flash.new) }
    ensures kept { (F.state flash.new).bytes ≡ (F.state flash.old).bytes }
    ensures reads { ReadsAtMost (length into.old) (F.state flash.old).bytes_read (F.state flash.new).bytes_read }
    ensures changes { ChangesAtMost 0 0 (F.state flash.old).changes (F.state flash.new).changes }
    ensures bytes { OnOk result (IfSome (F.state flash.old).bytes (λ held. into.new ≡ area at (length into.old) held)) }
    ensures unspent { OnOk result ((F.state flash.new).patience ≡ (F.state flash.old).patience) }
    ensures uncut { (F.state flash.old).on ≡ true → (F.state flash.old).aim ≢ None → ended result ≢ WentOff }
{
    match flash.read(at, into) {
        Ok(()) => Ok(()),
        Err(fault) => Err(passed_on(Operation::Read, fault)),
    }
}

/// Writes bytes into an erased part that is not empty.
pub fn write_part<F: Flash>(flash: &mut F, at: u32, bytes: &[u8]) -> Result<(), CallFault>
    requires inside { at + length bytes.now ≤ size_of (F.state flash.old).geometry }
    requires some { 0 < length bytes.now }
    requires place { at % (F.state flash.old).geometry.unit ≡ 0 }
    requires whole { length bytes.now % (F.state flash.old).geometry.unit ≡ 0 }
    requires erased { IfSome (F.state flash.old).bytes (λ held. area at (length bytes.now) held ≡ blank (length bytes.now)) }
    ensures calls { Calls (spot at (length bytes.now)) (ended result) (F.state flash.old) (F.state flash.new) }
    ensures reads { ReadsAtMost 0 (F.state flash.old).bytes_read (F.state flash.new).bytes_read }
    ensures changes { ChangesAtMost 1 0 (F.state flash.old).changes (F.state flash.new).changes }
    ensures ok { OnOk result (Told (Holds at bytes.now) (F.state flash.old).bytes (F.state flash.new).bytes) }
    ensures pays { OnOk result (counts_write (F.state flash.old).geometry (F.state flash.old).aim at bytes.now ≡ true
        → Smaller (F.state flash.old).patience (F.state flash.new).patience) }
{
    match flash.write(at, bytes) {
        Ok(()) => Ok(()),
        Err(fault) => Err(passed_on(Operation::Write, fault)),
    }
}

/// The largest page, erased.
const ERASED_PAGE: [u8; 4096] = [0xff; 4096];

/// So many erased bytes.
fn erased_bytes(size: usize) -> &'static [u8]
    requires { size ≤ 4096 }
    ensures { result.now ≡ blank size }
{
    &ERASED_PAGE[..size]
}

/// Whether the two are the same.
fn is_same(one: &[u8], other: &[u8]) -> bool
    ensures { IsTrue result ↔ (one.now ≡ other.now) }
{
    one == other
}

/// Whether every byte is erased.
pub fn is_erased(bytes: &[u8]) -> bool
    ensures { IsTrue result ↔ (bytes.now ≡ blank (length bytes.now)) }
{
    if bytes.len() <= ERASED_PAGE.len() {
        return is_same(bytes, erased_bytes(bytes.len()));
    }
    for byte in bytes {
        if *byte != 0xff {
            return false;
        }
    }
    true
}

/// Erases the page that begins there.
pub fn erase_page<F: Flash>(flash: &mut F, at: u32, size: u32) -> Result<(), CallFault>
    requires size { size ≡ (F.state flash.old).geometry.page }
    requires some { 0 < size }
    requires begin { at % size ≡ 0 }
    requires inside { at + size ≤ size_of (F.state flash.old).geometry }
    ensures calls { Calls (spot at size) (ended result) (F.state flash.old) (F.state flash.new) }
    ensures reads { ReadsAtMost 0 (F.state flash.old).bytes_read (F.state flash.new).bytes_read }
    ensures changes { ChangesAtMost 0 1 (F.state flash.old).changes (F.state flash.new).changes }
    ensures fades { Told (Fades at size) (F.state flash.old).bytes (F.state flash.new).bytes }
    ensures erased { OnOk result (Told (Erased at size) (F.state flash.old).bytes (F.state flash.new).bytes) }
    ensures pays { OnOk result (counts (F.state flash.old).geometry (F.state flash.old).aim at ≡ true
        → Smaller (F.state flash.old).patience (F.state flash.new).patience) }
{
    match flash.erase(at / size) {
        Ok(()) => Ok(()),
        Err(fault) => Err(passed_on(Operation::Erase, fault)),
    }
}

/// Reads `size` bytes into `into`, which has that length, and says whether they are erased.
pub fn reads_erased<F: Flash>(
    flash: &mut F,
    at: u32,
    size: u32,
    into: &mut [u8],
) -> Result<bool, CallFault>
    requires room { length into.old ≡ size }
    requires some { 0 < size }
    requires inside { at + size ≤ size_of (F.state flash.old).geometry }
    ensures calls { Calls (spot at size) (ended result) (F.state flash.old) (F.state flash.new) }
    ensures kept { (F.state flash.new).bytes ≡ (F.state flash.old).bytes }
    ensures reads { ReadsAtMost size (F.state flash.old).bytes_read (F.state flash.new).bytes_read }
    ensures changes { ChangesAtMost 0 0 (F.state flash.old).changes (F.state flash.new).changes }
    ensures unspent { OnOk result ((F.state flash.new).patience ≡ (F.state flash.old).patience) }
    ensures erased { IfOk result (λ erased. IfSome (F.state flash.old).bytes (λ held. IsTrue erased ↔ (area at size held ≡ blank size))) }
{
    read_part(flash, at, into)?;
    Ok(is_erased(into))
}

/// How many bytes of a page are read at once.
const PIECE: u32 = 512;

/// Reads a page piece by piece into `piece`, up to one with a byte that is not FF, and says whether all are erased.
fn is_page_erased<F: Flash>(
    flash: &mut F,
    at: u32,
    size: u32,
    piece: &mut [u8],
) -> Result<bool, CallFault>
    requires room { length piece.old ≡ 512 }
    requires page { IsPage size }
    requires inside { at + size ≤ size_of (F.state flash.old).geometry }
    ensures calls { Calls (spot at size) (ended result) (F.state flash.old) (F.state flash.new) }
    ensures kept { (F.state flash.new).bytes ≡ (F.state flash.old).bytes }
    ensures reads { ReadsAtMost size (F.state flash.old).bytes_read (F.state flash.new).bytes_read }
    ensures changes { ChangesAtMost 0 0 (F.state flash.old).changes (F.state flash.new).changes }
    ensures unspent { OnOk result ((F.state flash.new).patience ≡ (F.state flash.old).patience) }
    ensures erased { IfOk result (λ erased. IfSome (F.state flash.old).bytes (λ held. IsTrue erased ↔ (area at size held ≡ blank size))) }
{
    for i in 0..size / PIECE {
        if !reads_erased(flash, at + i * PIECE, PIECE, piece)? {
            return Ok(false);
        }
    }
    Ok(true)
}

/// Erases the page that begins there, where it is not erased already. It is read piece by piece into the first 512 bytes of
/// `buffer`, up to the first byte that is not FF.
pub fn clear_page<F: Flash>(
    flash: &mut F,
    at: u32,
    size: u32,
    buffer: &mut [u8],
) -> Result<(), CallFault>
    requires size { size ≡ (F.state flash.old).geometry.page }
    requires page { IsPage size }
    requires room { 512 ≤ length buffer.old }
    requires begin { at % size ≡ 0 }
    requires inside { at + size ≤ size_of (F.state flash.old).geometry }
    ensures calls { Calls (spot at size) (ended result) (F.state flash.old) (F.state flash.new) }
    ensures reads { ReadsAtMost size (F.state flash.old).bytes_read (F.state flash.new).bytes_read }
    ensures changes { ChangesAtMost 0 1 (F.state flash.old).changes (F.state flash.new).changes }
    ensures fades { Told (Fades at size) (F.state flash.old).bytes (F.state flash.new).bytes }
    ensures erased { OnOk result (Told (Erased at size) (F.state flash.old).bytes (F.state flash.new).bytes) }
    ensures clean { IfSome (F.state flash.old).bytes (λ held. area at size held ≡ blank size → (F.state flash.new).bytes ≡ (F.state flash.old).bytes) }

    // A page that is erased already is not erased again.
    ensures erases { IfSome (F.state flash.old).bytes (λ held. ChangesAtMost 0 (dirty size (area at size held)) (F.state flash.old).changes (F.state flash.new).changes) }
    ensures unspent { OnOk result (IfSome (F.state flash.old).bytes (λ held. area at size held ≡ blank size → (F.state flash.new).patience ≡ (F.state flash.old).patience)) }
{
    if is_page_erased(flash, at, size, &mut buffer[..PIECE as usize])? {
        return Ok(());
    }
    erase_page(flash, at, size)
}
