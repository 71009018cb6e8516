// What no clause says: worked cases, exact counts of operations and bytes read, and what each cut and each failure leaves, with
// real flashes in memory.
ghost use Rattle.std.specs.Prelude.{◌≡◌, ◌+◌, ◌<◌, ◌≤◌, length, IsTrue, OnOk, IfOk, IfSome, IsSome};
ghost use Rattle.smp_flash.specs.Geometry.{is_lawful, slot_size};
ghost use Rattle.smp_flash.specs.Layout.{geometry_of, progress_of};
ghost use Rattle.smp_flash.specs.Memory.{mem_state};
ghost use Rattle.smp_gate.specs.Newest.{Fresh};
ghost use Rattle.smp_upload.specs.States.{Says, known_idle, known_mounted, known_receiving, known_whole};

mod calls;
mod costs;
mod cuts;
mod sweep;

use crate::states::{Chunked, Idle, Lost, Mounted, Receiving, Unmounted, UploadFault, Whole};
use sha2::{Digest, Sha256};
use smp_flash::{Arm, ArmKind, CallFault, Flash, Geometry, Layout, Left, MemFlash, Region};
use smp_gate::banks_fit;
use smp_model::{Announcement, Mark, Version, make_image};
use smp_progress::Progress;
use smp_slot::{put, slots_fit, tail_is_clean};
use std::alloc::{AllocError, Global};
use std::test::Fail;

/// A flash, and the regions of one of its images.
#[derive(Drop)]
pub struct Board {
    pub flash: MemFlash,
    pub layout: Layout,
    ghost sizes: { geometry_of layout ≡ (mem_state flash).geometry },
}

/// The same, and the state of the upload there. A part may have answered whether the digest is right.
#[derive(Drop)]
pub struct Bench {
    pub flash: MemFlash,
    pub state: Mounted,
    pub matched: Option<bool>,
    ghost sizes: { geometry_of (known_mounted state).layout ≡ (mem_state flash).geometry },
}

/// A call that did not go through, or that is not one of its state: then there is no fault.
#[derive(Drop)]
pub struct Stopped {
    pub board: Board,
    pub fault: Option<UploadFault>,
    /// The offset that was answered last, where an upload was under way or complete.
    pub answered: Option<u32>,
}

/// What a state says, for a test to compare.
#[derive(Clone, Copy, Debug, PartialEq, Eq)]
pub enum Seen {
    Idle,
    Receiving(u32, Announcement),
    Whole(Announcement, bool),
    Pending(Announcement, Mark),
}

/// The regions of a state.
pub fn layout_of(state: &Mounted) -> Layout
    ensures { result ≡ (known_mounted state.now).layout }
{
    match state {
        Mounted::Idle(idle) => idle.layout,
        Mounted::Receiving(receiving) => receiving.layout,
        Mounted::Whole(whole) => whole.layout,
        Mounted::Pending(pending) => pending.layout,
    }
}

/// What a state says.
pub fn look_at(state: &Mounted) -> Seen {
    match state {
        Mounted::Idle(_) => Seen::Idle,
        Mounted::Receiving(receiving) => {
            Seen::Receiving(receiving.offset, receiving.announcement)
        }
        Mounted::Whole(whole) => Seen::Whole(whole.announcement, whole.image.is_some()),
        Mounted::Pending(pending) => Seen::Pending(pending.announcement, pending.mark),
    }
}

/// The offset that a state answers.
fn offset_of(state: &Mounted) -> Option<u32> {
    match look_at(state) {
        Seen::Idle => None,
        Seen::Receiving(offset, _) => Some(offset),
        Seen::Whole(announcement, _) | Seen::Pending(announcement, _) => {
            Some(announcement.length)
        }
    }
}

/// Forgets the state, as a loss of power does.
pub fn unmount(bench: Bench) -> Board {
    let Bench { flash, state, .. } = bench;
    let layout = layout_of(&state);
    Board { flash, layout }
}

/// A call that is none of the state.
fn refused(bench: Bench) -> Stopped {
    let answered = offset_of(&bench.state);
    Stopped {
        board: unmount(bench),
        fault: None,
        answered,
    }
}

/// What a call leaves that did not go through, behind this answer.
fn stopped_by(flash: MemFlash, lost: Lost, answered: Option<u32>) -> Stopped
    requires { geometry_of lost.state.layout ≡ (mem_state flash).geometry }
{
    Stopped {
        board: Board {
            flash,
            layout: lost.state.layout,
        },
        fault: Some(lost.fault),
        answered,
    }
}

/// Finds the state.
pub fn mount(board: Board) -> Result<Bench, Stopped>
    ensures says { IfOk result (λ bench. IfSome (mem_state bench.flash).bytes (Says (known_mounted bench.state))) }
{
    let Board {
        mut flash,
        layout,
        ..
    } = board;
    match Unmounted::new(layout).mount(&mut flash) {
        Ok(state) => Ok(Bench {
            flash,
            state,
            matched: None,
        }),
        Err(lost) => Err(stopped_by(flash, lost, None)),
    }
}

/// Chooses an upload where there is none.
fn choose_first(flash: MemFlash, idle: Idle, announcement: Announcement) -> Result<Bench, Stopped>
    requires sizes { geometry_of idle.layout ≡ (mem_state flash).geometry }
    requires says { IfSome (mem_state flash).bytes (Says (known_idle idle)) }
    requires least { 32 ≤ announcement.length }
    requires most { announcement.length + (geometry_of idle.layout).page ≤ slot_size (geometry_of idle.layout) }
    ensures says { IfOk result (λ bench. IfSome (mem_state bench.flash).bytes (Says (known_mounted bench.state))) }
{
    let mut flash = flash;
    match idle.choose(&mut flash, &announcement) {
        Ok(receiving) => Ok(Bench {
            flash,
            state: Mounted::Receiving(receiving),
            matched: None,
        }),
        Err(lost) => Err(stopped_by(flash, lost, None)),
    }
}

/// Chooses an upload where another is under way.
fn choose_anew(
    flash: MemFlash,
    receiving: Receiving,
    announcement: Announcement,
) -> Result<Bench, Stopped>
    requires sizes { geometry_of receiving.layout ≡ (mem_state flash).geometry }
    requires says { IfSome (mem_state flash).bytes (Says (known_receiving receiving)) }
    requires least { 32 ≤ announcement.length }
    requires most { announcement.length + (geometry_of receiving.layout).page ≤ slot_size (geometry_of receiving.layout) }
    ensures says { IfOk result (λ bench. IfSome (mem_state bench.flash).bytes (Says (known_mounted bench.state))) }
{
    let mut flash = flash;
    match receiving.choose(&mut flash, &announcement) {
        Ok(receiving) => Ok(Bench {
            flash,
            state: Mounted::Receiving(receiving),
            matched: None,
        }),
        Err(lost) => Err(stopped_by(flash, lost, None)),
    }
}

/// Chooses an upload where another is complete.
fn choose_next(flash: MemFlash, whole: Whole, announcement: Announcement) -> Result<Bench, Stopped>
    requires sizes { geometry_of whole.layout ≡ (mem_state flash).geometry }
    requires says { IfSome (mem_state flash).bytes (Says (known_whole whole)) }
    requires least { 32 ≤ announcement.length }
    requires most { announcement.length + (geometry_of whole.layout).page ≤ slot_size (geometry_of whole.layout) }
    ensures says { IfOk result (λ bench. IfSome (mem_state bench.flash).bytes (Says (known_mounted bench.state))) }
{
    let mut flash = flash;
    match whole.choose(&mut flash, &announcement) {
        Ok(receiving) => Ok(Bench {
            flash,
            state: Mounted::Receiving(receiving),
            matched: None,
        }),
        Err(lost) => Err(stopped_by(flash, lost, None)),
    }
}

/// Chooses an upload, where one can be chosen.
pub fn choose(bench: Bench, announcement: Announcement) -> Result<Bench, Stopped>
    requires says { IfSome (mem_state bench.flash).bytes (Says (known_mounted bench.state)) }
    ensures says { IfOk result (λ bench. IfSome (mem_state bench.flash).bytes (Says (known_mounted bench.state))) }
{
    let layout = layout_of(&bench.state);
    let sizes = layout.geometry();
    if announcement.length < 32 || announcement.length > sizes.slot_size() - sizes.page {
        return Err(refused(bench));
    }
    let Bench { flash, state, .. } = bench;
    match state {
        Mounted::Idle(idle) => choose_first(flash, idle, announcement),
        Mounted::Receiving(receiving) => choose_anew(flash, receiving, announcement),
        Mounted::Whole(whole) => choose_next(flash, whole, announcement),
        Mounted::Pending(pending) => Err(refused(Bench {
            flash,
            state: Mounted::Pending(pending),
            matched: None,
        })),
    }
}

/// Stores a part of an upload under way.
fn store_part(flash: MemFlash, receiving: Receiving, bytes: &[u8]) -> Result<Bench, Stopped>
    requires sizes { geometry_of receiving.layout ≡ (mem_state flash).geometry }
    requires says { IfSome (mem_state flash).bytes (Says (known_receiving receiving)) }
    requires fits { receiving.offset + length bytes.now ≤ receiving.announcement.length }
    ensures says { IfOk result (λ bench. IfSome (mem_state bench.flash).bytes (Says (known_mounted bench.state))) }
{
    let mut flash = flash;
    let answered = Some(receiving.offset);
    match receiving.chunk(&mut flash, bytes) {
        Ok(Chunked::Receiving(receiving)) => Ok(Bench {
            flash,
            state: Mounted::Receiving(receiving),
            matched: None,
        }),
        Ok(Chunked::Whole(whole, matched)) => Ok(Bench {
            flash,
            state: Mounted::Whole(whole),
            matched,
        }),
        Ok(Chunked::Dropped(idle)) => Ok(Bench {
            flash,
            state: Mounted::Idle(idle),
            matched: Some(false),
        }),
        Err(lost) => Err(stopped_by(flash, lost, answered)),
    }
}

/// Stores a part, where it fits.
pub fn part(bench: Bench, bytes: &[u8]) -> Result<Bench, Stopped>
    requires says { IfSome (mem_state bench.flash).bytes (Says (known_mounted bench.state)) }
    ensures says { IfOk result (λ bench. IfSome (mem_state bench.flash).bytes (Says (known_mounted bench.state))) }
{
    let Bench {
        flash,
        state,
        matched,
        ..
    } = bench;
    match state {
        Mounted::Receiving(receiving)
            if bytes.len() <= (receiving.announcement.length - receiving.offset) as usize => {
            store_part(flash, receiving, bytes)
        }
        state => Err(refused(Bench {
            flash,
            state,
            matched,
        })),
    }
}

/// Marks a complete upload that is a good image.
fn mark_whole(flash: MemFlash, whole: Whole, mark: Mark) -> Result<Bench, Stopped>
    requires sizes { geometry_of whole.layout ≡ (mem_state flash).geometry }
    requires says { IfSome (mem_state flash).bytes (Says (known_whole whole)) }
    requires good { IsSome whole.image }
    ensures says { IfOk result (λ bench. IfSome (mem_state bench.flash).bytes (Says (known_mounted bench.state))) }
{
    let mut flash = flash;
    let answered = Some(whole.announcement.length);
    match whole.set_pending(&mut flash, mark) {
        Ok(pending) => Ok(Bench {
            flash,
            state: Mounted::Pending(pending),
            matched: None,
        }),
        Err(lost) => Err(stopped_by(flash, lost, answered)),
    }
}

/// Marks a complete upload, where it is a good image.
pub fn set_pending(bench: Bench, mark: Mark) -> Result<Bench, Stopped>
    requires says { IfSome (mem_state bench.flash).bytes (Says (known_mounted bench.state)) }
    ensures says { IfOk result (λ bench. IfSome (mem_state bench.flash).bytes (Says (known_mounted bench.state))) }
{
    let Bench {
        flash,
        state,
        matched,
        ..
    } = bench;
    match state {
        Mounted::Whole(whole) if whole.image.is_some() => mark_whole(flash, whole, mark),
        state => Err(refused(Bench {
            flash,
            state,
            matched,
        })),
    }
}

/// Erases the slot, where no upload is there.
fn clean(flash: MemFlash, idle: Idle) -> Result<Bench, Stopped>
    requires sizes { geometry_of idle.layout ≡ (mem_state flash).geometry }
    requires says { IfSome (mem_state flash).bytes (Says (known_idle idle)) }
    ensures says { IfOk result (λ bench. IfSome (mem_state bench.flash).bytes (Says (known_mounted bench.state))) }
{
    let mut flash = flash;
    match idle.erase(&mut flash) {
        Ok(idle) => Ok(Bench {
            flash,
            state: Mounted::Idle(idle),
            matched: None,
        }),
        Err(lost) => Err(stopped_by(flash, lost, None)),
    }
}

/// Erases the slot, where an upload is under way.
fn drop_unfinished(flash: MemFlash, receiving: Receiving) -> Result<Bench, Stopped>
    requires sizes { geometry_of receiving.layout ≡ (mem_state flash).geometry }
    requires says { IfSome (mem_state flash).bytes (Says (known_receiving receiving)) }
    ensures says { IfOk result (λ bench. IfSome (mem_state bench.flash).bytes (Says (known_mounted bench.state))) }
{
    let mut flash = flash;
    match receiving.erase(&mut flash) {
        Ok(idle) => Ok(Bench {
            flash,
            state: Mounted::Idle(idle),
            matched: None,
        }),
        Err(lost) => Err(stopped_by(flash, lost, None)),
    }
}

/// Erases the slot, where an upload is complete.
fn drop_whole(flash: MemFlash, whole: Whole) -> Result<Bench, Stopped>
    requires sizes { geometry_of whole.layout ≡ (mem_state flash).geometry }
    requires says { IfSome (mem_state flash).bytes (Says (known_whole whole)) }
    ensures says { IfOk result (λ bench. IfSome (mem_state bench.flash).bytes (Says (known_mounted bench.state))) }
{
    let mut flash = flash;
    match whole.erase(&mut flash) {
        Ok(idle) => Ok(Bench {
            flash,
            state: Mounted::Idle(idle),
            matched: None,
        }),
        Err(lost) => Err(stopped_by(flash, lost, None)),
    }
}

/// Erases the slot, where nothing is pending.
pub fn erase(bench: Bench) -> Result<Bench, Stopped>
    requires says { IfSome (mem_state bench.flash).bytes (Says (known_mounted bench.state)) }
    ensures says { IfOk result (λ bench. IfSome (mem_state bench.flash).bytes (Says (known_mounted bench.state))) }
{
    let Bench { flash, state, .. } = bench;
    match state {
        Mounted::Idle(idle) => clean(flash, idle),
        Mounted::Receiving(receiving) => drop_unfinished(flash, receiving),
        Mounted::Whole(whole) => drop_whole(flash, whole),
        Mounted::Pending(pending) => Err(refused(Bench {
            flash,
            state: Mounted::Pending(pending),
            matched: None,
        })),
    }
}

/// The power is on, and this is armed.
pub fn arm(board: Board, arm: Arm) -> Board
    requires { 1 ≤ arm.after }
{
    let Board {
        mut flash,
        layout,
        ..
    } = board;
    flash.power_on();
    flash.arm(arm);
    Board { flash, layout }
}

/// The power is on, and no operation on an upload will be struck.
pub fn calm(board: Board) -> Board {
    arm(
        board,
        Arm {
            kind: ArmKind::Cut,
            region: Region::Settings,
            after: 1,
            left: Left::Nothing,
        },
    )
}

/// This is armed, where a state is known.
pub fn arm_state(bench: Bench, arm: Arm) -> Bench
    requires after { 1 ≤ arm.after }
    requires says { IfSome (mem_state bench.flash).bytes (Says (known_mounted bench.state)) }
    ensures says { IfSome (mem_state result.flash).bytes (Says (known_mounted result.state)) }
{
    let Bench {
        mut flash,
        state,
        matched,
        ..
    } = bench;
    flash.arm(arm);
    Bench {
        flash,
        state,
        matched,
    }
}

/// So many bytes of the secondary slot.
pub fn slot_bytes(alloc: Global, board: &mut Board, count: u32) -> Result<Vec<u8>, Fail> {
    slots_fit();
    let slot = board.layout.slot(1);
    let mut bytes = vec![in alloc; 0; count.min(slot.length) as usize]?;
    board.flash.read(slot.at, &mut bytes)?;
    Ok(bytes)
}

/// Writes an image to the start of the primary slot.
pub fn put_image(flash: &mut MemFlash, layout: &Layout, image: &[u8]) -> Result<bool, CallFault>
    requires sizes { geometry_of layout.now ≡ (mem_state flash.old).geometry }
    ensures sizes { OnOk result (geometry_of layout.now ≡ (mem_state flash.new).geometry) }
{
    slots_fit();
    let slot = layout.slot(0);
    let sizes = layout.geometry();
    if image.len() > 65536 || image.len() + sizes.page as usize > slot.length as usize {
        return Ok(false);
    }
    if !tail_is_clean(flash, slot, 0)? {
        return Ok(false);
    }
    put(flash, slot, 0, image)?;
    Ok(true)
}

/// The version of all images here.
pub const VERSION: Version = Version {
    major: 1,
    minor: 0,
    revision: 0,
    build: 0,
};

/// The regions of an image.
fn regions(sizes: Geometry, second: bool) -> Layout
    requires { IsTrue (is_lawful sizes) }
    ensures { geometry_of result ≡ sizes }
{
    if second {
        if let Some(layout) = Layout::second(sizes) {
            return layout;
        }
    }
    Layout::of(sizes)
}

/// A new flash, and the regions of an image.
pub fn fresh(alloc: Global, sizes: Geometry, second: bool) -> Result<(MemFlash, Layout), AllocError>
    requires { IsTrue (is_lawful sizes) }
    ensures sizes { IfOk result (λ made. geometry_of made.1 ≡ (mem_state made.0).geometry) }
    ensures erased { IfOk result (λ made. IfSome (mem_state made.0).bytes (Fresh (progress_of made.1))) }
{
    banks_fit();
    let flash = MemFlash::new(alloc, sizes)?;
    Ok((flash, regions(sizes, second)))
}

/// A new flash of which an image is formatted: an image of 80 bytes runs, not confirmed, and no upload is there.
pub fn formatted(alloc: Global, sizes: Geometry, second: bool) -> Result<Board, Fail>
    requires { IsTrue (is_lawful sizes) }
{
    let image = make_image(alloc, &[0, 1, 2, 3, 4, 5, 6, 7], VERSION)?;
    let (mut flash, layout) = fresh(alloc, sizes, second)?;
    Progress::make(&mut flash, &layout)?;
    put_image(&mut flash, &layout, image.as_slice())?;
    Ok(Board { flash, layout })
}

/// A file that is to be uploaded: its bytes, what is announced of it, in parts of which sizes, and how it is marked in the end.
#[derive(Drop)]
pub struct Plan {
    pub bytes: Vec<u8>,
    pub announcement: Announcement,
    pub sizes: [usize; 7],
    pub mark: Option<Mark>,
}

/// So many bytes that are told apart by their place, none of them FF.
fn text(alloc: Global, count: usize, first: u8) -> Result<Vec<u8>, AllocError> {
    let mut bytes = Vec::new(alloc);
    for i in 0..count {
        bytes.push((first & 0x3f) + (i % 97) as u8)?;
    }
    Ok(bytes)
}

/// A good image with such a payload, announced with its digest.
pub fn planned(
    alloc: Global,
    count: usize,
    first: u8,
    sizes: [usize; 7],
    mark: Option<Mark>,
) -> Result<Plan, Fail> {
    let payload = text(alloc, count, first)?;
    let payload = payload.as_slice();
    let image = make_image(alloc, &payload[..payload.len().min(1_000_000)], VERSION)?;
    let mut bytes = Vec::new(alloc);
    bytes.extend_from_slice(image.as_slice())?;
    let announcement = Announcement {
        length: image.as_slice().len() as u32,
        digest: Some(Sha256::digest(image.as_slice())),
    };
    Ok(Plan {
        bytes,
        announcement,
        sizes,
        mark,
    })
}

impl Plan {
    /// The bytes from an offset on, so many or all that are left.
    pub fn part(&self, offset: u32, size: usize) -> &[u8] {
        let rest = self.bytes.get(offset as usize..).unwrap_or(&[]);
        &rest[..rest.len().min(size)]
    }

    /// The size of the part of this number.
    fn size(&self, turn: usize) -> usize {
        self.sizes.get(turn % 7).copied().unwrap_or(64)
    }

    /// Whether this upload is under way and has so many bytes.
    fn is_at(&self, state: &Mounted, until: u32) -> bool {
        match look_at(state) {
            Seen::Receiving(offset, announcement) => {
                announcement == self.announcement && until <= offset
            }
            _ => false,
        }
    }

    /// Whether nothing is left to do.
    pub fn is_done(&self, state: &Mounted) -> bool {
        match look_at(state) {
            Seen::Idle | Seen::Receiving(_, _) => false,
            Seen::Whole(announcement, _) => {
                announcement == self.announcement && self.mark.is_none()
            }
            Seen::Pending(announcement, mark) => {
                announcement == self.announcement && Some(mark) == self.mark
            }
        }
    }
}

/// Does what comes next: the file is chosen, a part of it is stored, or it is marked.
fn step(bench: Bench, plan: &Plan, turn: usize) -> Result<Bench, Stopped>
    requires says { IfSome (mem_state bench.flash).bytes (Says (known_mounted bench.state)) }
    ensures says { IfOk result (λ bench. IfSome (mem_state bench.flash).bytes (Says (known_mounted bench.state))) }
{
    match look_at(&bench.state) {
        Seen::Receiving(offset, announcement) if announcement == plan.announcement => {
            part(bench, plan.part(offset, plan.size(turn)))
        }
        Seen::Whole(announcement, _) if announcement == plan.announcement => {
            set_pending(bench, plan.mark.unwrap_or(Mark::Test))
        }
        _ => choose(bench, plan.announcement),
    }
}

/// Uploads the file, or the rest of it, and marks it; or stops where so many bytes are accepted. It does not go on behind a wrong
/// digest.
pub fn run_to(bench: Bench, plan: &Plan, until: u32) -> Result<Bench, Stopped>
    requires says { IfSome (mem_state bench.flash).bytes (Says (known_mounted bench.state)) }
    ensures says { IfOk result (λ bench. IfSome (mem_state bench.flash).bytes (Says (known_mounted bench.state))) }
{
    let mut bench = bench;
    for turn in 0..1000 {
        if plan.is_done(&bench.state) || plan.is_at(&bench.state, until) {
            return Ok(bench);
        }
        if bench.matched == Some(false) {
            return Err(refused(bench));
        }
        bench = step(bench, plan, turn)?;
    }
    Err(refused(bench))
}

/// Uploads the file, or the rest of it, and marks it.
pub fn run(bench: Bench, plan: &Plan) -> Result<Bench, Stopped>
    requires says { IfSome (mem_state bench.flash).bytes (Says (known_mounted bench.state)) }
    ensures says { IfOk result (λ bench. IfSome (mem_state bench.flash).bytes (Says (known_mounted bench.state))) }
{
    run_to(bench, plan, u32::MAX)
}

/// What a call leaves that is to go through.
pub fn went(call: Result<Bench, Stopped>) -> Result<Bench, Fail>
    requires says { IfOk call (λ bench. IfSome (mem_state bench.flash).bytes (Says (known_mounted bench.state))) }
    ensures says { IfOk result (λ bench. IfSome (mem_state bench.flash).bytes (Says (known_mounted bench.state))) }
{
    match call {
        Ok(bench) => Ok(bench),
        Err(stopped) => Err(Fail::from(stopped.fault)),
    }
}

/// A new flash of which an image is formatted, with the state that is found.
pub fn started(alloc: Global, sizes: Geometry, second: bool) -> Result<Bench, Fail>
    requires { IsTrue (is_lawful sizes) }
    ensures says { IfOk result (λ bench. IfSome (mem_state bench.flash).bytes (Says (known_mounted bench.state))) }
{
    let board = formatted(alloc, sizes, second)?;
    went(mount(board))
}

/// A file of these bytes, announced without a digest.
pub fn plain(alloc: Global, count: usize, first: u8, size: usize) -> Result<Plan, Fail> {
    let bytes = text(alloc, count, first)?;
    let announcement = Announcement {
        length: bytes.len().min(1_000_000) as u32,
        digest: None,
    };
    Ok(Plan {
        bytes,
        announcement,
        sizes: [size; 7],
        mark: None,
    })
}

/// What a flash counted: writes and erases, of these erases, and bytes read.
#[derive(Clone, Copy, Debug, PartialEq, Eq)]
pub struct Cost {
    pub changes: u64,
    pub erases: u64,
    pub reads: u64,
}

/// What a flash counted from its beginning on.
pub fn counted(flash: &MemFlash) -> Cost {
    Cost {
        changes: flash.changes(),
        erases: flash.erases(),
        reads: flash.read_bytes(),
    }
}

/// What was counted since then.
pub fn since(before: Cost, flash: &MemFlash) -> Cost {
    let now = counted(flash);
    Cost {
        changes: now.changes.saturating_sub(before.changes),
        erases: now.erases.saturating_sub(before.erases),
        reads: now.reads.saturating_sub(before.reads),
    }
}

/// The sizes of a flash of one image, with pages of 512 bytes and write units of 8.
pub const DEFAULT: Geometry = Geometry {
    page: 512,
    unit: 8,
    slot_pages: 16,
    images: 1,
};

/// The sizes of a flash of two images.
pub fn sizes(page: u32, unit: u32) -> Geometry {
    Geometry {
        page,
        unit,
        slot_pages: 4,
        images: 2,
    }
}
