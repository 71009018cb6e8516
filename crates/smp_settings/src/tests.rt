// What no clause says: worked bytes, counts of operations, each limit, and sweeps over cuts and failures with a real flash in
// memory.
ghost use Rattle.std.specs.Prelude.{◌≡◌, ◌≤◌, length, IsTrue, OnOk, IfOk, IfSome, true};
ghost use Rattle.smp_flash.specs.Geometry.{is_lawful};
ghost use Rattle.smp_flash.specs.Layout.{geometry_of, settings_of};
ghost use Rattle.smp_flash.specs.Memory.{mem_state};
ghost use Rattle.smp_gate.specs.Bank.{BankSays};
ghost use Rattle.smp_gate.specs.Newest.{Fits, Fresh};
ghost use Rattle.smp_settings.specs.Saved.{SettingsSay};

use crate::fault::SettingFault;
use crate::settings::Settings;
use arrayvec::ArrayVec;
use smp_flash::{
    Arm, ArmKind, Flash, FlashFault, Geometry, Layout, Left, MemFlash, Operation, Region,
};
use smp_gate::{Bank, BankFault, banks_fit};
use std::alloc::{AllocError, Global};
use std::process::Abort;
use std::test::Fail;

type Form = ArrayVec<u8, 3072>;

/// The form of no settings.
const NONE: [u8; 2] = [1, 0];

const GATE: [u8; 8] = [0x47, 0x41, 0x54, 0x45, 0x47, 0x41, 0x54, 0x45];

/// How a cell begins by which `a` has the value `1`, and one by which `b` is gone.
const GIVEN: [u8; 5] = [1, 1, 0x61, 1, 0x31];

const REMOVED: [u8; 3] = [2, 1, 0x62];

/// As many bytes as a value may have, and one more.
const VAL: [u8; 129] = [0x76; 129];

const SIZES: Geometry = Geometry {
    page: 512,
    unit: 8,
    slot_pages: 16,
    images: 1,
};

/// A new flash, and the regions of its image.
fn fresh(alloc: Global) -> Result<(MemFlash, Layout), AllocError>
    ensures sizes { IfOk result (λ made. geometry_of made.1 ≡ (mem_state made.0).geometry) }
    ensures place { IfOk result (λ made. Fits (settings_of made.1) (mem_state made.0).geometry) }
    ensures erased { IfOk result (λ made. IfSome (mem_state made.0).bytes (Fresh (settings_of made.1))) }
{
    banks_fit();
    let flash = MemFlash::new(alloc, SIZES)?;
    Ok((flash, Layout::of(SIZES)))
}

/// A new flash with no settings saved.
fn started(alloc: Global) -> Result<(MemFlash, Settings, Layout), Fail>
    ensures layout { IfOk result (λ made. made.1.layout ≡ made.2) }
    ensures sizes { IfOk result (λ made. geometry_of made.2 ≡ (mem_state made.0).geometry) }
    ensures says { IfOk result (λ made. IfSome (mem_state made.0).bytes (SettingsSay made.1)) }
{
    let (mut flash, layout) = fresh(alloc)?;
    match Settings::make(&mut flash, &layout) {
        Ok(settings) => Ok((flash, settings, layout)),
        Err(fault) => Err(Fail::from(fault)),
    }
}

/// Gives a name a value. What is saved stays.
fn give(
    flash: &MemFlash,
    settings: &mut Settings,
    name: &str,
    val: &[u8],
) -> Result<(), SettingFault>
    requires says { IfSome (mem_state flash.now).bytes (SettingsSay settings.old) }
    ensures layout { settings.new.layout ≡ settings.old.layout }
    ensures says { IfSome (mem_state flash.now).bytes (SettingsSay settings.new) }
{
    settings.write(name, val)
}

/// Deletes a name. What is saved stays.
fn take(flash: &MemFlash, settings: &mut Settings, name: &str) -> bool
    requires says { IfSome (mem_state flash.now).bytes (SettingsSay settings.old) }
    ensures layout { settings.new.layout ≡ settings.old.layout }
    ensures says { IfSome (mem_state flash.now).bytes (SettingsSay settings.new) }
{
    settings.delete(name)
}

/// Saves.
fn save(flash: &mut MemFlash, settings: &mut Settings, layout: Layout) -> Result<(), BankFault>
    requires layout { settings.old.layout ≡ layout }
    requires sizes { geometry_of layout ≡ (mem_state flash.old).geometry }
    requires says { IfSome (mem_state flash.old).bytes (SettingsSay settings.old) }
    ensures layout { settings.new.layout ≡ layout }
    ensures sizes { geometry_of layout ≡ (mem_state flash.new).geometry }
    ensures says { IfSome (mem_state flash.new).bytes (SettingsSay settings.new) }
{
    settings.save(flash)
}

/// The settings that a start finds.
fn reopened(flash: &mut MemFlash, layout: Layout) -> Result<Settings, BankFault>
    requires sizes { geometry_of layout ≡ (mem_state flash.old).geometry }
    ensures sizes { geometry_of layout ≡ (mem_state flash.new).geometry }
    ensures kept { (mem_state flash.new).bytes ≡ (mem_state flash.old).bytes }
    ensures layout { IfOk result (λ settings. settings.layout ≡ layout) }
    ensures says { IfOk result (λ settings. IfSome (mem_state flash.new).bytes (SettingsSay settings)) }
{
    flash.power_on();
    Settings::open(flash, &layout)
}

/// The stored form that a start finds.
fn saved(flash: &mut MemFlash, layout: Layout) -> Result<Form, BankFault>
    requires sizes { geometry_of layout ≡ (mem_state flash.old).geometry }
    ensures sizes { geometry_of layout ≡ (mem_state flash.new).geometry }
    ensures kept { (mem_state flash.new).bytes ≡ (mem_state flash.old).bytes }
{
    let settings = reopened(flash, layout)?;
    Ok(form_of(&settings))
}

/// The stored form of what is saved.
fn form_of(settings: &Settings) -> Form {
    let mut form = Form::new();
    let _ = form.try_extend_from_slice(settings.saved_form()).is_ok();
    form
}

/// The eight bytes from a place of a bank's first 4096 bytes on.
fn bytes_at(
    flash: &mut MemFlash,
    layout: Layout,
    second: bool,
    place: u32,
) -> Result<[u8; 8], FlashFault>
    requires sizes { geometry_of layout ≡ (mem_state flash.old).geometry }
    requires place { place ≤ 4088 }
    ensures sizes { geometry_of layout ≡ (mem_state flash.new).geometry }
    ensures kept { (mem_state flash.new).bytes ≡ (mem_state flash.old).bytes }
{
    banks_fit();
    let bank = layout.settings();
    let begin = if second {
        bank.second.at
    } else {
        bank.first.at
    };
    let mut bytes = [0u8; 8];
    flash.read(begin + place, &mut bytes)?;
    Ok(bytes)
}

/// What is not saved does not come back. What is saved does, and runs.
#[test]
fn a_start_brings_the_saved_settings_back(rt: HostRuntime) -> Result<(), Fail> {
    let (mut flash, mut settings, layout) = started(rt.alloc())?;
    give(&flash, &mut settings, "a", &[1])?;
    let mut again = reopened(&mut flash, layout)?;
    assert_eq!(rt; again.read("a"), None);
    assert_eq!(rt; again.saved_form(), NONE.as_slice());
    give(&flash, &mut again, "a", &[1])?;
    save(&mut flash, &mut again, layout)?;
    assert_eq!(rt; again.saved_form(), [1, 1, 1, 0x61, 1, 1].as_slice());
    let found = reopened(&mut flash, layout)?;
    assert_eq!(rt; found.read("a"), Some([1].as_slice()));
    assert_eq!(rt; found.saved_form(), [1, 1, 1, 0x61, 1, 1].as_slice());
    Ok(())
}

/// A load gives up what was not saved.
#[test]
fn a_load_gives_up_what_was_not_saved(rt: HostRuntime) -> Result<(), Fail> {
    let (mut flash, mut settings, layout) = started(rt.alloc())?;
    give(&flash, &mut settings, "kept", b"1")?;
    save(&mut flash, &mut settings, layout)?;
    give(&flash, &mut settings, "new", b"2")?;
    give(&flash, &mut settings, "kept", b"3")?;
    settings.load(&mut flash)?;
    assert_eq!(rt; settings.read("new"), None);
    assert_eq!(rt; settings.read("kept"), Some(b"1".as_slice()));
    Ok(())
}

/// One change is a cell, in two writes. A save of nothing is none.
#[test]
fn one_change_is_one_cell(rt: HostRuntime) -> Result<(), Fail> {
    let (mut flash, mut settings, layout) = started(rt.alloc())?;
    assert_eq!(rt; flash.changes(), 2);
    give(&flash, &mut settings, "aa", b"A")?;
    save(&mut flash, &mut settings, layout)?;
    assert_eq!(rt; (flash.changes(), flash.read_bytes()), (4, 0));
    save(&mut flash, &mut settings, layout)?;
    assert_eq!(rt; (flash.changes(), flash.read_bytes()), (4, 0));
    let cell = bytes_at(&mut flash, layout, false, 24)?;
    assert_eq!(rt; cell, [1, 2, 0x61, 0x61, 1, 0x41, 0, 0]);
    assert!(rt; take(&flash, &mut settings, "aa"));
    assert!(rt; !take(&flash, &mut settings, "aa"));
    save(&mut flash, &mut settings, layout)?;
    assert_eq!(rt; flash.changes(), 6);
    let cell = bytes_at(&mut flash, layout, false, 200)?;
    assert_eq!(rt; cell, [2, 2, 0x61, 0x61, 0, 0, 0, 0]);
    let form = saved(&mut flash, layout)?;
    assert_eq!(rt; form.as_slice(), NONE.as_slice());
    Ok(())
}

/// Saves one value of a name after the other.
fn save_values(
    flash: &mut MemFlash,
    settings: &mut Settings,
    layout: Layout,
    count: u8,
) -> Result<(), Fail>
    requires layout { settings.old.layout ≡ layout }
    requires sizes { geometry_of layout ≡ (mem_state flash.old).geometry }
    requires says { IfSome (mem_state flash.old).bytes (SettingsSay settings.old) }
    ensures layout { settings.new.layout ≡ layout }
    ensures sizes { geometry_of layout ≡ (mem_state flash.new).geometry }
    ensures says { IfSome (mem_state flash.new).bytes (SettingsSay settings.new) }
{
    for i in 0..count {
        give(flash, settings, "aa", &[i])?;
        save(flash, settings, layout)?;
    }
    Ok(())
}

/// A side has 23 cells. The next change replaces it, and the one after that is a cell again.
#[test]
fn a_full_side_is_replaced(rt: HostRuntime) -> Result<(), Fail> {
    let (mut flash, mut settings, layout) = started(rt.alloc())?;
    save_values(&mut flash, &mut settings, layout, 23)?;
    assert_eq!(rt; (flash.changes(), flash.read_bytes()), (48, 0));
    let gate = bytes_at(&mut flash, layout, true, 0)?;
    assert_eq!(rt; gate, [0xff; 8]);
    give(&flash, &mut settings, "aa", &[77])?;
    save(&mut flash, &mut settings, layout)?;
    assert_eq!(rt; (flash.changes(), flash.erases()), (50, 0));
    let gate = bytes_at(&mut flash, layout, true, 0)?;
    assert_eq!(rt; gate, GATE);
    let form = saved(&mut flash, layout)?;
    assert_eq!(rt; form.as_slice(), [1, 1, 2, 0x61, 0x61, 1, 77].as_slice());
    give(&flash, &mut settings, "aa", &[78])?;
    save(&mut flash, &mut settings, layout)?;
    assert_eq!(rt; (flash.changes(), flash.erases()), (52, 0));
    let form = saved(&mut flash, layout)?;
    assert_eq!(rt; form.as_slice(), [1, 1, 2, 0x61, 0x61, 1, 78].as_slice());
    Ok(())
}

/// Two changes go together: where the gate is cut, neither is saved.
#[test]
fn two_changes_are_saved_together(rt: HostRuntime) -> Result<(), Fail> {
    let (mut flash, mut settings, layout) = started(rt.alloc())?;
    give(&flash, &mut settings, "one", b"1")?;
    give(&flash, &mut settings, "two", b"2")?;
    flash.arm(arm(ArmKind::Cut, Region::SettingsGate, Left::Nothing));
    assert_eq!(rt; settings.save(&mut flash), Err(BankFault::Off));
    let found = reopened(&mut flash, layout)?;
    assert_eq!(rt; (found.read("one"), found.read("two")), (None, None));
    assert_eq!(rt; found.saved_form(), NONE.as_slice());
    Ok(())
}

/// The first operation there is struck.
fn arm(kind: ArmKind, region: Region, left: Left) -> Arm
    ensures { result.after ≡ 1 }
{
    Arm {
        kind,
        region,
        after: 1,
        left,
    }
}

/// A name that was added and one that was deleted are two changes; so are two values.
#[test]
fn several_changes_replace_the_side(rt: HostRuntime) -> Result<(), Fail> {
    let (mut flash, mut settings, layout) = started(rt.alloc())?;
    give(&flash, &mut settings, "a", b"1")?;
    give(&flash, &mut settings, "b", b"2")?;
    save(&mut flash, &mut settings, layout)?;
    assert_eq!(rt; (flash.changes(), flash.erases()), (4, 0));
    assert!(rt; take(&flash, &mut settings, "a"));
    give(&flash, &mut settings, "c", b"1")?;
    save(&mut flash, &mut settings, layout)?;
    assert_eq!(rt; (flash.changes(), flash.erases()), (7, 1));
    give(&flash, &mut settings, "c", b"3")?;
    give(&flash, &mut settings, "b", b"3")?;
    save(&mut flash, &mut settings, layout)?;
    assert_eq!(rt; (flash.changes(), flash.erases()), (10, 2));
    give(&flash, &mut settings, "c", b"4")?;
    give(&flash, &mut settings, "c", b"3")?;
    save(&mut flash, &mut settings, layout)?;
    assert_eq!(rt; (flash.changes(), flash.erases()), (10, 2));
    let form = saved(&mut flash, layout)?;
    assert_eq!(rt;
        form.as_slice(),
        [1, 2, 1, 0x62, 1, 0x33, 1, 0x63, 1, 0x33].as_slice()
    );
    Ok(())
}

/// Gives a name the value of no bytes, and saves it.
fn give_and_save(
    flash: &mut MemFlash,
    settings: &mut Settings,
    layout: Layout,
    name: &str,
) -> Result<(), Fail>
    requires layout { settings.old.layout ≡ layout }
    requires sizes { geometry_of layout ≡ (mem_state flash.old).geometry }
    requires says { IfSome (mem_state flash.old).bytes (SettingsSay settings.old) }
    ensures layout { settings.new.layout ≡ layout }
    ensures sizes { geometry_of layout ≡ (mem_state flash.new).geometry }
    ensures says { IfSome (mem_state flash.new).bytes (SettingsSay settings.new) }
{
    give(flash, settings, name, b"")?;
    save(flash, settings, layout)?;
    Ok(())
}

/// Names in any text, in the order of their bytes.
#[test]
fn names_are_kept_in_the_order_of_their_bytes(rt: HostRuntime) -> Result<(), Fail> {
    let (mut flash, mut settings, layout) = started(rt.alloc())?;
    give_and_save(&mut flash, &mut settings, layout, "é")?;
    give_and_save(&mut flash, &mut settings, layout, "z")?;
    give_and_save(&mut flash, &mut settings, layout, "ab")?;
    give_and_save(&mut flash, &mut settings, layout, "a")?;
    give_and_save(&mut flash, &mut settings, layout, "Z")?;
    let form = saved(&mut flash, layout)?;
    let names = [
        1, 5, 1, 0x5a, 0, 1, 0x61, 0, 2, 0x61, 0x62, 0, 1, 0x7a, 0, 2, 0xc3, 0xa9, 0,
    ];
    assert_eq!(rt; form.as_slice(), names.as_slice());
    Ok(())
}

/// The two letters of the name of this number.
fn letters(i: u8) -> [u8; 2] {
    [b'a' + i / 16 % 16, b'a' + i % 16]
}

/// Gives so many names of two letters an empty value.
fn give_names(flash: &MemFlash, settings: &mut Settings, count: u8) -> Result<(), SettingFault>
    requires says { IfSome (mem_state flash.now).bytes (SettingsSay settings.old) }
    ensures layout { settings.new.layout ≡ settings.old.layout }
    ensures says { IfSome (mem_state flash.now).bytes (SettingsSay settings.new) }
{
    for i in 0..count {
        let name = letters(i);
        if let Ok(name) = std::str::from_utf8(&name) {
            give(flash, settings, name, b"")?;
        }
    }
    Ok(())
}

/// The lengths of names and values at their limits, and which of two faults comes first.
#[test]
fn lengths_are_met(rt: HostRuntime) -> Result<(), Fail> {
    let (_, mut settings, _) = started(rt.alloc())?;
    let longer = "0123456789abcdef0123456789abcde\u{e9}";
    let longest = "0123456789abcdef0123456789abcd\u{e9}";
    let short = "0123456789abcdef0123456789abcde";
    let rows = [
        ("", VAL.as_slice(), Err(SettingFault::NameLength)),
        ("", b"", Err(SettingFault::NameLength)),
        (longer, &VAL, Err(SettingFault::NameLength)),
        (longer, b"", Err(SettingFault::NameLength)),
        (longest, &VAL, Err(SettingFault::ValueLength)),
        (longest, &VAL[..128], Ok(())),
        (short, &VAL[..127], Ok(())),
        ("a", b"", Ok(())),
        ("ab", b"1", Ok(())),
    ];
    for (name, val, want) in rows {
        assert_eq!(rt; settings.write(name, val), want, "{name}");
    }
    assert_eq!(rt; settings.read(longest), Some(&VAL[..128]));
    assert_eq!(rt; settings.read(short), Some(&VAL[..127]));
    assert_eq!(rt; settings.read(longer), None);
    assert!(rt; !settings.delete(longer));
    Ok(())
}

/// There is a place for 32 names, and for a new value of each of them.
#[test]
fn there_are_32_names(rt: HostRuntime) -> Result<(), Fail> {
    let (mut flash, mut settings, layout) = started(rt.alloc())?;
    give_names(&flash, &mut settings, 32)?;
    assert_eq!(rt;
        give(&flash, &mut settings, "zz", b""),
        Err(SettingFault::Full)
    );
    assert_eq!(rt; settings.read("zz"), None);
    give(&flash, &mut settings, "bp", b"1")?;
    assert!(rt; take(&flash, &mut settings, "aa"));
    give(&flash, &mut settings, "zz", b"")?;
    save(&mut flash, &mut settings, layout)?;
    let found = reopened(&mut flash, layout)?;
    assert_eq!(rt; found.read("aa"), None);
    assert_eq!(rt; found.read("bp"), Some(b"1".as_slice()));
    assert_eq!(rt; found.read("zz"), Some(b"".as_slice()));
    assert_eq!(rt; found.saved_form().len(), 2 + 32 * 4 + 1);
    Ok(())
}

/// Gives so many names of 32 bytes a value of 128 bytes.
fn give_long(flash: &MemFlash, settings: &mut Settings, count: u8) -> Result<(), SettingFault>
    requires says { IfSome (mem_state flash.now).bytes (SettingsSay settings.old) }
    ensures layout { settings.new.layout ≡ settings.old.layout }
    ensures says { IfSome (mem_state flash.now).bytes (SettingsSay settings.new) }
{
    let mut name = [b'n'; 32];
    for i in 0..count {
        name[..2].copy_from_slice(&letters(i));
        if let Ok(name) = std::str::from_utf8(&name) {
            give(flash, settings, name, &VAL[..128])?;
        }
    }
    Ok(())
}

/// A stored form has at most 3072 bytes: 18 long settings take 2918, and a nineteenth of 154 fills it.
#[test]
fn a_form_of_3072_bytes_is_the_longest(rt: HostRuntime) -> Result<(), Fail> {
    let (mut flash, mut settings, layout) = started(rt.alloc())?;
    give_long(&flash, &mut settings, 18)?;
    let name = "0123456789abcdef0123456789abcdef";
    assert_eq!(rt;
        give(&flash, &mut settings, name, &VAL[..128]),
        Err(SettingFault::Full)
    );
    assert_eq!(rt;
        give(&flash, &mut settings, name, &VAL[..121]),
        Err(SettingFault::Full)
    );
    give(&flash, &mut settings, name, &VAL[..120])?;
    assert_eq!(rt;
        give(&flash, &mut settings, "a", b""),
        Err(SettingFault::Full)
    );
    assert_eq!(rt;
        give(&flash, &mut settings, name, &VAL[..121]),
        Err(SettingFault::Full)
    );
    save(&mut flash, &mut settings, layout)?;
    let found = reopened(&mut flash, layout)?;
    assert_eq!(rt; found.saved_form().len(), 3072);
    assert_eq!(rt; found.read(name), Some(&VAL[..120]));
    Ok(())
}

/// The bytes of a cell that begins so, filled with 00.
fn whole_cell(begin: &[u8]) -> [u8; 168] {
    let mut bytes = [0u8; 168];
    if begin.len() <= 168 {
        bytes[..begin.len()].copy_from_slice(begin);
    }
    bytes
}

/// Appends the cell that begins so.
fn append_cell(
    flash: &mut MemFlash,
    layout: Layout,
    bank: &mut Bank,
    begin: &[u8],
) -> Result<(), BankFault>
    requires place { bank.old.place ≡ settings_of layout }
    requires cell { bank.old.cell ≡ 168 }
    requires sure { IsTrue bank.old.sure }
    requires fits { Fits (settings_of layout) (mem_state flash.old).geometry }
    requires sizes { geometry_of layout ≡ (mem_state flash.old).geometry }
    requires says { IfSome (mem_state flash.old).bytes (BankSays bank.old) }
    ensures place { bank.new.place ≡ settings_of layout }
    ensures cell { bank.new.cell ≡ 168 }
    ensures fits { Fits (settings_of layout) (mem_state flash.new).geometry }
    ensures sizes { geometry_of layout ≡ (mem_state flash.new).geometry }
    ensures sure { OnOk result (IsTrue bank.new.sure) }
    ensures says { OnOk result (IfSome (mem_state flash.new).bytes (BankSays bank.new)) }
{
    let bytes = whole_cell(begin);
    bank.append(flash, &bytes)
}

/// The fault of a start over a bank of no settings with two right cells and this one.
fn fault_behind(alloc: Global, third: &[u8]) -> Result<Option<BankFault>, Fail> {
    let (mut flash, layout) = fresh(alloc)?;
    let mut bank = Bank::make(&mut flash, layout.settings(), 168, &NONE)?;
    append_cell(&mut flash, layout, &mut bank, &GIVEN)?;
    append_cell(&mut flash, layout, &mut bank, &REMOVED)?;
    append_cell(&mut flash, layout, &mut bank, third)?;
    Ok(Settings::open(&mut flash, &layout).err())
}

/// A right body, two right cells, and a third one that is not lawful: the start finds no map.
#[test]
fn each_cell_is_lawful(rt: HostRuntime) -> Result<(), Fail> {
    let mut long = [0x6e; 36];
    long[0] = 1;
    long[1] = 33;
    let mut late = [0u8; 168];
    late[..3].copy_from_slice(&[2, 1, 0x61]);
    late[167] = 1;
    let rows = [
        (GIVEN.as_slice(), None),
        (&REMOVED, None),
        (&[0], Some(BankFault::Unformatted)),
        (&[3, 1, 0x61], Some(BankFault::Unformatted)),
        (&[1, 0, 1, 0x31], Some(BankFault::Unformatted)),
        (&[2, 0], Some(BankFault::Unformatted)),
        (&[1, 1, 0xff, 0], Some(BankFault::Unformatted)),
        (&[1, 1, 0x61, 165], Some(BankFault::Unformatted)),
        (&[1, 1, 0x61, 1, 0x31, 0x32], Some(BankFault::Unformatted)),
        (&long, Some(BankFault::Unformatted)),
        (&late, Some(BankFault::Unformatted)),
    ];
    for (third, want) in rows {
        let fault = fault_behind(rt.alloc(), third)?;
        assert_eq!(rt; fault, want, "{third:?}");
    }
    Ok(())
}

/// The fault of a start over a bank of this body.
fn fault_over(alloc: Global, body: &[u8]) -> Result<Option<BankFault>, Fail>
    requires { length body.now ≤ 4080 }
{
    let (mut flash, layout) = fresh(alloc)?;
    let _ = Bank::make(&mut flash, layout.settings(), 168, body)?;
    Ok(Settings::open(&mut flash, &layout).err())
}

/// Bodies that are no stored form.
#[test]
fn each_body_is_a_stored_form(rt: HostRuntime) -> Result<(), Fail> {
    let rows = [
        ([1, 0].as_slice(), None),
        (&[1, 2, 1, 0x61, 0, 1, 0x62, 0], None),
        (&[], Some(BankFault::Unformatted)),
        (&[1], Some(BankFault::Unformatted)),
        (&[2, 0], Some(BankFault::Unformatted)),
        (&[1, 0, 0], Some(BankFault::Unformatted)),
        (&[1, 1], Some(BankFault::Unformatted)),
        (
            &[1, 2, 1, 0x62, 0, 1, 0x61, 0],
            Some(BankFault::Unformatted),
        ),
        (
            &[1, 2, 1, 0x61, 0, 1, 0x61, 0],
            Some(BankFault::Unformatted),
        ),
        (&[1, 1, 1, 0xc3, 0], Some(BankFault::Unformatted)),
    ];
    for (body, want) in rows {
        if body.len() <= 4080 {
            let fault = fault_over(rt.alloc(), body)?;
            assert_eq!(rt; fault, want, "{body:?}");
        }
    }
    Ok(())
}

/// A flash that was never formatted holds no settings, and stays as it is.
#[test]
fn an_erased_flash_is_unformatted(rt: HostRuntime) -> Result<(), Fail> {
    let (mut flash, layout) = fresh(rt.alloc())?;
    let fault = reopened(&mut flash, layout).err();
    assert_eq!(rt; fault, Some(BankFault::Unformatted));
    assert_eq!(rt; flash.changes(), 0);
    Ok(())
}

/// A start reads both heads, the newest body, of the used cells all gates but the last, the last cell and the free ones, and
/// then each cell, once.
#[test]
fn a_start_reads_what_it_needs(rt: HostRuntime) -> Result<(), Fail> {
    let (mut flash, mut settings, layout) = started(rt.alloc())?;
    save_values(&mut flash, &mut settings, layout, 3)?;
    let form = saved(&mut flash, layout)?;
    assert_eq!(rt; form.as_slice(), [1, 1, 2, 0x61, 0x61, 1, 2].as_slice());
    assert_eq!(rt;
        (flash.changes(), flash.read_bytes()),
        (8, 32 + 2 + 2 * 8 + 21 * 176 + 3 * 168)
    );
    Ok(())
}

/// The first side of a bank of the last generation, with no settings.
const WORN: [u8; 24] = [
    0x47, 0x41, 0x54, 0x45, 0x47, 0x41, 0x54, 0x45, 0x0f, 0x7f, 0x7f, 0x7f, 0x7f, 0, 2, 1, 1, 0, 0,
    0, 0, 0, 0, 0,
];

/// A flash whose settings bank has the last generation.
fn worn(alloc: Global) -> Result<(MemFlash, Layout), Fail>
    ensures sizes { IfOk result (λ made. geometry_of made.1 ≡ (mem_state made.0).geometry) }
{
    let (mut flash, layout) = fresh(alloc)?;
    let place = layout.settings();
    flash.write(place.first.at, &WORN)?;
    Ok((flash, layout))
}

/// No save of a worn bank comes to an operation, also where nothing differs or a cell would do.
#[test]
fn a_worn_bank_stays_as_it_is(rt: HostRuntime) -> Result<(), Fail> {
    let (mut flash, layout) = worn(rt.alloc())?;
    let mut settings = reopened(&mut flash, layout)?;
    let before = (flash.changes(), flash.read_bytes());
    assert_eq!(rt;
        save(&mut flash, &mut settings, layout),
        Err(BankFault::Worn)
    );
    give(&flash, &mut settings, "a", b"1")?;
    assert_eq!(rt;
        save(&mut flash, &mut settings, layout),
        Err(BankFault::Worn)
    );
    assert_eq!(rt; (flash.changes(), flash.read_bytes()), before);
    assert_eq!(rt; settings.read("a"), Some(b"1".as_slice()));
    let form = saved(&mut flash, layout)?;
    assert_eq!(rt; form.as_slice(), NONE.as_slice());
    Ok(())
}

/// A fault is passed on as what it is. The next save opens the bank again and goes on.
#[test]
fn faults_are_passed_on(rt: HostRuntime) -> Result<(), Fail> {
    let (mut flash, mut settings, layout) = started(rt.alloc())?;
    give(&flash, &mut settings, "a", b"1")?;
    flash.arm(arm(ArmKind::Fail, Region::Settings, Left::Seed(5)));
    assert_eq!(rt;
        save(&mut flash, &mut settings, layout),
        Err(BankFault::Fault(Operation::Write))
    );
    flash.arm(arm(ArmKind::Read, Region::Settings, Left::Nothing));
    assert_eq!(rt;
        save(&mut flash, &mut settings, layout),
        Err(BankFault::Fault(Operation::Read))
    );
    assert_eq!(rt; settings.read("a"), Some(b"1".as_slice()));
    save(&mut flash, &mut settings, layout)?;
    let form = saved(&mut flash, layout)?;
    assert_eq!(rt; form.as_slice(), [1, 1, 1, 0x61, 1, 0x31].as_slice());
    Ok(())
}

/// What is struck in each save of a sweep: which of its operations, how, and what is left of it.
#[derive(Clone, Copy, Debug)]
struct Strike {
    kind: ArmKind,
    after: u32,
    left: Left,
}

/// The changes before the save of this number: two names at the beginning and the end, and one in each between, which are more
/// than a side has cells.
fn change(flash: &MemFlash, settings: &mut Settings, turn: u8) -> Result<(), SettingFault>
    requires says { IfSome (mem_state flash.now).bytes (SettingsSay settings.old) }
    ensures layout { settings.new.layout ≡ settings.old.layout }
    ensures says { IfSome (mem_state flash.now).bytes (SettingsSay settings.new) }
{
    if turn < 3 || turn > 27 {
        give(flash, settings, "both", &[turn])?;
    }
    if turn % 7 == 6 {
        let _ = take(flash, settings, "name");
        return Ok(());
    }
    give(flash, settings, "name", &[turn, turn])
}

/// Saves with the operation of this number struck.
fn struck_save(
    flash: &mut MemFlash,
    settings: &mut Settings,
    layout: Layout,
    strike: Strike,
) -> Result<(), BankFault>
    requires after { 1 ≤ strike.after }
    requires layout { settings.old.layout ≡ layout }
    requires sizes { geometry_of layout ≡ (mem_state flash.old).geometry }
    requires says { IfSome (mem_state flash.old).bytes (SettingsSay settings.old) }
    ensures layout { settings.new.layout ≡ layout }
    ensures sizes { geometry_of layout ≡ (mem_state flash.new).geometry }
    ensures says { IfSome (mem_state flash.new).bytes (SettingsSay settings.new) }
{
    flash.arm(Arm {
        kind: strike.kind,
        region: Region::Settings,
        after: strike.after,
        left: strike.left,
    });
    let result = save(flash, settings, layout);
    flash.power_on();
    result
}

/// A save that is struck, after which a start finds the old map or the new one; then one that is not, after which it finds the
/// new one. By turns the second one is of the same settings and of those that the start found.
fn strike_and_save(
    rt: &impl Abort,
    flash: &mut MemFlash,
    settings: &mut Settings,
    layout: Layout,
    strike: Strike,
    turn: u8,
) -> Result<(), Fail>
    requires after { 1 ≤ strike.after }
    requires layout { settings.old.layout ≡ layout }
    requires sizes { geometry_of layout ≡ (mem_state flash.old).geometry }
    requires says { IfSome (mem_state flash.old).bytes (SettingsSay settings.old) }
    ensures layout { settings.new.layout ≡ layout }
    ensures sizes { geometry_of layout ≡ (mem_state flash.new).geometry }
    ensures says { IfSome (mem_state flash.new).bytes (SettingsSay settings.new) }
{
    let old = form_of(settings);
    change(flash, settings, turn)?;
    let went = struck_save(flash, settings, layout, strike).is_ok();
    let again = reopened(flash, layout)?;
    let found = form_of(&again);
    if turn % 2 == 1 {
        *settings = again;
        change(flash, settings, turn)?;
    }
    save(flash, settings, layout)?;
    let new = saved(flash, layout)?;
    assert_eq!(rt; new.as_slice(), settings.saved_form(), "{strike:?} {turn}");
    let right = is_right(went, strike.left, &old, &found, &new);
    assert!(rt; right, "{strike:?} {turn}");
    Ok(())
}

/// Whether a start found what it may: the new form after a save that went through, the old one where nothing is left of the
/// operation that was struck, and else one of the two.
fn is_right(went: bool, left: Left, old: &Form, found: &Form, new: &Form) -> bool {
    let is_old = found.as_slice() == old.as_slice();
    let is_new = found.as_slice() == new.as_slice();
    if went {
        is_new
    } else if left == Left::Nothing {
        is_old
    } else {
        is_old || is_new
    }
}

/// Thirty saves, in each of which one operation is struck.
fn strike_thirty(rt: &impl Abort, alloc: Global, strike: Strike) -> Result<(), Fail>
    requires { 1 ≤ strike.after }
{
    let (mut flash, mut settings, layout) = started(alloc)?;
    for turn in 0..30 {
        strike_and_save(rt, &mut flash, &mut settings, layout, strike, turn)?;
    }
    let end = form_of(&settings);
    let want = [
        1, 2, 4, 0x62, 0x6f, 0x74, 0x68, 1, 29, 4, 0x6e, 0x61, 0x6d, 0x65, 2, 29, 29,
    ];
    assert_eq!(rt; end.as_slice(), want.as_slice());
    Ok(())
}

/// Each operation that a save may need, and one past its last.
fn strike_each(rt: &impl Abort, alloc: Global, kind: ArmKind, left: Left) -> Result<(), Fail> {
    for after in 1..12 {
        strike_thirty(rt, alloc, Strike { kind, after, left })?;
    }
    Ok(())
}

#[test]
fn every_cut_leaves_the_old_or_the_new(rt: HostRuntime) -> Result<(), Fail> {
    strike_each(&rt, rt.alloc(), ArmKind::Cut, Left::Nothing)?;
    strike_each(&rt, rt.alloc(), ArmKind::Cut, Left::Whole)?;
    strike_each(&rt, rt.alloc(), ArmKind::Cut, Left::Seed(7))?;
    strike_each(&rt, rt.alloc(), ArmKind::Cut, Left::Seed(9))
}

#[test]
fn every_failure_leaves_the_old_or_the_new(rt: HostRuntime) -> Result<(), Fail> {
    strike_each(&rt, rt.alloc(), ArmKind::Fail, Left::Nothing)?;
    strike_each(&rt, rt.alloc(), ArmKind::Fail, Left::Whole)?;
    strike_each(&rt, rt.alloc(), ArmKind::Fail, Left::Seed(7))?;
    strike_each(&rt, rt.alloc(), ArmKind::Fail, Left::Seed(9))
}
