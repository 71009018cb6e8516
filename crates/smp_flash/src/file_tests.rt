// A flash file is written, taken up again, and refused where it is spoiled.
use crate::{FileFlash, FileMedium, Flash, FlashFault, Geometry, Keeping, MemMedium};
use std::alloc::Global;
use std::fs;
use std::fs::OpenOptions;
use std::io::Write;
use std::process::Abort;
use std::test::Fail;

const SIZES: Geometry = Geometry {
    page: 512,
    unit: 8,
    slot_pages: 4,
    images: 1,
};

const LENGTH: u64 = 32 + 2 * 2048 + 16384 + 512;

#[test]
fn what_is_written_is_read_again(rt: HostRuntime) -> Result<(), Fail> {
    let mut page = [0u8; 512];
    let mut again = FileFlash::new(FileMedium::new(&rt), Keeping::System);
    assert_eq!(rt; again.read(0, &mut page), Err(FlashFault::Fault));
    {
        let mut flash = FileFlash::new(FileMedium::new(&rt), Keeping::Disk);
        assert_eq!(rt; flash.create("flash.bin", SIZES), Ok(()));
        assert_eq!(rt; flash.read(512, &mut page), Ok(()));
        assert_eq!(rt; page, [0xffu8; 512]);
        assert_eq!(rt; flash.write(512, b"abcdefgh"), Ok(()));
        assert_eq!(rt; flash.write(1024, b"ABCDEFGH"), Ok(()));
        assert_eq!(rt; flash.erase(2), Ok(()));
        // The file is locked, and the flash itself may take it up again.
        assert_eq!(rt; again.attach("flash.bin"), Err(FlashFault::Fault));
        assert_eq!(rt; again.create("flash.bin", SIZES), Err(FlashFault::Fault));
        assert_eq!(rt; flash.attach("flash.bin"), Ok(()));
    }
    assert_eq!(rt; fs::metadata(&rt, "flash.bin")?.len(), LENGTH);
    assert_eq!(rt; again.attach("flash.bin"), Ok(()));
    assert_eq!(rt; again.geometry(), SIZES);
    assert_eq!(rt; again.read(512, &mut page), Ok(()));
    assert_eq!(rt; &page[..9], b"abcdefgh\xff".as_slice());
    assert_eq!(rt; again.read(1024, &mut page), Ok(()));
    assert_eq!(rt; page, [0xffu8; 512]);
    fs::remove_file(&rt, "flash.bin")?;
    Ok(())
}

// A new flash of these sizes begins with this head, and is taken up again.
fn is_headed(rt: &impl Abort, alloc: Global, sizes: Geometry, head: &[u8]) -> Result<(), Fail> {
    assert!(rt; sizes.is_lawful());
    let medium = MemMedium::new(alloc, sizes)?;
    assert_eq!(rt; &medium.as_slice()[..32], head);
    let mut flash = FileFlash::over(medium, Keeping::System).ok_or("no flash")?;
    assert_eq!(rt; flash.geometry(), sizes);
    assert_eq!(rt; flash.create("any", sizes), Ok(()));
    assert_eq!(rt; flash.attach("any"), Ok(()));
    let mut bytes = [0u8; 8];
    assert_eq!(rt; flash.read(0, &mut bytes), Ok(()));
    assert_eq!(rt; bytes, [0xff; 8]);
    Ok(())
}

#[test]
fn heads_are_written_as_they_are_said(rt: HostRuntime) -> Result<(), Fail> {
    let two = Geometry {
        page: 4096,
        unit: 1,
        slot_pages: 4,
        images: 2,
    };
    is_headed(
        &rt,
        rt.alloc(),
        SIZES,
        b"SMPFLASH\0\0\x02\0\0\0\0\x08\0\0\0\x04\0\0\0\0\0\0\0\0\0\0\0\0",
    )?;
    is_headed(
        &rt,
        rt.alloc(),
        two,
        b"SMPFLASH\0\0\x10\0\0\0\0\x01\0\0\0\x04\0\0\0\x02\0\0\0\0\0\0\0\0",
    )?;
    Ok(())
}

// Whether a file is taken up.
fn is_taken(rt: &HostRuntime, name: &str) -> bool {
    FileFlash::new(FileMedium::new(rt), Keeping::System)
        .attach(name)
        .is_ok()
}

#[test]
fn spoiled_files_are_refused(rt: HostRuntime) -> Result<(), Fail> {
    {
        let mut flash = FileFlash::new(FileMedium::new(&rt), Keeping::System);
        assert_eq!(rt; flash.create("spoiled.bin", SIZES), Ok(()));
    }
    let mut options = OpenOptions::new();
    options.write(true);
    for length in [LENGTH - 1, LENGTH + 1, 32, 31, 0] {
        let file = options.open(&rt, "spoiled.bin")?;
        file.set_len(length)?;
        assert!(rt; !is_taken(&rt, "spoiled.bin"), "{length}");
    }
    for (head, want) in [
        (
            b"SMPFLASH\0\0\x02\0\0\0\0\x08\0\0\0\x04\0\0\0\0\0\0\0\0\0\0\0\0",
            true,
        ),
        (
            b"SMPFLASh\0\0\x02\0\0\0\0\x08\0\0\0\x04\0\0\0\0\0\0\0\0\0\0\0\0",
            false,
        ),
        (
            b"SMPFLASH\0\0\x02\0\0\0\0\x07\0\0\0\x04\0\0\0\0\0\0\0\0\0\0\0\0",
            false,
        ),
        (
            b"SMPFLASH\0\0\x02\0\0\0\0\x08\0\0\0\x05\0\0\0\0\0\0\0\0\0\0\0\0",
            false,
        ),
        (
            b"SMPFLASH\0\0\x02\0\0\0\0\x08\0\0\0\x04\0\0\0\x01\0\0\0\0\0\0\0\0",
            false,
        ),
        (
            b"SMPFLASH\0\0\x02\0\0\0\0\x08\0\0\0\x04\0\0\0\x02\0\0\0\0\0\0\0\0",
            false,
        ),
        (
            b"SMPFLASH\0\0\x02\0\0\0\0\x08\0\0\0\x04\0\0\0\0\0\0\0\0\0\0\0\x01",
            false,
        ),
    ] {
        {
            let mut file = options.open(&rt, "spoiled.bin")?;
            file.set_len(LENGTH)?;
            file.write_all(head)?;
        }
        assert_eq!(rt; is_taken(&rt, "spoiled.bin"), want, "{head:?}");
    }
    fs::remove_file(&rt, "spoiled.bin")?;
    for name in [
        "",
        ".",
        "missing.bin",
        "/dev/null",
        "/dev/full",
        "/proc/version",
    ] {
        assert!(rt; !is_taken(&rt, name), "{name}");
    }
    for name in ["", ".", "/dev/null", "/dev/full", "/proc/version"] {
        let mut flash = FileFlash::new(FileMedium::new(&rt), Keeping::System);
        assert_eq!(rt; flash.create(name, SIZES), Err(FlashFault::Fault), "{name}");
    }
    Ok(())
}
