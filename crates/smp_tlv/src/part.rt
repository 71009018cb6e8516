//! A part of a flash as bytes, as a slot is one: that a flash meets what `Bytes` asks.

ghost use Rattle.std.specs.Prelude.{◌≡◌, ◌+◌, ◌≤◌, ◌∷◌, [], length, IfSome};
ghost use Rattle.std.proofs.Props.{props};
ghost use Rattle.std.specs.Option.{option_map, unwrap_or};
ghost use Rattle.smp_flash.specs.Area.{AreBytes, area};
ghost use Rattle.smp_flash.specs.Geometry.{size_of};

use crate::bytes::Bytes;
use crate::{ImageFault, ImageInfo, check_hash, read_image};
use smp_flash::{
    Arm, ArmKind, Flash, FlashFault, Geometry, Left, MemFlash, Region, sizes_of, write_part,
};
use smp_model::{Version, make_image};
use std::test::Fail;

#[derive(Drop)]
struct Part<'a, F: Flash> {
    flash: &'a mut F,
    at: u32,
    size: u32,
    ghost inside: { at + size ≤ size_of (F.state flash.now).geometry },
    ghost sized: { IfSome (option_map (area at size) (F.state flash.now).bytes) (λ held. length held ≡ size) } by { Prim.hlevel props },
    ghost are_bytes: { IfSome (option_map (area at size) (F.state flash.now).bytes) AreBytes } by { Prim.hlevel props },
}

impl<F: Flash> Bytes for Part<'_, F> {
    ghost state = { λ p. record {
      bytes = option_map (area p.at p.size) (F.state p.flash.now).bytes;
      size = p.size;
      holder = F.state p.flash.now;
      start = p.at;
      beside = (F.state p.flash.now).geometry.page ∷ (F.state p.flash.now).geometry.unit ∷ (F.state p.flash.now).geometry.slot_pages ∷ unwrap_or (F.state p.flash.now).bytes [];
    } };

    fn length(&self) -> u32 {
        self.size
    }

    fn read(&mut self, at: u32, into: &mut [u8]) -> Result<(), FlashFault> {
        if into.is_empty() {
            return Ok(());
        }
        self.flash.read(self.at + at, into)
    }

    ghost sized = { λ p. p.sized };

    ghost bytes = { λ p. p.are_bytes };
}

/// Reads the image in a part of a flash.
fn read_in<F: Flash>(flash: &mut F, at: u32, size: u32) -> Result<ImageInfo, ImageFault> {
    let all = sizes_of(flash).size();
    if at > all || size > all - at {
        return Err(ImageFault::TooLarge);
    }
    let mut part = Part { flash, at, size };
    let info = read_image(&mut part)?;
    check_hash(&mut part, &info)?;
    Ok(info)
}

const SIZES: Geometry = Geometry {
    page: 512,
    unit: 8,
    slot_pages: 16,
    images: 1,
};

/// An image in slot 1 is read there, and a read that is struck is passed on.
#[test]
fn an_image_is_read_in_a_flash(rt: HostRuntime) -> Result<(), Fail> {
    let version = Version {
        major: 1,
        minor: 0,
        revision: 0,
        build: 0,
    };
    let image = make_image(rt.alloc(), &[0, 1, 2, 3, 4, 5, 6, 7], version)?;
    let mut flash = MemFlash::new(rt.alloc(), SIZES)?;
    assert_eq!(rt; write_part(&mut flash, 8192, image.as_slice()), Ok(()));
    flash.arm(Arm {
        kind: ArmKind::Read,
        region: Region::Slot1,
        after: 4,
        left: Left::Whole,
    });
    assert_eq!(rt; read_in(&mut flash, 8192, 8192), Err(ImageFault::Fault));
    assert_eq!(rt; flash.read_bytes(), 72);
    match read_in(&mut flash, 8192, 8192) {
        Ok(info) => assert_eq!(rt; (info.version, info.covered, info.end), (version, 40, 80)),
        Err(fault) => assert!(rt; false, "{fault:?}"),
    }
    assert_eq!(rt; read_in(&mut flash, 8192, 79), Err(ImageFault::Tlvs));
    assert_eq!(rt; read_in(&mut flash, 0, 8192), Err(ImageFault::Magic));
    Ok(())
}
