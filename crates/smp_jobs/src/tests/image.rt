// The image of the conversations of uploads, and the data of their packets.

ghost use Rattle.std.specs.Prelude.{◌≤◌};

use crate::Job;
use crate::tests::rows::{Digits, bytes_of};
use smp_edge::Octets;
use smp_model::Ending;
use std::alloc::Global;
use std::test::Fail;

/// The image, 80 bytes: its header, with a payload of 8 bytes and version 1.0.0 ..
pub const BYTES_0: &str =
    "3db8f396 00000000 2000 0000 08000000 00000000 01000000 00000000 00000000";

/// .. the payload, the head of its entries, and 16 bytes of its hash ..
pub const BYTES_32: &str = "0001020304050607 0769 2800 1000 2000 e3103e985884e987aaeb3091f107d4ad";

/// .. and the others.
pub const BYTES_64: &str = "2ae5ff4720f4c43459c3d0ff3a12650d";

const FILE: Digits = &[BYTES_0, BYTES_32, BYTES_64];

/// The SHA-256 of the 80 bytes, which announces the file and tags its parts.
pub const DIGEST: &str = "023dbd00747be690465d697bbaa8584b5c160e74b3ea53eb195e3bed403c199c";

/// The SHA-256 of the first 40, which stands in the image and names it in a mark.
const HASH: &str = "e3103e985884e987aaeb3091f107d4ad 2ae5ff4720f4c43459c3d0ff3a12650d";

/// {"len": 80, "off": 0, "sha": DIGEST, "data": 32 bytes}, 89 bytes.
pub const START: Digits = &[
    "a4 63 6c656e 18 50  63 6f6666 00  63 736861 58 20",
    DIGEST,
    "64 64617461 58 20",
    BYTES_0,
];

/// {"off": 32, "sha": DIGEST, "data": 32 bytes}, 84 bytes.
pub const PART_AT_32: Digits = &[
    "a3 63 6f6666 18 20  63 736861 58 20",
    DIGEST,
    "64 64617461 58 20",
    BYTES_32,
];

/// {"off": 64, "sha": DIGEST, "data": 16 bytes}, 67 bytes.
pub const PART_AT_64: Digits = &[
    "a3 63 6f6666 18 40  63 736861 58 20",
    DIGEST,
    "64 64617461 50",
    BYTES_64,
];

/// {"hash": HASH}, 40 bytes, which marks the image for a test.
pub const TEST: Digits = &["a1 64 68617368 58 20", HASH];

/// {"hash": HASH, "confirm": true}, 49 bytes.
pub const CONFIRM: Digits = &["a2 64 68617368 58 20", HASH, "67 636f6e6669726d f5"];

/// {"off": 32}; {"off": 64}; {"off": 80}.
pub const AT_32: Digits = &["a1 63 6f6666 18 20"];

pub const AT_64: Digits = &["a1 63 6f6666 18 40"];

pub const AT_80: Digits = &["a1 63 6f6666 18 50"];

/// {"off": 80, "match": true}, 14 bytes.
pub const MATCHES: Digits = &["a2 63 6f6666 18 50  65 6d61746368 f5"];

/// {"image": 1, "len": 80, "off": 0, "sha": DIGEST, "data": 32 bytes}, 96 bytes.
pub const START_1: Digits = &[
    "a5 65 696d616765 01  63 6c656e 18 50  63 6f6666 00  63 736861 58 20",
    DIGEST,
    "64 64617461 58 20",
    BYTES_0,
];

/// {"image": 1, "off": 32, "sha": DIGEST, "data": 32 bytes}, 91 bytes.
pub const PART_AT_32_1: Digits = &[
    "a4 65 696d616765 01  63 6f6666 18 20  63 736861 58 20",
    DIGEST,
    "64 64617461 58 20",
    BYTES_32,
];

/// {"image": 1, "off": 64, "sha": DIGEST, "data": 16 bytes}, 74 bytes.
pub const PART_AT_64_1: Digits = &[
    "a4 65 696d616765 01  63 6f6666 18 40  63 736861 58 20",
    DIGEST,
    "64 64617461 50",
    BYTES_64,
];

/// {"images": []}, 9 bytes. A device lists its images in answer to a mark; any answer that is no error does.
pub const IMAGES: Digits = &["a1 66 696d61676573 80"];

/// The upload of the image to image 0 or 1 of the device, in parts of so many bytes.
pub fn upload(alloc: Global, image: u32, chunk: u32, ending: Ending) -> Result<Job, Fail>
    requires image { image ≤ 1 }
    requires least { 32 ≤ chunk }
    requires most { chunk ≤ 1900 }
{
    let bytes = bytes_of(alloc, "", FILE)?;
    if bytes.as_slice().len() != 80 {
        return Err("not 80 bytes".into());
    }
    let file = Octets::from_slice(alloc, bytes.as_slice())?;
    Ok(Job::upload_to(alloc, image, file, chunk, ending)?)
}
