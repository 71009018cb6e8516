//! The image that bytes begin with, read by `smp_tlv` over lent bytes.

ghost use Rattle.std.specs.Prelude.{◌≡◌, ◌<◌, ◌^◌, length};
ghost use Rattle.smp_model.specs.Image.{good_image};

use smp_model::ImageInfo;
use smp_tlv::{Lent, check_hash, lent_bytes_are_read, read_image};

/// The image, where it is a good one.
pub(crate) fn good_image(bytes: &[u8]) -> Option<ImageInfo>
    requires { length bytes.now < 2 ^ 32 }
    ensures { result ≡ good_image bytes.now }
{
    let mut lent = Lent::new(bytes);
    lent_bytes_are_read();
    match read_image(&mut lent) {
        Ok(info) => match check_hash(&mut lent, &info) {
            Ok(()) => Some(info),
            Err(_) => None,
        },
        Err(_) => None,
    }
}
