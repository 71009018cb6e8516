// The image of a file.
ghost use Rattle.std.specs.Prelude.{◌≡◌, ◌≤◌, length, Some, IfOk, IfErr};
ghost use Rattle.sha2.specs.Sha256.{sha256};
ghost use Rattle.smp_model.specs.Image.{good_image};
ghost use Rattle.smp_jobs.specs.Tasks.{IsBad};

use sha2::{Digest, Sha256};
use smp_model::{ImageFault, ImageInfo};
use smp_tlv::{Lent, check_hash, lent_bytes_are_read, read_image};

/// The SHA-256 of a file.
pub fn digest_of(file: &[u8]) -> [u8; 32]
    ensures { result ≡ sha256 file.now }
{
    Sha256::digest(file)
}

/// The image that a file begins with, whose hash is that of its bytes.
pub fn read_good(file: &[u8]) -> Result<ImageInfo, ImageFault>
    requires { length file.now ≤ 4294967295 }
    ensures good { IfOk result (λ info. good_image file.now ≡ Some info) }
    ensures bad { IfErr result (IsBad file.now) }
{
    lent_bytes_are_read();
    let mut lent = Lent::new(file);
    let info = read_image(&mut lent)?;
    check_hash(&mut lent, &info)?;
    Ok(info)
}
