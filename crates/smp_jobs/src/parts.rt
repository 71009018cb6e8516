// Parts of a file.
ghost use Rattle.std.specs.Prelude.{◌≡◌, ◌≤◌, ◌==◌, ◌||◌, take, drop, length, nat_lt};
ghost use Rattle.smp_jobs.specs.Jobs.{is_outside};

/// The part of a file from an offset on, of at most so many bytes.
pub fn part_at(file: &[u8], off: usize, size: usize) -> &[u8]
    requires { off ≤ length file.now }
    ensures part { result.now ≡ take size (drop off file.now) }
    ensures most { length result.now ≤ size }
{
    let (_, rest) = file.split_at(off);
    let count = rest.len().min(size);
    &rest[..count]
}

/// Whether an answered offset is one that cannot be gone on from.
pub fn is_outside(off: u32, file: &[u8]) -> bool
    ensures { result ≡ is_outside off file.now }
{
    off == 0 || file.len() < off as usize
}
