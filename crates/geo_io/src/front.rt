//! Copying a front part.
ghost use Rattle.std.specs.Prelude.{◌≡◌, ◌++◌, ◌≤◌, length, take, drop};

/// Copies the first `count` bytes of `from` to the front of `to`.
pub(super) fn copy_front(from: &[u8], to: &mut [u8], count: usize)
    requires there { count ≤ length from.now }
    requires room { count ≤ length to.old }
    ensures { take count to.new ≡ take count from.now }
{
    to[..count].copy_from_slice(&from[..count]);
}
