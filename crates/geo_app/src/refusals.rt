//! Whether something was refused.

ghost use Rattle.std.specs.Prelude.{◌≡◌, ◌||◌};

/// Before, or now.
pub fn or_refused(before: bool, now: bool) -> bool
    ensures { result ≡ (before || now) }
{
    before || now
}
