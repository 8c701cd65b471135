//! A session, and how a line was taken.

ghost use Rattle.std.specs.Prelude.{◌≡◌, false};
ghost use Rattle.geo_session.specs.Together.{IsTogether};

use crate::desk::Desk;
use geo_sketch::Refusal;

/// How a line was taken.
#[derive(Clone, Copy, PartialEq, Eq, Debug)]
pub enum Reply {
    /// It is blank or a comment, and has no reply.
    Nothing,
    /// It was carried out.
    Accepted,
    /// It was refused and changed nothing.
    Refused(Refusal),
}

/// The state of one script.
#[derive(Drop)]
pub struct Session<W: Drop> {
    pub(crate) desk: Desk<W>,
    /// Memory was wanting.
    pub(crate) spent: bool,
    // Until then what the desk holds fits.
    ghost together: { spent ≡ false → IsTogether desk },
}
