//! How long a certificate may be.

/// Bytes of the line of a certificate, at most.
pub const CERTIFICATE_LIMIT: usize = 65_536;
