//! Reading a certificate.

ghost use Rattle.geo_cert.specs.Lines.{IsAnswer, Reads};
ghost use Rattle.serde_json.specs.View.{view};

use crate::certificates::{CertStop, Certificate};
use crate::limits::CERTIFICATE_LIMIT;
use crate::members::certificate_of;
use geo_sketch::NoMemory;
use serde_json::Value;
use std::alloc::Global;

/// Reads a line, in version 1 or 2: Bad(1) where it is too long or no JSON, and otherwise
/// Bad(2) where the value is no certificate.
pub fn read(alloc: Global, line: &[u8]) -> Result<Certificate, CertStop>
    ensures { Reads line.now result }
{
    if line.len() > CERTIFICATE_LIMIT {
        return Err(CertStop::Bad(1));
    }
    match Value::from_slice(alloc, line) {
        Ok(value) => read_value(alloc, value),
        Err(error) if error.is_memory() => Err(CertStop::NoMemory),
        Err(_) => Err(CertStop::Bad(1)),
    }
}

/// The certificate that a value is, and Bad(2) where it is none.
fn read_value(alloc: Global, value: Value) -> Result<Certificate, CertStop>
    ensures { IsAnswer (view value) result }
{
    match certificate_of(alloc, value) {
        Ok(Some(certificate)) => Ok(certificate),
        Ok(None) => Err(CertStop::Bad(2)),
        Err(NoMemory) => Err(CertStop::NoMemory),
    }
}
