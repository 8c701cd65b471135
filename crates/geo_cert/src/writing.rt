//! Writing a certificate.

ghost use Rattle.std.specs.Prelude.{◌≡◌, ◌++◌, OnErr, OnOk};
ghost use Rattle.geo_cert.specs.Written.{line_of};

use crate::certificates::Certificate;
use crate::values::certificate_value;
use geo_sketch::NoMemory;
use std::alloc::{AllocError, Global};

/// Appends the one line of a certificate, without its end, in version 2.
pub fn write(alloc: Global, certificate: &Certificate, out: &mut Vec<u8>) -> Result<(), NoMemory>
    ensures written { OnOk result (out.new.items ≡ out.old.items ++ line_of certificate.now) }
    ensures unchanged { OnErr result (out.new.items ≡ out.old.items) }
{
    match append_line(alloc, certificate, out) {
        Ok(()) => Ok(()),
        Err(_) => Err(NoMemory),
    }
}

fn append_line(
    alloc: Global,
    certificate: &Certificate,
    out: &mut Vec<u8>,
) -> Result<(), AllocError>
    ensures written { OnOk result (out.new.items ≡ out.old.items ++ line_of certificate.now) }
    ensures unchanged { OnErr result (out.new.items ≡ out.old.items) }
{
    let value = certificate_value(alloc, certificate)?;
    let line = value.to_vec(alloc)?;
    out.extend_from_slice(&line)
}
