//! Writing all of some bytes.
ghost use Rattle.std.specs.Prelude.{◌<◌, ◌≤◌, OnOk, OnErr, IsErrOf};
ghost use Rattle.std.specs.Io.KnownBytes.{Appends};
ghost use Rattle.geo_io.specs.Faults.{Rose};
ghost use Rattle.geo_io.specs.Pieces.{AppendsFront};

use super::ends::SinkEnd;
use super::streams::Sink;

/// Writes all bytes. At an `Err` the sink took a front part of them.
pub fn write_all<K: Sink>(sink: &mut K, bytes: &[u8]) -> Result<(), SinkEnd>
    ensures all { OnOk result (Appends (K.held sink.old) (K.held sink.new) bytes.now) }
    ensures front { OnErr result (AppendsFront (K.held sink.old) (K.held sink.new) bytes.now) }
    ensures counts { K.fault_count sink.old ≤ K.fault_count sink.new }
    ensures failed { IsErrOf result SinkEnd.Failed
        → Rose (K.fault_count sink.old) (K.fault_count sink.new) }
{
    let mut rest = bytes;
    while !rest.is_empty() {
        let count = sink.write(rest)?;
        rest = &rest[count..];
    }
    Ok(())
}
