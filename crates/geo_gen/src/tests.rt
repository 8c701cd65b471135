use crate::{NoMemory, Tally, script, summary};
use sha2::{Digest, Sha256};
use std::alloc::{AllocError, Global};

fn hex_sum(alloc: Global, bytes: &[u8]) -> Result<String, AllocError> {
    let mut hex = String::new(alloc);
    for byte in Sha256::digest(bytes) {
        let digits = format!(in alloc; "{byte:02x}")?;
        hex.push_str(digits.as_str())?;
    }
    Ok(hex)
}

/// The scripts of three seeds, by their lengths and SHA-256 sums, which an independent
/// program found.
#[test]
fn scripts_of_three_seeds(rt: HostRuntime) -> Result<(), NoMemory> {
    for (seed, length, digest) in [
        (
            0,
            12_535,
            "11e723caa0c5deb70296740df386bda47f73ff7e3765a0305b0d817117ce3ef3",
        ),
        (
            7,
            12_899,
            "7f62d6ab1c72e014a3bb58a497abf43a8250b9dcc4b393aab8a3822c699b2d96",
        ),
        (
            4_294_967_295,
            12_783,
            "95a9e917f1d98d71e5e0a8007d2ece9ac35a2ade1389b6c0012ca348eb30ef55",
        ),
    ] {
        let bytes = script(rt.alloc(), seed)?;
        assert_eq!(rt; bytes.len(), length, "seed {seed}");
        match hex_sum(rt.alloc(), &bytes) {
            Ok(sum) => assert_eq!(rt; sum.as_str(), digest, "seed {seed}"),
            Err(AllocError) => return Err(NoMemory),
        }
    }
    Ok(())
}

/// A summary behind other bytes.
#[test]
fn a_summary(rt: HostRuntime) -> Result<(), NoMemory> {
    let tally = Tally {
        lines: 1019,
        ok: 1000,
        refused: 17,
        proved: 1,
        falsified: 0,
        unsettled: 2,
    };
    let mut out = Vec::new(rt.alloc());
    summary(rt.alloc(), 7, &tally, &mut out)?;
    summary(rt.alloc(), 0, &tally, &mut out)?;
    assert_eq!(rt;
        &out[..],
        b"gen 7 lines 1019 ok 1000 refused 17 proved 1 false 0 unsettled 2\ngen 0 lines 1019 ok 1000 refused 17 proved 1 false 0 unsettled 2\n".as_slice()
    );
    Ok(())
}
