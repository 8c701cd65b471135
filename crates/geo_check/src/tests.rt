use crate::{Checked, check};
use geo_cert::{CertStop, read};
use std::alloc::Global;

/// A join and another one meet where both begin: in single lists, in triangles, and where the
/// claim is another one.
const FIRST: &[u8] =
    b"{\"claim\":[\"same\",0,5],\"degrees\":[[0,3],[1,3],[2,1],[3,1],[4,1],[5,1]],\"elements\":[[0,\"point\",\"free\"],[1,\"point\",\"free\"],[2,\"point\",\"free\"],[3,\"line\",\"cross\",0,1],[4,\"line\",\"cross\",0,2],[5,\"point\",\"cross\",3,4]],\"grid\":[[0,[0,1,-1,2]],[1,[0,1,-1,2]],[2,[0,1]],[3,[0,1]],[4,[0,1]],[5,[0,1]]],\"verdict\":\"proved\",\"version\":1}";

const SECOND: &[u8] =
    b"{\"claim\":[\"same\",0,5],\"degrees\":[[0,1,3],[2,3,1],[4,5,1]],\"elements\":[[0,\"point\",\"free\"],[1,\"point\",\"free\"],[2,\"point\",\"free\"],[3,\"line\",\"cross\",0,1],[4,\"line\",\"cross\",0,2],[5,\"point\",\"cross\",3,4]],\"grid\":[[0,1,[0,1,-1,2],[0,1,-1,2]],[2,3,[0,1],[0,1]],[4,5,[0,1],[0,1]]],\"verdict\":\"proved\",\"version\":2}";

const THIRD: &[u8] =
    b"{\"claim\":[\"same\",0,1],\"degrees\":[[0,1,1],[2,3,1]],\"elements\":[[0,\"point\",\"free\"],[1,\"point\",\"free\"]],\"grid\":[[0,1,[0,1],[0,1]],[2,3,[0,1],[0,1]]],\"verdict\":\"proved\",\"version\":2}";

/// Three points are not collinear at some values, and are at others.
const FOURTH: &[u8] =
    b"{\"claim\":[\"triple\",0,1,2],\"elements\":[[0,\"point\",\"free\"],[1,\"point\",\"free\"],[2,\"point\",\"free\"]],\"values\":[[0,0],[1,0],[2,0],[3,1],[4,1],[5,0]],\"verdict\":\"false\",\"version\":2}";

const FIFTH: &[u8] =
    b"{\"claim\":[\"triple\",0,1,2],\"elements\":[[0,\"point\",\"free\"],[1,\"point\",\"free\"],[2,\"point\",\"free\"]],\"values\":[[0,0],[1,0],[2,0],[3,0],[4,1],[5,0]],\"verdict\":\"false\",\"version\":2}";

fn checked(alloc: Global, line: &[u8]) -> Result<Checked, CertStop> {
    let certificate = read(alloc, line)?;
    check(alloc, &certificate)
}

#[test]
fn certificates(rt: HostRuntime) {
    let lines: [(&[u8], Result<Checked, CertStop>); 5] = [
        (FIRST, Ok(Checked::Proved)),
        (SECOND, Ok(Checked::Proved)),
        (THIRD, Err(CertStop::Bad(8))),
        (FOURTH, Ok(Checked::False)),
        (FIFTH, Err(CertStop::Bad(8))),
    ];
    for (line, expected) in lines {
        assert_eq!(rt; checked(rt.alloc(), line), expected);
    }
}
