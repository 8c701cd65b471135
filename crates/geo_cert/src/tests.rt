use crate::{CertStop, read};
use std::alloc::Global;

/// A proved claim in version 1 and in version 2, a false one, and lines that are none: in front of each, how many
/// elements its certificate has, or `bad` and the rule that it breaks.
const LINES: &str =
    r#"6 {"claim":["same",0,5],"degrees":[[0,3],[1,3],[2,1],[3,1],[4,1],[5,1]],"elements":[[0,"point","free"],[1,"point","free"],[2,"point","free"],[3,"line","cross",0,1],[4,"line","cross",0,2],[5,"point","cross",3,4]],"grid":[[0,[0,1,-1,2]],[1,[0,1,-1,2]],[2,[0,1]],[3,[0,1]],[4,[0,1]],[5,[0,1]]],"verdict":"proved","version":1}
6 {"claim":["same",0,5],"degrees":[[0,1,3],[2,3,1],[4,5,1]],"elements":[[0,"point","free"],[1,"point","free"],[2,"point","free"],[3,"line","cross",0,1],[4,"line","cross",0,2],[5,"point","cross",3,4]],"grid":[[0,1,[0,1,-1,2],[0,1,-1,2]],[2,3,[0,1],[0,1]],[4,5,[0,1],[0,1]]],"verdict":"proved","version":2}
3 {"claim":["triple",0,1,2],"elements":[[0,"point","free"],[1,"point","free"],[2,"point","free"]],"values":[[0,0],[1,0],[2,0],[3,1],[4,1],[5,0]],"verdict":"false","version":2}
bad 1 {
bad 1 {} x
bad 2 {}
bad 2 null
"#;

/// How many elements the certificate of a line has, or why the line is none.
fn elements_in(alloc: Global, line: &[u8]) -> Result<usize, CertStop> {
    let certificate = read(alloc, line)?;
    Ok(certificate.elements.len())
}

/// What stands in front of a line, and the line.
fn expected(line: &str) -> (Result<usize, CertStop>, &str) {
    if let Some(broken) = line.strip_prefix("bad ") {
        let (rule, rest) = broken.split_once(' ').unwrap_or(("", ""));
        (Err(CertStop::Bad(rule.parse().unwrap_or(0))), rest)
    } else {
        let (count, rest) = line.split_once(' ').unwrap_or(("", ""));
        (Ok(count.parse().unwrap_or(0)), rest)
    }
}

#[test]
fn lines_that_are_certificates_or_not(rt: HostRuntime) {
    for line in LINES.split_terminator('\n') {
        let (answer, line) = expected(line);
        assert_eq!(rt; elements_in(rt.alloc(), line.as_bytes()), answer);
    }
    assert_eq!(rt; elements_in(rt.alloc(), b"\"\xff\""), Err(CertStop::Bad(1)));
}
