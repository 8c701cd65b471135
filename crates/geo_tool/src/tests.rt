use crate::{Expanded, Expander};
use std::alloc::Global;
use std::test::Fail;

/// What is shown, a script, and its expansion.
const CASES: [(&str, &str, &str); 18] = [
    (
        "a tool used, and used with too few words",
        "tool mid 2\njoin $ab $1 $2\non $p $ab 0\nend\npoint A 1 0\npoint B 3 2\nuse mid m A B\nscreen\nuse mid m A",
        "point A 1 0\npoint B 3 2\njoin mab A B\non mp mab 0\nscreen\nuse mid m A\n",
    ),
    (
        "too many words",
        "tool t 1\ndrop $1\nend\nuse t r A B\nuse t r A",
        "use t r A B\ndrop A\n",
    ),
    (
        "a name twice",
        "tool t 0\ndual\nend\ntool t 0\nundo\nend\nuse t r",
        "tool t 0\nundo\nend\ndual\n",
    ),
    (
        "a tool used before it is defined",
        "use t r\ntool t 0\ndual\nend\nuse t r",
        "use t r\ndual\n",
    ),
    ("no end", "dual\ntool t 0\nundo\nredo", "dual\n"),
    (
        "end alone",
        "end\n end \nend here",
        "end\n end \nend here\n",
    ),
    (
        "an end with more words stands in the body",
        "tool t 0\nend here\n\tend \nuse t r",
        "end here\n",
    ),
    (
        "malformed lines",
        "tool t 9\ntool t 10\ntool t x\ntool t\ntool 1t 0\ntool t 0 0\nTool t 0\ntool\nuse\nuse t\nuse t r",
        "tool t 9\ntool t 10\ntool t x\ntool t\ntool 1t 0\ntool t 0 0\nTool t 0\ntool\nuse\nuse t\nuse t r\n",
    ),
    (
        "what is put before is no name",
        "tool t 0\ndual\nend\nuse t 1r\nuse t r\nuse t abcdefghi",
        "use t 1r\ndual\nuse t abcdefghi\n",
    ),
    (
        "words that stay",
        "tool t 2\n$0 $3 $9 $12 x$1 [$1,$2,$p] $a-b $ $$1 $p\nend\nuse t r A B",
        "$0 $3 $9 $12 x$1 [$1,$2,$p] $a-b $ $$1 rp\n",
    ),
    (
        "eight words",
        "tool t 8\n$8 $7 $1 $9\nend\nuse t r A B C D E F G H",
        "H G A $9\n",
    ),
    (
        "no name by its length once put together",
        "tool t 0\n$abcdefghijk1\nend\nuse t longname",
        "longnameabcdefghijk1\n",
    ),
    (
        "further words of any shape, not replaced again",
        "tool t 2\n$1 $2\nend\nuse t r $2 -7",
        "$2 -7\n",
    ),
    (
        "blanks, comments and empty lines of a body",
        "\ttool  t\t1 \n  point \t $p  1\t$1 \n\n# $1  $p\nend\n use\tt  r 5 ",
        "point rp 1 5\n\n# 5 rp\n",
    ),
    (
        "a tool in a tool's body",
        "tool t 0\ntool u 0\nuse t r\nend\nuse u r\nuse t r",
        "use u r\ntool u 0\nuse t r\n",
    ),
    (
        "what a use gives is not expanded",
        "tool t 0\ndual\nend\ntool u 0\nuse t r\nend\nuse u r",
        "use t r\n",
    ),
    (
        "a line of a body that is not ASCII",
        "tool t 1\n é  $1 \ndrop  $1\nend\nuse t r A\nuse t r é",
        " é  $1 \ndrop A\nuse t r é\n",
    ),
    (
        "lines without tools",
        "\n  point  A 1 2 \n# tool t 0\n$1 é",
        "\n  point  A 1 2 \n# tool t 0\n$1 é\n",
    ),
];

/// The expansion of a script, each line with a line feed.
fn expansion(alloc: Global, script: &str) -> Result<Vec<u8>, Fail> {
    let mut expander = Expander::new(alloc);
    let mut out = Expanded::new(alloc);
    for line in script.lines() {
        expander.feed(line.as_bytes(), &mut out)?;
    }
    let mut text = Vec::new(alloc);
    for k in 0..out.len() {
        text.extend_from_slice(out.get(k).ok_or("a line")?)?;
        text.push(b'\n')?;
    }
    Ok(text)
}

#[test]
fn scripts_expand_as_they_should(rt: HostRuntime) -> Result<(), Fail> {
    for (shown, script, expected) in CASES {
        let text = expansion(rt.alloc(), script)?;
        assert_eq!(rt; text.as_slice(), expected.as_bytes(), "{shown}");
    }
    Ok(())
}

/// The 32nd line of a body closes it.
#[test]
fn a_body_has_at_most_32_lines(rt: HostRuntime) -> Result<(), Fail> {
    for (count, outside, at_end, used) in [(31, 0, 0, 31), (32, 0, 1, 32), (33, 1, 1, 32)] {
        let mut expander = Expander::new(rt.alloc());
        let mut out = Expanded::new(rt.alloc());
        expander.feed(b"tool t 0", &mut out)?;
        for _ in 0..count {
            expander.feed(b"dual", &mut out)?;
        }
        assert_eq!(rt; out.len(), outside, "after {count} lines");
        out.clear();
        expander.feed(b"end", &mut out)?;
        assert_eq!(rt; out.len(), at_end, "at the end of {count} lines");
        out.clear();
        expander.feed(b"use t r", &mut out)?;
        assert_eq!(rt; out.len(), used, "used with {count} lines");
    }
    Ok(())
}

#[test]
fn a_script_has_at_most_40_tools(rt: HostRuntime) -> Result<(), Fail> {
    let mut expander = Expander::new(rt.alloc());
    let mut out = Expanded::new(rt.alloc());
    for k in 0..41u8 {
        let (first, second) = (b'a' + k / 10, b'0' + k % 10);
        expander.feed(
            &[b't', b'o', b'o', b'l', b' ', first, second, b' ', b'0'],
            &mut out,
        )?;
        expander.feed(b"end", &mut out)?;
    }
    assert_eq!(rt; out.len(), 2);
    expander.feed(b"use d9 r", &mut out)?;
    assert_eq!(rt; out.len(), 2);
    expander.feed(b"use e0 r", &mut out)?;
    assert_eq!(rt; out.len(), 3);
    Ok(())
}

/// A line may be longer than a script's once its words are replaced. A line that is too long by
/// itself stays, and closes no body.
#[test]
fn long_lines_are_given(rt: HostRuntime) -> Result<(), Fail> {
    let mut expander = Expander::new(rt.alloc());
    let mut out = Expanded::new(rt.alloc());
    let mut body = Vec::new(rt.alloc());
    for _ in 0..66 {
        body.extend_from_slice(b"$1 ")?;
    }
    let mut end = b"end".to_vec(rt.alloc())?;
    for _ in 0..198 {
        end.push(b' ')?;
    }
    expander.feed(b"tool t 1", &mut out)?;
    expander.feed(&body, &mut out)?;
    expander.feed(&end, &mut out)?;
    expander.feed(b"end", &mut out)?;
    expander.feed(b"use t r ABCDEFGH", &mut out)?;
    assert_eq!(rt; out.len(), 2);
    assert_eq!(rt; out.get(0).ok_or("a line")?.len(), 66 * 9 - 1);
    assert_eq!(rt; out.get(1), Some(end.as_slice()));
    Ok(())
}
