//! The worked rows: scripts and certificates, and what the program writes for them.

use super::figures::figure;
use super::tables::{assert_run, assert_runs, bytes_of, run_over};
use std::alloc::{AllocError, Global};
use std::process::Abort;
use std::thread::Threads;

const ROWS: &str = "\
@ no line
@ a line through two fixed points
fixpoint A 0 0 1
fixpoint B 4 2 1
join l A B
screen > A point 0 0 1 | B point 4 2 1 | l line -1 2 0
@ a point on it
fixpoint A 0 0 1
fixpoint B 4 2 1
join l A B
on P l 2
screen > A point 0 0 1 | B point 4 2 1 | l line -1 2 0 | P point 2 1 1
@ a line of a point with itself
point A 0 0
join l A A
screen > A point 0 0 1 | l line null
ledger > proved null l
@ three free points
point A 0 0
point B 1 0
point C 0 1
claim collinear A B C
ledger > false collinear A B C at A.x=0 A.y=0 B.x=0 B.y=1 C.x=1 C.y=0
claim collinear C B A > refused 6 repeat
@ a meet of two joins through a point
& bend
ledger > proved same A X
@ a point on a join
point A 0 0
point B 4 2
join l A B
on P l 3
conjectures > collinear A B P
ledger > proved collinear A B P
@ Desargues' figure with a fixed centre
& desargues
screen > O point 0 0 1 | A point 1 0 1 | B point 0 1 1 | C point -1 -1 1 | D point 1 0 2 | E point 0 2 3 | F point -3 -3 4 | ab line -1 -1 1 | de line -4 -3 2 | X point -1 2 1 | bc line 2 -1 1 | ef line 17 -9 6 | Y point -3 -5 1 | ca line -1 2 1 | fd line -6 10 3 | Z point -4 -3 2
ledger > & desargues proved
@ Pappus' figure with four free points
point A 0 1
point B 2 1
& pappus from C on
ledger ~ proved collinear X Y Z
@ Pappus' figure with two fixed points
fixpoint A 0 1 1
fixpoint B 2 1 1
& pappus from C on
ledger ~ proved collinear X Y Z
@ a small grid with large numbers
fixpoint A 800 800 -800
fixpoint B 800 -800 800
along P A B 1
fixpoint Q 1 1 1
fixpoint R -1 1 1
fixpoint S 1 1 -1
fixline g 1 1 1
join a P Q
join b P R
join c P S
meet U a g
join n U S
meet X a n
meet Y b n
meet Z c n
join u P X
join v P Y
join w P Z
claim concurrent u v w
ledger ~ unsettled height concurrent u v w
@ an element that is tall
fixpoint A 1000 1000 1000
fixpoint B 1000 -1000 1000
fixpoint C -1000 1000 1000
fixpoint D 1000 1000 -1000
join l A B
join m C D
meet X l m > refused 7 tall
screen > A point 1 1 1 | B point 1 -1 1 | C point -1 1 1 | D point -1 -1 1 | l line -1 0 1 | m line 1 0 1
@ Desargues' figure dragged
& desargues
ledger > & desargues proved
drag A 1000 1000
drag B 1000 -1000
screen > O point 0 0 1 | A point 1000 1000 1 | B point 1000 -1000 1 | C point -1 -1 1 | D point 500 500 1 | E point 2000 -2000 3 | F point -3 -3 4 | ab line -1 0 1000 | de line -7 -1 4000 | X point 1000 -3000 1 | bc line 999 1001 2000 | ef line 7991 8009 12000 | Y point -2003 1997 1 | ca line -1 1 0 | fd line -1 1 0 | Z point null
ledger > & desargues proved
@ a drag taken back
point A 1 2
drag A 3 4
undo
screen > A point 1 2 1
redo
redo > refused 6 nothing
@ the dual of a meet
& bend
dual
screen > A line 0 0 1 | B line 1 0 1 | C line 0 1 1 | l point 0 1 0 | m point 1 0 0 | X line 0 0 1
ledger > proved same A X
dual
screen > & bend shown
@ certificates of a claim that holds, and of one that fails
& bend
certify same A X > {\"claim\":[\"same\",0,5],\"degrees\":[[0,1,3],[2,3,1],[4,5,1]],\"elements\":[[0,\"point\",\"free\"],[1,\"point\",\"free\"],[2,\"point\",\"free\"],[3,\"line\",\"cross\",0,1],[4,\"line\",\"cross\",0,2],[5,\"point\",\"cross\",3,4]],\"grid\":[[0,1,[0,1,-1,2],[0,1,-1,2]],[2,3,[0,1],[0,1]],[4,5,[0,1],[0,1]]],\"verdict\":\"proved\",\"version\":2}
certify collinear A B C > {\"claim\":[\"triple\",0,1,2],\"elements\":[[0,\"point\",\"free\"],[1,\"point\",\"free\"],[2,\"point\",\"free\"]],\"values\":[[0,0],[1,0],[2,0],[3,1],[4,1],[5,0]],\"verdict\":\"false\",\"version\":2}
@ a view that is closed
show 1 > & nothing drawn
close 1
show 1 > refused 3 view
@ each cause of a refusal
point A 1 2
point A 3 > refused 2 arity
points A 1 2 > refused 3 command
point 9A 1 x > refused 4 name
point B 1 1001 > refused 5 number
point A 1 2 > refused 6 taken
join A A Z > refused 7 taken
join l A Z > refused 8 unknown
meet l A A > refused 9 kind
fixpoint F 0 0 0 > refused 10 zero
drag A 5 > refused 11 fixed
claim same A A > refused 12 repeat
undo
undo > refused 14 nothing
show 7 > refused 15 view
drop A > refused 16 unknown
@ a false claim on twelve points
point A 0 0
point B 0 0
point C 0 0
point D 0 0
point E 0 0
point F 0 0
point G 0 0
point H 0 0
point I 0 0
point J 0 0
point K 0 0
point L 0 0
join ab A B
join cd C D
meet X ab cd
join ef E F
join gh G H
meet Y ef gh
join ij I J
join kl K L
meet Z ij kl
claim collinear X Y Z
ledger ~ false collinear X Y Z at A.x=0 A.y=0 B.x=0 B.y=1 C.x=0 C.y=0 D.x=1 D.y=0 E.x=0 E.y=0 F.x=0 F.y=1 G.x=0 G.y=1 H.x=1 H.y=0 I.x=0 I.y=0 J.x=1 J.y=0 K.x=0 K.y=1 L.x=1 L.y=0
@ two points and their join, drawn
point A 1 0
point B 0 1
join ab A B
svg > & two points drawn
show 2 > & their lines drawn
show 1 > & two points drawn
show 0 > A point 1 0 1 | B point 0 1 1 | ab line -1 -1 1
screen > A point 1 0 1 | B point 0 1 1 | ab line -1 -1 1
@ conjectures of a meet that was taken back
& bend
undo
conjectures >
redo
conjectures > same A X
drop A > refused 11 used
drop X
conjectures >
@ a false claim without axes
fixpoint A 0 0 1
fixpoint B 1 0 1
fixpoint C 0 1 1
claim collinear A B C
ledger ~ false collinear A B C
";

#[test]
fn answers_the_rows(rt: HostRuntime) -> Result<(), AllocError> {
    assert_runs(&rt, rt.alloc(), "run", ROWS)
}

/// The point that fails is number 1,467 of 10,800, and lies in the second of 11 chunks.
const SHARED: &str = "\
@ a false claim of Desargues' figure
& desargues
claim collinear X Y A
ledger > & desargues proved | false collinear A X Y at A.x=0 A.y=1 B.x=1 B.y=0 C.x=0 C.y=-1 D.t=0 E.t=1 F.t=1
";

#[test]
fn answers_alike_by_many_workers(rt: HostRuntime) -> Result<(), AllocError> {
    for words in [
        "run",
        "run,--workers,1",
        "run,--workers,2",
        "run,--workers,16",
    ] {
        assert_runs(&rt, rt.alloc(), words, SHARED)?;
    }
    Ok(())
}

/// A line without its end, one that is too long, one with a carriage return, and one that is not
/// ascii.
#[test]
fn answers_single_lines(rt: HostRuntime) -> Result<(), AllocError> {
    let long = "a".repeat(rt.alloc(), 201)?;
    for (line, written) in [
        ("point A 1 2", "ok\n"),
        (long.as_str(), "refused 1 long\n"),
        ("point A 1 2\r\n", "ok\n"),
        ("point A 1 \u{e9}\n", "refused 1 ascii\n"),
    ] {
        let input = bytes_of(rt.alloc(), line)?;
        assert_run(&rt, rt.alloc(), "run", line, input, written)?;
    }
    Ok(())
}

/// Adds so many elements, and one more, which is refused. `front` and `end` stand before and behind
/// the number of an element.
fn assert_full<R: Threads + Sync + Abort>(
    rt: &R,
    alloc: Global,
    front: &str,
    end: &str,
    room: u8,
) -> Result<(), AllocError> {
    let mut script = String::new(alloc);
    for number in 0..room {
        let line = format!(in alloc; "{front}{number}{end}\n")?;
        script.push_str(&line)?;
    }
    let last = format!(in alloc; "{front}more{end}\n")?;
    script.push_str(&last)?;
    let mut written = "ok\n".repeat(alloc, usize::from(room))?;
    let refusal = format!(in alloc; "refused {} full\n", u32::from(room) + 1)?;
    written.push_str(&refusal)?;
    assert_run(rt, alloc, "run", front, script.into_bytes(), &written)
}

/// 64 elements and 24 parameters are there at most.
#[test]
fn fills_a_sketch(rt: HostRuntime) -> Result<(), AllocError> {
    assert_full(&rt, rt.alloc(), "fixpoint F", " 1 0 1", 64)?;
    assert_full(&rt, rt.alloc(), "point P", " 0 0", 12)
}

const PROVED_1: &str =
    r#"{"claim":["same",0,5],"degrees":[[0,3],[1,3],[2,1],[3,1],[4,1],[5,1]],"elements":[[0,"point","free"],[1,"point","free"],[2,"point","free"],[3,"line","cross",0,1],[4,"line","cross",0,2],[5,"point","cross",3,4]],"grid":[[0,[0,1,-1,2]],[1,[0,1,-1,2]],[2,[0,1]],[3,[0,1]],[4,[0,1]],[5,[0,1]]],"verdict":"proved","version":1}"#;

const PROVED_2: &str =
    r#"{"claim":["same",0,5],"degrees":[[0,1,3],[2,3,1],[4,5,1]],"elements":[[0,"point","free"],[1,"point","free"],[2,"point","free"],[3,"line","cross",0,1],[4,"line","cross",0,2],[5,"point","cross",3,4]],"grid":[[0,1,[0,1,-1,2],[0,1,-1,2]],[2,3,[0,1],[0,1]],[4,5,[0,1],[0,1]]],"verdict":"proved","version":2}"#;

/// A line of each table: the answer, and what is put in the place of what stands there first.
const ALTERED_1: &str = "\
valid proved|
invalid 4|[0,3]=>[0,2]
invalid 5|[0,1,-1,2]=>[0,1,-1,1]
invalid 5|[0,1,-1,2]=>[0,1,-1]
invalid 8|\"same\",0,5=>\"same\",0,1
";

const ALTERED_2: &str = "\
valid proved|
invalid 4|[0,1,3]=>[0,1,2]
invalid 5|[0,1,-1,2]=>[0,1,-1,1]
invalid 5|[0,1,-1,2]=>[0,1,-1]
invalid 8|\"same\",0,5=>\"same\",0,1
";

/// A text with another one in the place of a part of it; an edit is `OLD=>NEW`.
fn altered(alloc: Global, text: &str, edit: &str) -> Result<String, AllocError> {
    if let Some((old, new)) = edit.split_once("=>") {
        if let Some((front, end)) = text.split_once(old) {
            return format!(in alloc; "{front}{new}{end}");
        }
    }
    String::from_str(alloc, text)
}

/// Has certificates checked that are altered in one place.
fn assert_answers<R: Threads + Sync + Abort>(
    rt: &R,
    alloc: Global,
    certificate: &str,
    table: &str,
) -> Result<(), AllocError> {
    for line in table.lines() {
        let (answer, edit) = line.split_once('|').unwrap_or((line, ""));
        let input = altered(alloc, certificate, edit)?.into_bytes();
        let written = format!(in alloc; "{answer}\n")?;
        assert_run(rt, alloc, "check", edit, input, &written)?;
    }
    Ok(())
}

const FALSE_1: &str =
    r#"{"claim":["triple",0,1,2],"elements":[[0,"point","free"],[1,"point","free"],[2,"point","free"]],"values":[[0,0],[1,0],[2,0],[3,1],[4,1],[5,0]],"verdict":"false","version":1}"#;

#[test]
fn checks_certificates(rt: HostRuntime) -> Result<(), AllocError> {
    assert_answers(&rt, rt.alloc(), PROVED_1, ALTERED_1)?;
    assert_answers(&rt, rt.alloc(), PROVED_2, ALTERED_2)?;
    assert_answers(&rt, rt.alloc(), FALSE_1, "valid false\n")?;
    assert_answers(&rt, rt.alloc(), "{", "invalid 1\n")?;
    assert_answers(&rt, rt.alloc(), "{}", "invalid 2\n")
}

/// Asks for a certificate, and has it checked.
fn assert_certified<R: Threads + Sync + Abort>(
    rt: &R,
    alloc: Global,
    script: &str,
    answer: &str,
) -> Result<(), AllocError> {
    let (_, sink) = run_over(rt, alloc, "run", bytes_of(alloc, script)?)?;
    let mut certificate = Vec::new(alloc);
    for line in sink.held().split(|byte: &u8| -> bool { *byte == b'\n' }) {
        if line.starts_with(b"{") {
            certificate.extend_from_slice(line)?;
        }
    }
    assert_run(rt, alloc, "check", script, certificate, answer)
}

#[test]
fn certifies_what_is_checked(rt: HostRuntime) -> Result<(), AllocError> {
    let alloc = rt.alloc();
    let bend = figure("bend");
    let same = format!(in alloc; "{bend}certify same A X\n")?;
    assert_certified(&rt, alloc, &same, "valid proved\n")?;
    let collinear = format!(in alloc; "{bend}certify collinear A B C\n")?;
    assert_certified(&rt, alloc, &collinear, "valid false\n")?;
    let rest = figure("pappus from C on");
    let pappus = format!(in alloc; "point A 0 1\npoint B 2 1\n{rest}certify collinear X Y Z\n")?;
    assert_certified(&rt, alloc, &pappus, "valid proved\n")
}
