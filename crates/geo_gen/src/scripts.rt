//! The script of a seed.

ghost use Rattle.std.specs.Prelude.{◌≡◌, ◌++◌, ◌≤◌, OnOk, IfOk};
ghost use Rattle.geo_gen.specs.Scripts.{change as change_from, changes, coordinates_line, figure, point_drag, ratio_drag, ratio_line, script_of};

use crate::NoMemory;
use crate::draws::{generator, pick, pick_number};
use rand_pcg::Lcg64Xsh32;
use std::alloc::{AllocError, Global};

/// How many lines change the figure.
const CHANGE_COUNT: u32 = 1000;

/// Desargues with a fixed centre.
const FIGURE: &[u8] =
    b"fixpoint O 0 0 1\npoint A 1 0\npoint B 0 1\npoint C -1 -1\nalong D O A 1\nalong E O B 2\nalong F O C 3\njoin ab A B\njoin de D E\nmeet X ab de\njoin bc B C\njoin ef E F\nmeet Y bc ef\njoin ca C A\njoin fd F D\nmeet Z ca fd\nclaim collinear X Y Z\n";

/// The script of a seed, 1,019 lines that each end with a line feed: Desargues' figure, a
/// thousand drags, undos and redos drawn from the words of a PCG generator, `screen` and
/// `ledger`. Some of the lines may be refused.
pub fn script(alloc: Global, seed: u32) -> Result<Vec<u8>, NoMemory>
    ensures { IfOk result (λ bytes. bytes.items ≡ script_of seed) }
{
    let mut out = Vec::new(alloc);
    match write_script(alloc, seed, &mut out) {
        Ok(()) => Ok(out),
        Err(AllocError) => Err(NoMemory),
    }
}

fn write_script(alloc: Global, seed: u32, out: &mut Vec<u8>) -> Result<(), AllocError>
    ensures { OnOk result (out.new.items ≡ out.old.items ++ script_of seed) }
{
    let mut words = generator(seed);
    write_figure(out)?;
    write_changes(alloc, &mut words, out)?;
    out.extend_from_slice(b"screen\nledger\n")
}

#[tactic(auto, unfolding(crate::specs::Scripts::figure))]
fn write_figure(out: &mut Vec<u8>) -> Result<(), AllocError>
    ensures { OnOk result (out.new.items ≡ out.old.items ++ figure) }
{
    out.extend_from_slice(FIGURE)
}

fn write_changes(alloc: Global, words: &mut Lcg64Xsh32, out: &mut Vec<u8>) -> Result<(), AllocError>
    ensures { OnOk result (out.new.items ≡ out.old.items ++ changes 1000 words.old) }
{
    for _ in 0..CHANGE_COUNT {
        write_change(alloc, words, out)?;
    }
    Ok(())
}

/// Appends one line: five parts in eight drag a point, one a ratio, one undoes and one does
/// again.
fn write_change(alloc: Global, words: &mut Lcg64Xsh32, out: &mut Vec<u8>) -> Result<(), AllocError>
    ensures text { OnOk result (out.new.items ≡ out.old.items ++ (change_from words.old).text) }
    ensures rest { OnOk result (words.new ≡ (change_from words.old).rest) }
{
    let drawn = pick(words, 8);
    if drawn < 5 {
        write_point_drag(alloc, words, out)
    } else if drawn == 5 {
        write_ratio_drag(alloc, words, out)
    } else if drawn == 6 {
        out.extend_from_slice(b"undo\n")
    } else {
        out.extend_from_slice(b"redo\n")
    }
}

/// Appends a drag of A, B or C.
#[tactic(auto, unfolding(crate::specs::Scripts::point_drag))]
fn write_point_drag(
    alloc: Global,
    words: &mut Lcg64Xsh32,
    out: &mut Vec<u8>,
) -> Result<(), AllocError>
    ensures text { OnOk result (out.new.items ≡ out.old.items ++ (point_drag words.old).text) }
    ensures rest { OnOk result (words.new ≡ (point_drag words.old).rest) }
{
    let name = b'A' + pick(words, 3) as u8;
    let x = pick_number(words);
    let y = pick_number(words);
    write_coordinates(alloc, name, x, y, out)
}

#[tactic(auto, unfolding(crate::specs::Scripts::coordinates_line))]
fn write_coordinates(
    alloc: Global,
    name: u8,
    x: i64,
    y: i64,
    out: &mut Vec<u8>,
) -> Result<(), AllocError>
    ensures { OnOk result (out.new.items ≡ out.old.items ++ coordinates_line name x y) }
{
    let text = format!(in alloc; " {x} {y}\n")?;
    out.extend_from_slice(b"drag ")?;
    out.extend_from_slice(&[name])?;
    out.extend_from_slice(text.as_bytes())
}

/// Appends a drag of the ratio of D, E or F.
#[tactic(auto, unfolding(crate::specs::Scripts::ratio_drag))]
fn write_ratio_drag(
    alloc: Global,
    words: &mut Lcg64Xsh32,
    out: &mut Vec<u8>,
) -> Result<(), AllocError>
    ensures text { OnOk result (out.new.items ≡ out.old.items ++ (ratio_drag words.old).text) }
    ensures rest { OnOk result (words.new ≡ (ratio_drag words.old).rest) }
{
    let name = b'D' + pick(words, 3) as u8;
    let t = pick_number(words);
    write_ratio(alloc, name, t, out)
}

#[tactic(auto, unfolding(crate::specs::Scripts::ratio_line))]
fn write_ratio(alloc: Global, name: u8, t: i64, out: &mut Vec<u8>) -> Result<(), AllocError>
    ensures { OnOk result (out.new.items ≡ out.old.items ++ ratio_line name t) }
{
    let text = format!(in alloc; " {t}\n")?;
    out.extend_from_slice(b"drag ")?;
    out.extend_from_slice(&[name])?;
    out.extend_from_slice(text.as_bytes())
}
