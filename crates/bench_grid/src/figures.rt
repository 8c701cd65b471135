//! The figures. Each has a statement, that three of its points are collinear.

ghost use Rattle.geo_sketch.specs.Additions.{IsSmallSpec};

use anyhow::{Context, Result, bail};
use geo_sketch::{Kind, Name, Sketch, Spec};
use std::alloc::Global;

pub(crate) fn named(text: &str) -> Result<Name> {
    Name::new(text.as_bytes()).context("a name")
}

fn add(sketch: &mut Sketch, text: &str, kind: Kind, spec: &Spec) -> Result<()>
    requires { IsSmallSpec spec.now }
{
    sketch
        .add(named(text)?, kind, spec)
        .ok()
        .context("an element")?;
    Ok(())
}

/// Points on the joins of two points each.
fn along(sketch: &mut Sketch, rows: &[(&str, &str, &str)]) -> Result<()> {
    for (text, k, m) in rows {
        let spec = Spec::Blend(named(k)?, named(m)?, 1);
        add(sketch, text, Kind::Point, &spec)?;
    }
    Ok(())
}

/// For each row the joins of two pairs of points, and their meet.
fn meets(sketch: &mut Sketch, rows: &[[&str; 7]]) -> Result<()> {
    for [text, first, a, b, second, c, d] in rows {
        let join = Spec::Cross(named(a)?, named(b)?);
        add(sketch, first, Kind::Line, &join)?;
        let join = Spec::Cross(named(c)?, named(d)?);
        add(sketch, second, Kind::Line, &join)?;
        let meet = Spec::Cross(named(first)?, named(second)?);
        add(sketch, text, Kind::Point, &meet)?;
    }
    Ok(())
}

/// Free points.
fn points(sketch: &mut Sketch, names: &[&str]) -> Result<()> {
    for text in names {
        add(sketch, text, Kind::Point, &Spec::Free(0, 0))?;
    }
    Ok(())
}

/// Desargues' figure with a fixed centre.
fn desargues(alloc: Global, centre: &Spec) -> Result<Sketch>
    requires { IsSmallSpec centre.now }
{
    let mut sketch = Sketch::new(alloc);
    add(&mut sketch, "O", Kind::Point, centre)?;
    points(&mut sketch, &["A", "B", "C"])?;
    along(
        &mut sketch,
        &[("D", "O", "A"), ("E", "O", "B"), ("F", "O", "C")],
    )?;
    meets(
        &mut sketch,
        &[
            ["X", "ab", "A", "B", "de", "D", "E"],
            ["Y", "bc", "B", "C", "ef", "E", "F"],
            ["Z", "ca", "C", "A", "fd", "F", "D"],
        ],
    )?;
    Ok(sketch)
}

/// Pappus' figure with four free points.
fn pappus(alloc: Global) -> Result<Sketch> {
    let mut sketch = Sketch::new(alloc);
    points(&mut sketch, &["A", "B"])?;
    along(&mut sketch, &[("C", "A", "B")])?;
    points(&mut sketch, &["D", "E"])?;
    along(&mut sketch, &[("F", "D", "E")])?;
    meets(
        &mut sketch,
        &[
            ["X", "ae", "A", "E", "bd", "B", "D"],
            ["Y", "af", "A", "F", "cd", "C", "D"],
            ["Z", "bf", "B", "F", "ce", "C", "E"],
        ],
    )?;
    Ok(sketch)
}

/// Forty elements with 24 parameters, of which X, Y and Z are three free points.
fn forty(alloc: Global) -> Result<Sketch> {
    let mut sketch = Sketch::new(alloc);
    let corners = ["X", "Y", "Z", "A", "B", "C", "D", "E"];
    points(&mut sketch, &corners)?;
    let middles = ["F", "G", "H", "I", "J", "K", "L", "M"];
    for (k, middle) in middles.iter().enumerate() {
        along(&mut sketch, &[(middle, corners[k], corners[(k + 1) % 8])])?;
    }
    for (k, names) in [
        ["a", "b", "c"],
        ["d", "e", "f"],
        ["g", "h", "i"],
        ["j", "k", "l"],
        ["m", "n", "o"],
        ["p", "q", "r"],
        ["s", "t", "u"],
        ["v", "w", "x"],
    ]
    .iter()
    .enumerate()
    {
        for (m, text) in names.iter().enumerate() {
            let join = Spec::Cross(named(corners[k])?, named(middles[(k + m + 2) % 8])?);
            add(&mut sketch, text, Kind::Line, &join)?;
        }
    }
    Ok(sketch)
}

/// The figure of this name.
pub(crate) fn figure_of(alloc: Global, name: &str) -> Result<Sketch> {
    match name {
        "S1" => desargues(alloc, &Spec::Fixed(0, 0, 1)),
        "S1-far" => desargues(alloc, &Spec::Fixed(1000, 1000, 1000)),
        "S2" => pappus(alloc),
        "forty" => forty(alloc),
        _ => bail!("no figure {name}"),
    }
}
