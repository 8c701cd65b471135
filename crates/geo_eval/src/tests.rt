//! A construction that is dragged: three points on lines through a fixed centre, whose
//! sides meet in three points.

ghost use Rattle.std.specs.Prelude.{◌≡◌, ◌+◌, ◌<◌, IfOk};
ghost use Rattle.geo_sketch.specs.Additions.{IsSmallSpec};
ghost use Rattle.geo_eval.specs.Scenes.{IsSceneOf, dependents};

use crate::{Here, Scene};
use geo_sketch::{Delta, Kind, Name, Setting, Sketch, Spec};
use geo_triple::Steps;
use std::alloc::Global;
use std::marker::Brand;
use std::sync::ledger::{Blank, Ledger};
use std::test::Fail;

/// Where each element is.
const PLACES: [(&str, i128, i128, i128); 16] = [
    ("O", 0, 0, 1),
    ("A", 1, 0, 1),
    ("B", 0, 1, 1),
    ("C", -1, -1, 1),
    ("D", 1, 0, 2),
    ("E", 0, 2, 3),
    ("F", -3, -3, 4),
    ("ab", -1, -1, 1),
    ("de", -4, -3, 2),
    ("X", -1, 2, 1),
    ("bc", 2, -1, 1),
    ("ef", 17, -9, 6),
    ("Y", -3, -5, 1),
    ("ca", -1, 2, 1),
    ("fd", -6, 10, 3),
    ("Z", -4, -3, 2),
];

/// Joins of two points and meets of two lines, in the order of the construction.
const CROSSES: [(&str, Kind, &str, &str); 9] = [
    ("ab", Kind::Line, "A", "B"),
    ("de", Kind::Line, "D", "E"),
    ("X", Kind::Point, "ab", "de"),
    ("bc", Kind::Line, "B", "C"),
    ("ef", Kind::Line, "E", "F"),
    ("Y", Kind::Point, "bc", "ef"),
    ("ca", Kind::Line, "C", "A"),
    ("fd", Kind::Line, "F", "D"),
    ("Z", Kind::Point, "ca", "fd"),
];

fn named(text: &str) -> Result<Name, Fail> {
    Ok(Name::new(text.as_bytes()).ok_or("no name")?)
}

fn count_dependents(sketch: &Sketch, on: u32) -> usize
    ensures { result ≡ dependents sketch.now on }
{
    let mut count = 0;
    for element in sketch.elements() {
        count += usize::from(sketch.depends(element.number, on));
    }
    count
}

/// A sketch with its scene.
#[derive(Drop)]
struct Stage<L: Ledger> {
    sketch: Sketch,
    scene: Scene,
    steps: Steps<L>,
}

impl<L: Ledger> Stage<L> {
    fn add(&mut self, name: &str, kind: Kind, spec: &Spec) -> Result<(), Fail>
        requires small { IsSmallSpec spec.now }
        requires shown { IsSceneOf self.old.scene self.old.sketch }
        ensures { IfOk result (λ _. IsSceneOf self.new.scene self.new.sketch) }
    {
        let _drawn = self.sketch.elements().len();
        let delta = self.sketch.add(named(name)?, kind, spec)?;
        self.scene
            .apply(&self.sketch, &delta, true, &mut self.steps)?;
        Ok(())
    }

    /// Drags an element, and counts the evaluations.
    fn drag(&mut self, name: &str, to: Setting) -> Result<usize, Fail>
        requires { IsSceneOf self.old.scene self.old.sketch }
        ensures shown { IfOk result (λ _. IsSceneOf self.new.scene self.new.sketch) }
        ensures ticks { IfOk result (λ count. self.new.steps ≡ self.old.steps + count) }
    {
        let _drawn = self.sketch.elements().len();
        let delta = self.sketch.drag(named(name)?, to)?;
        self.scene
            .apply(&self.sketch, &delta, true, &mut self.steps)?;
        match &delta {
            Delta::Dragged(number, _, _) => Ok(count_dependents(&self.sketch, *number)),
            _ => Err("no drag")?,
        }
    }

    /// Drops an element and takes that back.
    fn drop_and_back(&mut self, name: &str) -> Result<(), Fail>
        requires { IsSceneOf self.old.scene self.old.sketch }
        ensures { IfOk result (λ _. IsSceneOf self.new.scene self.new.sketch) }
    {
        let _drawn = self.sketch.elements().len();
        let delta = self.sketch.drop_element(named(name)?)?;
        self.scene
            .apply(&self.sketch, &delta, true, &mut self.steps)?;
        self.sketch.revert(&delta)?;
        self.scene
            .apply(&self.sketch, &delta, false, &mut self.steps)?;
        Ok(())
    }

    fn here(&self, name: &str) -> Result<Here, Fail> {
        let number = self.sketch.find(named(name)?).ok_or("no such element")?;
        Ok(self.scene.get(number).ok_or("nothing here")?)
    }

    /// The coordinates of an element, where it has a place.
    fn at(&self, name: &str) -> Result<Option<(i128, i128, i128)>, Fail> {
        match self.here(name)? {
            Here::At(t) => Ok(Some((t.a, t.b, t.c))),
            Here::NullHere | Here::Far => Ok(None),
        }
    }

    fn is_far(&self, name: &str) -> Result<bool, Fail> {
        match self.here(name)? {
            Here::Far => Ok(true),
            Here::At(_) | Here::NullHere => Ok(false),
        }
    }

    /// The names of the elements that are elsewhere.
    fn elsewhere(&self, alloc: Global) -> Result<Vec<&'static str>, Fail> {
        let mut names = Vec::new(alloc);
        for (name, a, b, c) in PLACES {
            if self.at(name)? != Some((a, b, c)) {
                names.push(name)?;
            }
        }
        Ok(names)
    }

    fn one_is_far(&self) -> Result<bool, Fail> {
        for (name, _, _, _) in PLACES {
            if self.is_far(name)? {
                return Ok(true);
            }
        }
        Ok(false)
    }
}

fn begin<L: Ledger>(alloc: Global, blank: Blank) -> Stage<L>
    requires name { blank.name ≡ L.name }
    requires parts { blank.parts ≡ L.parts }
    requires some { 0 < blank.parts }
    ensures { IsSceneOf result.scene result.sketch }
{
    Stage {
        sketch: Sketch::new(alloc),
        scene: Scene::new(alloc),
        steps: Steps::<L>::new(blank),
    }
}

fn construct<L: Ledger>(alloc: Global, blank: Blank) -> Result<Stage<L>, Fail>
    requires name { blank.name ≡ L.name }
    requires parts { blank.parts ≡ L.parts }
    requires some { 0 < blank.parts }
    ensures { IfOk result (λ stage. IsSceneOf stage.scene stage.sketch) }
{
    let mut stage = begin::<L>(alloc, blank);
    stage.add("O", Kind::Point, &Spec::Fixed(0, 0, 1))?;
    for (name, x, y) in [("A", 1, 0), ("B", 0, 1), ("C", -1, -1)] {
        stage.add(name, Kind::Point, &Spec::Free(x, y))?;
    }
    for (name, through, by) in [("D", "A", 1), ("E", "B", 2), ("F", "C", 3)] {
        stage.add(
            name,
            Kind::Point,
            &Spec::Blend(named("O")?, named(through)?, by),
        )?;
    }
    for (name, kind, k, m) in CROSSES {
        stage.add(name, kind, &Spec::Cross(named(k)?, named(m)?))?;
    }
    Ok(stage)
}

/// How many evaluations two drags take, and what is elsewhere once all is back.
fn drag_all<L: Ledger>(
    alloc: Global,
    blank: Blank,
) -> Result<(usize, usize, Vec<&'static str>), Fail>
    requires name { blank.name ≡ L.name }
    requires parts { blank.parts ≡ L.parts }
    requires some { 0 < blank.parts }
{
    let mut stage = construct::<L>(alloc, blank)?;
    let free = stage.drag("A", Setting::Two(1000, -7))?;
    let blend = stage.drag("D", Setting::One(5))?;
    stage.drag("D", Setting::One(1))?;
    stage.drag("A", Setting::Two(1, 0))?;
    stage.drop_and_back("Y")?;
    Ok((free, blend, stage.elsewhere(alloc)?))
}

/// A drag of A evaluates A, D, ab, de, X, ca, fd and Z, one of D evaluates D, de, X, fd
/// and Z.
#[test]
fn drags_evaluate_what_depends_on_them(rt: HostRuntime) -> Result<(), Fail> {
    let (free, blend, elsewhere) = drag_all::<Brand>(rt.alloc(), Blank::new(1))?;
    assert_eq!(rt; free, 8);
    assert_eq!(rt; blend, 5);
    assert!(rt; elsewhere.is_empty(), "elsewhere: {:?}", elsewhere);
    Ok(())
}

/// Where two sides meet whose ends are dragged far out, and whether an element is far.
fn drag_far_out<L: Ledger>(
    alloc: Global,
    blank: Blank,
) -> Result<(Option<(i128, i128, i128)>, bool), Fail>
    requires name { blank.name ≡ L.name }
    requires parts { blank.parts ≡ L.parts }
    requires some { 0 < blank.parts }
{
    let mut stage = construct::<L>(alloc, blank)?;
    stage.drag("A", Setting::Two(1000, 1000))?;
    stage.drag("B", Setting::Two(1000, -1000))?;
    Ok((stage.at("X")?, stage.one_is_far()?))
}

/// Where joins of points that are far out meet, and whether the join of that with one of
/// the points is far.
fn meet_and_join<L: Ledger>(
    alloc: Global,
    blank: Blank,
) -> Result<(Option<(i128, i128, i128)>, bool), Fail>
    requires name { blank.name ≡ L.name }
    requires parts { blank.parts ≡ L.parts }
    requires some { 0 < blank.parts }
{
    let mut stage = begin::<L>(alloc, blank);
    for (name, x, y) in [
        ("A", 1000, 1000),
        ("B", 1000, -1000),
        ("C", -1000, 1000),
        ("D", 999, 1000),
    ] {
        stage.add(name, Kind::Point, &Spec::Free(x, y))?;
    }
    for (name, kind, k, m) in [
        ("l", Kind::Line, "A", "B"),
        ("m", Kind::Line, "C", "D"),
        ("X", Kind::Point, "l", "m"),
        ("n", Kind::Line, "X", "C"),
    ] {
        stage.add(name, kind, &Spec::Cross(named(k)?, named(m)?))?;
    }
    Ok((stage.at("X")?, stage.is_far("n")?))
}

/// Large in one coordinate is not large in all: one height for all coordinates would have
/// both meets far.
#[test]
fn far_by_the_heights_of_the_coordinates(rt: HostRuntime) -> Result<(), Fail> {
    let (met, is_far) = drag_far_out::<Brand>(rt.alloc(), Blank::new(1))?;
    assert!(rt; met == Some((1000, -3000, 1)));
    assert!(rt; !is_far);
    let (met, is_far) = meet_and_join::<Brand>(rt.alloc(), Blank::new(1))?;
    assert!(rt; met == Some((1000, 1000, 1)));
    assert!(rt; is_far);
    Ok(())
}
