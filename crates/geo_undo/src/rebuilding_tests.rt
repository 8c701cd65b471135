//! Lists that make a sketch, and lists that make none, each by one cause. They are tried
//! here, so that geo_sketch, on which all other crates stand, is proved once.

use geo_sketch::{Def, Kind, Name, Setting, Sketch};
use std::alloc::Global;
use std::test::Fail;

/// One element of each definition, with gaps between the numbers, up to the greatest.
const FIGURE: [(u32, Kind, Def); 5] = [
    (0, Kind::Point, Def::Free),
    (2, Kind::Point, Def::Fixed(1000, -1000, 1)),
    (3, Kind::Line, Def::Cross(0, 2)),
    (10, Kind::Point, Def::Cut(3)),
    (999, Kind::Point, Def::Blend(0, 10)),
];

/// A point and a line that an entry can follow, or not.
const BEFORE: [(u32, Kind, Def); 2] = [
    (0, Kind::Point, Def::Free),
    (2, Kind::Line, Def::Fixed(1, 2, 3)),
];

/// Entries that can come next.
const FITTING: [(u32, Kind, Def); 4] = [
    (3, Kind::Point, Def::Cut(2)),
    (3, Kind::Line, Def::Cut(0)),
    (3, Kind::Line, Def::Blend(2, 2)),
    (999, Kind::Point, Def::Fixed(0, 0, -1000)),
];

/// Entries that can't, each by one cause.
const UNFIT: [(&str, (u32, Kind, Def)); 15] = [
    ("a number that is there", (2, Kind::Point, Def::Free)),
    ("a smaller number", (1, Kind::Point, Def::Free)),
    ("a number past the last one", (1000, Kind::Point, Def::Free)),
    ("itself named", (3, Kind::Point, Def::Cut(3))),
    ("a later number named", (3, Kind::Line, Def::Cross(0, 4))),
    ("a missing number named", (3, Kind::Line, Def::Cross(1, 0))),
    ("a cut of its own kind", (3, Kind::Line, Def::Cut(2))),
    (
        "a blend of the other kind",
        (3, Kind::Point, Def::Blend(2, 2)),
    ),
    ("a blend of two kinds", (3, Kind::Point, Def::Blend(0, 2))),
    ("a join of a line", (3, Kind::Line, Def::Cross(0, 2))),
    ("a zero triple", (3, Kind::Point, Def::Fixed(0, 0, 0))),
    (
        "a first coordinate",
        (3, Kind::Point, Def::Fixed(1001, 0, 0)),
    ),
    (
        "a second coordinate",
        (3, Kind::Point, Def::Fixed(0, -1001, 0)),
    ),
    (
        "a third coordinate",
        (3, Kind::Point, Def::Fixed(0, 0, 1001)),
    ),
    (
        "each coordinate",
        (3, Kind::Line, Def::Fixed(1001, 1001, 1001)),
    ),
];

fn makes_sketch(alloc: Global, list: &[(u32, Kind, Def)]) -> Result<bool, Fail> {
    Ok(Sketch::rebuild(alloc, list)?.is_some())
}

#[test]
fn a_figure_is_rebuilt(rt: HostRuntime) -> Result<(), Fail> {
    let sketch = Sketch::rebuild(rt.alloc(), &FIGURE)?.ok_or("a sketch")?;
    assert_eq!(rt; sketch.elements().len(), FIGURE.len());
    for (element, (number, kind, def)) in sketch.elements().iter().zip(FIGURE) {
        let same = element.number == number && element.kind == kind && element.def == def;
        assert!(rt; same, "at {number}");
    }
    for (name, number) in [("e0", 0), ("e2", 2), ("e10", 10), ("e999", 999)] {
        let name = Name::new(name.as_bytes()).ok_or("a name")?;
        assert!(rt; sketch.find(name) == Some(number), "at {number}");
    }
    assert_eq!(rt; sketch.setting(0), Setting::Two(0, 0));
    assert_eq!(rt; sketch.setting(1), Setting::None);
    assert_eq!(rt; sketch.setting(10), Setting::One(0));
    assert_eq!(rt; sketch.claims().len(), 0);
    Ok(())
}

#[test]
fn an_entry_follows_or_not(rt: HostRuntime) -> Result<(), Fail> {
    assert!(rt; makes_sketch(rt.alloc(), &[])?);
    for entry in FITTING {
        let list = [BEFORE[0], BEFORE[1], entry];
        assert!(rt; makes_sketch(rt.alloc(), &list)?);
    }
    for (cause, entry) in UNFIT {
        let list = [BEFORE[0], BEFORE[1], entry];
        assert!(rt; !makes_sketch(rt.alloc(), &list)?, "{cause}");
    }
    Ok(())
}

/// A free point, and points of this definition, so many in all.
fn series(alloc: Global, count: u32, def: Def) -> Result<Vec<(u32, Kind, Def)>, Fail> {
    let mut list = Vec::new(alloc);
    list.push((0, Kind::Point, Def::Free))?;
    for number in 1..count {
        list.push((number, Kind::Point, def))?;
    }
    Ok(list)
}

/// 64 elements and 24 parameters are the most.
#[test]
fn limits_are_kept(rt: HostRuntime) -> Result<(), Fail> {
    for (count, def, fits) in [
        (64, Def::Fixed(1, 0, 1), true),
        (65, Def::Fixed(1, 0, 1), false),
        (23, Def::Blend(0, 0), true),
        (24, Def::Blend(0, 0), false),
    ] {
        let list = series(rt.alloc(), count, def)?;
        assert!(rt; makes_sketch(rt.alloc(), &list)? == fits, "at {count}");
    }
    Ok(())
}

/// By their plain heights, 2,000,000,000,000 and 2,420,000,000,000, the last point of the
/// one list is not tall, and that of the other is; both are small by their coordinates.
#[test]
fn tall_elements_make_no_sketch(rt: HostRuntime) -> Result<(), Fail> {
    for (first, fits) in [(500, true), (550, false)] {
        let list = [
            (0, Kind::Point, Def::Fixed(1000, 1, 1)),
            (1, Kind::Point, Def::Fixed(first, 1, 1)),
            (2, Kind::Line, Def::Cross(0, 1)),
            (3, Kind::Line, Def::Cross(1, 0)),
            (4, Kind::Point, Def::Cross(2, 3)),
        ];
        assert!(rt; makes_sketch(rt.alloc(), &list)? == fits, "at {first}");
    }
    Ok(())
}
