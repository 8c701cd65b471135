//! Pictures worked by hand, and views that are told changes.

ghost use Rattle.std.specs.Prelude.{◌≡◌, ◌≤◌, ◌^◌, unsigned_abs};
ghost use Rattle.geo_view.specs.Entries.{AreNearChanges, IsNearChange};

use crate::shown::Change;
use crate::view::View;
use crate::views::{DualView, PlaneView, TableView};
use geo_eval::{Here, Shown};
use geo_sketch::{Kind, Name};
use geo_triple::Triple;
use std::test::Fail;

/// Appends a change.
fn tell(list: &mut Vec<Change>, change: Change) -> Result<(), Fail>
    requires all { AreNearChanges list.old.items }
    requires near { IsNearChange change }
    ensures { AreNearChanges list.new.items }
{
    list.push(change)?;
    Ok(())
}

/// Appends an entry at (a, b, c).
fn put(
    list: &mut Vec<Change>,
    number: u32,
    name: &[u8],
    kind: Kind,
    at: (i128, i128, i128),
) -> Result<(), Fail>
    requires all { AreNearChanges list.old.items }
    requires a_near { unsigned_abs at.0 ≤ 2 ^ 41 }
    requires b_near { unsigned_abs at.1 ≤ 2 ^ 41 }
    requires c_near { unsigned_abs at.2 ≤ 2 ^ 41 }
    ensures { AreNearChanges list.new.items }
{
    let name = Name::new(name).ok_or("a name")?;
    let here = Here::At(Triple {
        a: at.0,
        b: at.1,
        c: at.2,
    });
    tell(
        list,
        Change::Put(Shown {
            number,
            name,
            kind,
            here,
        }),
    )
}

const PLANE: &[u8] =
    b"<svg xmlns=\"http://www.w3.org/2000/svg\" viewBox=\"-500 -500 1000 1000\">\n<circle id=\"A\" cx=\"50\" cy=\"0\" r=\"4\"/>\n<circle id=\"B\" cx=\"0\" cy=\"-50\" r=\"4\"/>\n<line id=\"ab\" x1=\"-500\" y1=\"-550\" x2=\"500\" y2=\"450\" stroke=\"black\"/>\n</svg>\n";

const DUAL: &[u8] =
    b"<svg xmlns=\"http://www.w3.org/2000/svg\" viewBox=\"-500 -500 1000 1000\">\n<line id=\"A\" x1=\"-50\" y1=\"500\" x2=\"-50\" y2=\"-500\" stroke=\"black\"/>\n<line id=\"B\" x1=\"-500\" y1=\"50\" x2=\"500\" y2=\"50\" stroke=\"black\"/>\n<circle id=\"ab\" cx=\"-50\" cy=\"50\" r=\"4\"/>\n</svg>\n";

#[test]
fn two_points_and_their_join(rt: HostRuntime) -> Result<(), Fail> {
    let mut told = Vec::new(rt.alloc());
    put(&mut told, 2, b"ab", Kind::Line, (-1, -1, 1))?;
    put(&mut told, 0, b"A", Kind::Point, (1, 0, 1))?;
    put(&mut told, 1, b"B", Kind::Point, (0, 1, 1))?;
    let mut plane = PlaneView::new(rt.alloc());
    plane.see(&told)?;
    let mut picture = Vec::new(rt.alloc());
    plane.render(rt.alloc(), &mut picture)?;
    assert_eq!(rt; picture.as_slice(), PLANE);
    let mut dual = DualView::new(rt.alloc());
    dual.see(&told)?;
    let mut dual_picture = Vec::new(rt.alloc());
    dual.render(rt.alloc(), &mut dual_picture)?;
    assert_eq!(rt; dual_picture.as_slice(), DUAL);
    Ok(())
}

const FLOORS: &[u8] =
    b"<svg xmlns=\"http://www.w3.org/2000/svg\" viewBox=\"-500 -500 1000 1000\">\n<circle id=\"P\" cx=\"16\" cy=\"17\" r=\"4\"/>\n<line id=\"s\" x1=\"133\" y1=\"500\" x2=\"-200\" y2=\"-500\" stroke=\"black\"/>\n<line id=\"t\" x1=\"-134\" y1=\"500\" x2=\"200\" y2=\"-500\" stroke=\"black\"/>\n</svg>\n";

#[test]
fn floors_go_down_and_infinity_is_left_out(rt: HostRuntime) -> Result<(), Fail> {
    let mut told = Vec::new(rt.alloc());
    put(&mut told, 0, b"P", Kind::Point, (1, -1, 3))?;
    put(&mut told, 1, b"Q", Kind::Point, (1, 2, 0))?;
    put(&mut told, 2, b"s", Kind::Line, (3, 1, 2))?;
    put(&mut told, 3, b"t", Kind::Line, (-3, 1, 2))?;
    put(&mut told, 4, b"u", Kind::Line, (0, 0, 1))?;
    let mut plane = PlaneView::new(rt.alloc());
    plane.see(&told)?;
    let mut picture = Vec::new(rt.alloc());
    plane.render(rt.alloc(), &mut picture)?;
    assert_eq!(rt; picture.as_slice(), FLOORS);
    Ok(())
}

#[test]
fn a_table_follows_changes(rt: HostRuntime) -> Result<(), Fail> {
    let mut told = Vec::new(rt.alloc());
    put(&mut told, 5, b"C", Kind::Point, (1, 2, 1))?;
    put(&mut told, 3, b"l", Kind::Line, (1, 0, 0))?;
    put(&mut told, 4, b"B", Kind::Point, (0, 0, 1))?;
    put(&mut told, 5, b"C", Kind::Point, (3, 4, 1))?;
    tell(&mut told, Change::Gone(4))?;
    tell(&mut told, Change::Dual)?;
    let mut table = TableView::new(rt.alloc());
    table.see(&told)?;
    let mut text = Vec::new(rt.alloc());
    table.render(rt.alloc(), &mut text)?;
    assert_eq!(rt;
        text.as_slice(),
        b"l point 1 0 0\nC line 3 4 1\n".as_slice()
    );
    Ok(())
}
