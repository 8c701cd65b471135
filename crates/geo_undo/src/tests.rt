ghost use Rattle.std.specs.Prelude.{◌≡◌, OnOk};
ghost use Rattle.geo_sketch.specs.Changes.{made_of};

use crate::History;
use geo_sketch::{Kind, Name, Refusal, Setting, Sketch, Spec, Stop};
use std::test::Fail;

/// Adds the free point (1, 2) with this name.
fn add_point(sketch: &mut Sketch, history: &mut History, name: &[u8]) -> Result<(), Fail>
    requires { sketch.old ≡ made_of history.old.done }
    ensures { OnOk result (sketch.new ≡ made_of history.new.done) }
{
    let name = Name::new(name).ok_or("a name")?;
    let delta = sketch.add(name, Kind::Point, &Spec::Free(1, 2))?;
    history.push(delta)?;
    Ok(())
}

/// Sets the values of the point with this name.
fn drag_point(
    sketch: &mut Sketch,
    history: &mut History,
    name: &[u8],
    to: Setting,
) -> Result<(), Fail>
    requires { sketch.old ≡ made_of history.old.done }
    ensures { OnOk result (sketch.new ≡ made_of history.new.done) }
{
    let name = Name::new(name).ok_or("a name")?;
    let delta = sketch.drag(name, to)?;
    history.push(delta)?;
    Ok(())
}

/// Drops the point with this name.
fn drop_point(sketch: &mut Sketch, history: &mut History, name: &[u8]) -> Result<(), Fail>
    requires { sketch.old ≡ made_of history.old.done }
    ensures { OnOk result (sketch.new ≡ made_of history.new.done) }
{
    let name = Name::new(name).ok_or("a name")?;
    let delta = sketch.drop_element(name)?;
    history.push(delta)?;
    Ok(())
}

#[test]
fn a_drag_is_undone_and_done_again(rt: HostRuntime) -> Result<(), Fail> {
    let mut sketch = Sketch::new(rt.alloc());
    let mut history = History::new(rt.alloc());
    add_point(&mut sketch, &mut history, b"A")?;
    drag_point(&mut sketch, &mut history, b"A", Setting::Two(3, 4))?;
    history.undo(&mut sketch)?;
    assert_eq!(rt; sketch.setting(0), Setting::Two(1, 2));
    history.redo(&mut sketch)?;
    assert_eq!(rt; sketch.setting(0), Setting::Two(3, 4));
    assert!(rt; history.can_undo() && !history.can_redo());
    match history.redo(&mut sketch) {
        Err(stop) => assert_eq!(rt; stop, Stop::Refused(Refusal::Nothing)),
        Ok(_) => assert!(rt; false),
    }
    Ok(())
}

/// An element between two others comes back to its place, with the values that it had.
#[test]
fn a_drop_in_the_middle_is_undone(rt: HostRuntime) -> Result<(), Fail> {
    let mut sketch = Sketch::new(rt.alloc());
    let mut history = History::new(rt.alloc());
    add_point(&mut sketch, &mut history, b"A")?;
    add_point(&mut sketch, &mut history, b"B")?;
    add_point(&mut sketch, &mut history, b"C")?;
    drag_point(&mut sketch, &mut history, b"B", Setting::Two(5, 6))?;
    drop_point(&mut sketch, &mut history, b"B")?;
    assert_eq!(rt; sketch.elements().len(), 2);
    assert_eq!(rt; sketch.setting(1), Setting::None);
    history.undo(&mut sketch)?;
    assert_eq!(rt; sketch.elements().len(), 3);
    assert_eq!(rt; sketch.elements()[1].number, 1);
    assert_eq!(rt; sketch.elements()[1].name.bytes(), b"B".as_slice());
    assert_eq!(rt; sketch.setting(1), Setting::Two(5, 6));
    Ok(())
}

#[test]
fn a_new_change_empties_what_was_undone(rt: HostRuntime) -> Result<(), Fail> {
    let mut sketch = Sketch::new(rt.alloc());
    let mut history = History::new(rt.alloc());
    assert!(rt; !history.can_undo() && !history.can_redo());
    add_point(&mut sketch, &mut history, b"A")?;
    add_point(&mut sketch, &mut history, b"B")?;
    history.undo(&mut sketch)?;
    history.undo(&mut sketch)?;
    assert_eq!(rt; sketch.elements().len(), 0);
    assert!(rt; !history.can_undo() && history.can_redo());
    add_point(&mut sketch, &mut history, b"C")?;
    assert!(rt; history.can_undo() && !history.can_redo());
    assert_eq!(rt; sketch.elements().len(), 1);
    assert_eq!(rt; sketch.elements()[0].number, 0);
    assert_eq!(rt; sketch.elements()[0].name.bytes(), b"C".as_slice());
    Ok(())
}
