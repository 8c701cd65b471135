ghost use Rattle.geo_sketch.specs.Additions.{IsSmallSpec};

use crate::{Expression, read_expression};
use geo_sketch::{Kind, Name, Refusal, Sketch, Spec, Stop};
use std::alloc::Global;

/// Lines that are no expressions.
const MALFORMED: &str = "\
zero [A, B,C]
zero [A,B ,C]
zero [ A,B,C]
zero + [A,B,C]
zero - - [A,B,C]
zero [A,B,C] + - [A,B,C]
zero [A,B,C] -
zero [A,B,C] + 7
zero -
zero 7
zero 7 8 [A,B,C]
zero [A,B,C] 7
zero -7 [A,B,C]
zero 1001 [A,B,C]
zero 00001 [A,B,C]
zero 1x [A,B,C]
zero [A,B,C,A]
zero [A,B]
zero []
zero [A,,C]
zero [A,B,9]
zero [A,B,C
zero A,B,C]
zero [A,B,C][A,B,C]
zero [[A,B,C]]
zero (A,B,C)
zero [A,B,C] [A,B,C] [A,B,C] [A,B,C] [A,B,C] [A,B,C] [A,B,C] [A,B,C] [A,B,C]
zero [A,B,C] + [A,B,C] + [A,B,C] + [A,B,C] + [A,B,C] + [A,B,C] + [A,B,C] + [A,B,C] + [A,B,C] + [A,B,C] + [A,B,C] + [A,B,C] + [A,B,C] + [A,B,C] + [A,B,C] + [A,B,C] + [A,B,C]
";

/// Expressions about the figure.
const WHOLE: &str = "\
zero [A,B,C]
zero - 0007 [A,B,C] [l,l,l]\t+ 0 [A,A,B]
zero 1000 [A,B,C]
zero - [A,B,C]
zero [A,A,C] [A,A,C] [A,A,C] [A,A,C] [A,A,C] [A,A,C] [A,A,C] [A,A,C]
zero [A,B,C] + [A,B,C] + [A,B,C] + [A,B,C] + [A,B,C] + [A,B,C] + [A,B,C] + [A,B,C] + [A,B,C] + [A,B,C] + [A,B,C] + [A,B,C] + [A,B,C] + [A,B,C] + [A,B,C] + [A,B,C]
";

fn name(text: &[u8]) -> Result<Name, Stop> {
    match Name::new(text) {
        Some(name) => Ok(name),
        None => Err(Stop::Refused(Refusal::Name)),
    }
}

fn add(sketch: &mut Sketch, text: &[u8], kind: Kind, spec: &Spec) -> Result<(), Stop>
    requires { IsSmallSpec spec.now }
{
    sketch.add(name(text)?, kind, spec)?;
    Ok(())
}

/// A line l and points A, B and C, of which B is fixed.
fn figure(alloc: Global) -> Result<Sketch, Stop> {
    let mut sketch = Sketch::new(alloc);
    add(&mut sketch, b"l", Kind::Line, &Spec::Free(1, 2))?;
    add(&mut sketch, b"A", Kind::Point, &Spec::Free(0, 0))?;
    add(&mut sketch, b"B", Kind::Point, &Spec::Fixed(5, 7, 1000))?;
    add(&mut sketch, b"C", Kind::Point, &Spec::Free(2, 5))?;
    Ok(sketch)
}

fn resolve(alloc: Global, sketch: &Sketch, line: &[u8]) -> Result<Expression, Stop> {
    read_expression(alloc, line)?.resolve(alloc, sketch)
}

/// Why a line is refused, or None.
fn refusal(alloc: Global, sketch: &Sketch, line: &[u8]) -> Option<Refusal> {
    match resolve(alloc, sketch, line) {
        Ok(_) => None,
        Err(Stop::Refused(refusal)) => Some(refusal),
        Err(Stop::NoMemory) => Some(Refusal::Long),
    }
}

#[test]
fn each_malformed_expression_by_its_refusal(rt: HostRuntime) {
    let alloc = rt.alloc();
    let Ok(sketch) = figure(alloc) else {
        panic!(rt; "the figure was refused");
    };
    for line in MALFORMED.split_terminator('\n') {
        assert!(rt;
            refusal(alloc, &sketch, line.as_bytes()) == Some(Refusal::Shape),
            "{line}"
        );
    }
    assert!(rt; refusal(alloc, &sketch, b"zero") == Some(Refusal::Arity));
    assert!(rt; refusal(alloc, &sketch, b" zero  ") == Some(Refusal::Arity));
    // Names before kinds, and both before great numbers.
    assert!(rt; refusal(alloc, &sketch, b"zero [A,l,C] [Z,A,B]") == Some(Refusal::Unknown));
    assert!(rt; refusal(alloc, &sketch, b"zero [A,B,C] [A,l,C]") == Some(Refusal::Kind));
    assert!(rt; refusal(alloc, &sketch, b"zero 0 [l,l,A]") == Some(Refusal::Kind));
}

#[test]
fn whole_expressions(rt: HostRuntime) {
    let alloc = rt.alloc();
    let Ok(sketch) = figure(alloc) else {
        panic!(rt; "the figure was refused");
    };
    for line in WHOLE.split_terminator('\n') {
        assert!(rt;
            refusal(alloc, &sketch, line.as_bytes()).is_none(),
            "{line}"
        );
    }
    let Ok(expression) = resolve(alloc, &sketch, b"zero - 0007 [C,B,A] [l,l,l] + [A,A,B]") else {
        panic!(rt; "the expression was refused");
    };
    let terms = expression.terms();
    assert!(rt; terms.len() == 2 && terms[0].number() == -7 && terms[1].number() == 1);
    let brackets = terms[0].brackets();
    assert!(rt; brackets.len() == 2 && brackets[0].first == 3);
    assert!(rt; brackets[0].second == 2 && brackets[0].third == 1 && brackets[1].second == 0);
}

/// Three fixed points whose bracket has the height 2^18.
fn wide_figure(alloc: Global) -> Result<Sketch, Stop> {
    let mut sketch = Sketch::new(alloc);
    add(&mut sketch, b"P", Kind::Point, &Spec::Fixed(512, 512, 512))?;
    add(&mut sketch, b"Q", Kind::Point, &Spec::Fixed(1, -1, 0))?;
    add(&mut sketch, b"R", Kind::Point, &Spec::Fixed(-128, 64, 64))?;
    Ok(sketch)
}

#[test]
fn great_above_its_bound_alone(rt: HostRuntime) {
    let alloc = rt.alloc();
    let Ok(sketch) = wide_figure(alloc) else {
        panic!(rt; "the figure was refused");
    };
    let at_the_bound = b"zero [P,Q,R] [P,Q,R] [P,Q,R] [P,Q,R] [P,Q,R] [P,Q,R] [P,Q,R]";
    assert!(rt; refusal(alloc, &sketch, at_the_bound).is_none());
    let above = b"zero [P,Q,R] [P,Q,R] [P,Q,R] [P,Q,R] [P,Q,R] [P,Q,R] [P,Q,R] + 0 [Q,Q,Q]";
    assert!(rt; refusal(alloc, &sketch, above) == Some(Refusal::Great));
}
