//! What a step asks for in a sketch: its premises, its side condition and its conclusion.

ghost use Rattle.std.specs.Prelude.{◌≡◌, IfOk};
ghost use Rattle.geo_sketch.specs.Sketches.{other};
ghost use Rattle.geo_infer.specs.Shapes.{IsPosedShape, fits, fourth_kind, repeats, rising_on, rising_same, rising_triple, shape_by, shape_of, shape_unless, third_kind};

use crate::premises::{More, Premises};
use crate::rules::{Rule, SaidStep};
use geo_sketch::{Element, Kind, Refusal, Sketch, Statement, find_by_name};

/// The premises, the side condition, which must be not null somewhere, and the conclusion, all
/// with rising numbers.
#[derive(Debug, Drop)]
pub struct Shape {
    pub premises: Premises,
    pub side: Statement,
    pub conclusion: Statement,
}

/// What a step asks for. Refused as unknown where no element has a name, as kind where kinds do
/// not fit the rule, as repeat where an element is named twice; the first that applies.
pub fn shape_of(sketch: &Sketch, said: &SaidStep) -> Result<Shape, Refusal>
    ensures result { result ≡ shape_of sketch.now.elements said.now }
    ensures posed { IfOk result (IsPosedShape sketch.now.elements) }
{
    let elements = sketch.elements();
    let fourth = said.d.unwrap_or(said.c);
    match (
        find_by_name(elements, &said.a),
        find_by_name(elements, &said.b),
        find_by_name(elements, &said.c),
        find_by_name(elements, &fourth),
    ) {
        (Some(p), Some(q), Some(r), Some(s)) => make_shape(said.rule, &p, &q, &r, &s),
        _ => Err(Refusal::Unknown),
    }
}

/// The shape for four elements; for `Move` the fourth is the third.
fn make_shape(
    rule: Rule,
    p: &Element,
    q: &Element,
    r: &Element,
    s: &Element,
) -> Result<Shape, Refusal>
    ensures { result ≡ shape_unless rule p.now q.now r.now s.now }
{
    if !fits(rule, p, q, r, s) {
        return Err(Refusal::Kind);
    }
    if repeats(rule, p.number, q.number, r.number, s.number) {
        return Err(Refusal::Repeat);
    }
    Ok(shape_by(rule, p.number, q.number, r.number, s.number))
}

fn fits(rule: Rule, p: &Element, q: &Element, r: &Element, s: &Element) -> bool
    ensures { result ≡ fits rule p.now q.now r.now s.now }
{
    q.kind == p.kind && r.kind == third_kind(rule, p.kind) && s.kind == fourth_kind(rule, p.kind)
}

fn third_kind(rule: Rule, kind: Kind) -> Kind
    ensures { result ≡ third_kind rule kind }
{
    match rule {
        Rule::Span | Rule::Extend | Rule::Lie => kind,
        Rule::Unique | Rule::Move => other(kind),
    }
}

fn fourth_kind(rule: Rule, kind: Kind) -> Kind
    ensures { result ≡ fourth_kind rule kind }
{
    match rule {
        Rule::Extend => kind,
        _ => other(kind),
    }
}

fn other(kind: Kind) -> Kind
    ensures { result ≡ other kind }
{
    match kind {
        Kind::Point => Kind::Line,
        Kind::Line => Kind::Point,
    }
}

fn repeats(rule: Rule, p: u32, q: u32, r: u32, s: u32) -> bool
    ensures { result ≡ repeats rule p q r s }
{
    p == q || p == r || q == r || (rule.names_four() && (p == s || q == s || r == s))
}

/// The shape for elements by their numbers, as they are said.
fn shape_by(rule: Rule, p: u32, q: u32, r: u32, s: u32) -> Shape
    ensures { result ≡ shape_by rule p q r s }
{
    match rule {
        Rule::Span => span(p, q, r, s),
        Rule::Extend => extend(p, q, r, s),
        Rule::Lie => lie(p, q, r, s),
        Rule::Unique => unique(p, q, r, s),
        Rule::Move => move_to(p, q, r, s),
    }
}

fn span(p: u32, q: u32, r: u32, l: u32) -> Shape
    ensures { result ≡ shape_by Rule.Span p q r l }
{
    Shape {
        premises: Premises {
            first: on(p, l),
            second: on(q, l),
            more: More::One(on(r, l)),
        },
        side: Statement::Null(l),
        conclusion: triple(p, q, r),
    }
}

fn extend(p: u32, q: u32, r: u32, s: u32) -> Shape
    ensures { result ≡ shape_by Rule.Extend p q r s }
{
    Shape {
        premises: Premises {
            first: triple(p, q, r),
            second: triple(p, q, s),
            more: More::Nothing,
        },
        side: same(p, q),
        conclusion: triple(p, r, s),
    }
}

fn lie(p: u32, q: u32, r: u32, l: u32) -> Shape
    ensures { result ≡ shape_by Rule.Lie p q r l }
{
    Shape {
        premises: Premises {
            first: triple(p, q, r),
            second: on(p, l),
            more: More::One(on(q, l)),
        },
        side: same(p, q),
        conclusion: on(r, l),
    }
}

fn unique(p: u32, q: u32, l: u32, m: u32) -> Shape
    ensures { result ≡ shape_by Rule.Unique p q l m }
{
    Shape {
        premises: Premises {
            first: on(p, l),
            second: on(p, m),
            more: More::Two(on(q, l), on(q, m)),
        },
        side: same(l, m),
        conclusion: same(p, q),
    }
}

fn move_to(p: u32, q: u32, l: u32, none: u32) -> Shape
    ensures { result ≡ shape_by Rule.Move p q l none }
{
    Shape {
        premises: Premises {
            first: same(p, q),
            second: on(p, l),
            more: More::Nothing,
        },
        side: Statement::Null(p),
        conclusion: on(q, l),
    }
}

fn same(n: u32, m: u32) -> Statement
    ensures { result ≡ rising_same n m }
{
    Statement::Same(n.min(m), n.max(m))
}

fn on(n: u32, m: u32) -> Statement
    ensures { result ≡ rising_on n m }
{
    Statement::On(n.min(m), n.max(m))
}

fn triple(n: u32, m: u32, k: u32) -> Statement
    ensures { result ≡ rising_triple n m k }
{
    let middle = n.min(m).max(n.max(m).min(k));
    Statement::Triple(n.min(m.min(k)), middle, n.max(m.max(k)))
}
