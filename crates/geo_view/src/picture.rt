//! The text of a picture.

ghost use Rattle.std.specs.Prelude.{◌≡◌, ◌≢◌, ◌≤◌, ◌^◌, ◌++◌, ◌-ℤ◌, ◌*ℤ◌, neg_ℤ, pos, unsigned_abs, IfSome, OnOk, map, flat_map};
ghost use Rattle.geo_view.specs.Entries.{AreNear, IsNear, IsNearEntry, exchanged};
ghost use Rattle.geo_view.specs.Pictures.{across, at_text, circle_text, entry_text, flat_text, floor_of, line_text, picture_text, plane_text, point_text, segment_text, steep_text, upwards, head_text, foot_text, attribute, end_text, stroke_text, name_text, number_text};
ghost use Rattle.geo_sketch.specs.declared.limits.TheConstants.{HEIGHT_LIMIT};

use crate::entries::exchange_kind;
use crate::shown::ViewKind;
use crate::table::write_table;
use geo_eval::{Here, Shown};
use geo_sketch::{Kind, NoMemory};
use geo_triple::Triple;
use std::alloc::{AllocError, Global};

/// Appends the picture of this kind, where coordinates lie from -2^41 to 2^41. After
/// NoMemory a part of it may have been appended.
pub fn write_picture(
    alloc: Global,
    kind: ViewKind,
    entries: &[Shown],
    out: &mut Vec<u8>,
) -> Result<(), NoMemory>
    requires near { AreNear entries.now }
    ensures { OnOk result (out.new.items ≡ out.old.items ++ picture_text kind entries.now) }
{
    let written = match kind {
        ViewKind::Table => write_table(alloc, entries, out),
        ViewKind::Plane => write_plane(alloc, entries, out),
        ViewKind::DualPlane => write_dual_plane(alloc, entries, out),
    };
    match written {
        Ok(()) => Ok(()),
        Err(_) => Err(NoMemory),
    }
}

fn write_plane(alloc: Global, entries: &[Shown], out: &mut Vec<u8>) -> Result<(), AllocError>
    requires near { AreNear entries.now }
    ensures { OnOk result (out.new.items ≡ out.old.items ++ plane_text entries.now) }
{
    write_head(out)?;
    for entry in entries {
        write_entry(alloc, entry, out)?;
    }
    write_foot(out)
}

/// The picture of the entries with their kinds exchanged.
fn write_dual_plane(alloc: Global, entries: &[Shown], out: &mut Vec<u8>) -> Result<(), AllocError>
    requires near { AreNear entries.now }
    ensures { OnOk result (out.new.items ≡ out.old.items ++ plane_text (map exchanged entries.now)) }
{
    write_head(out)?;
    for entry in entries {
        write_entry(alloc, &exchange_kind(entry), out)?;
    }
    write_foot(out)
}

#[tactic(auto, unfolding(crate::specs::Pictures::head_text))]
fn write_head(out: &mut Vec<u8>) -> Result<(), AllocError>
    ensures { OnOk result (out.new.items ≡ out.old.items ++ head_text) }
{
    out.extend_from_slice(
        b"<svg xmlns=\"http://www.w3.org/2000/svg\" viewBox=\"-500 -500 1000 1000\">\n",
    )
}

#[tactic(auto, unfolding(crate::specs::Pictures::foot_text))]
fn write_foot(out: &mut Vec<u8>) -> Result<(), AllocError>
    ensures { OnOk result (out.new.items ≡ out.old.items ++ foot_text) }
{
    out.extend_from_slice(b"</svg>\n")
}

fn write_entry(alloc: Global, entry: &Shown, out: &mut Vec<u8>) -> Result<(), AllocError>
    requires near { IsNearEntry entry.now }
    ensures { OnOk result (out.new.items ≡ out.old.items ++ entry_text entry.now) }
{
    match &entry.here {
        Here::At(triple) => write_at(alloc, entry.kind, entry.name.bytes(), triple, out),
        Here::NullHere | Here::Far => Ok(()),
    }
}

fn write_at(
    alloc: Global,
    kind: Kind,
    name: &[u8],
    triple: &Triple,
    out: &mut Vec<u8>,
) -> Result<(), AllocError>
    requires near { IsNear triple.now }
    ensures { OnOk result (out.new.items ≡ out.old.items ++ at_text kind name.now triple.now) }
{
    match kind {
        Kind::Point => write_point(alloc, name, triple.a, triple.b, triple.c, out),
        Kind::Line => write_line(alloc, name, triple.a, triple.b, triple.c, out),
    }
}

/// A point at infinity is left out.
fn write_point(
    alloc: Global,
    name: &[u8],
    a: i128,
    b: i128,
    c: i128,
    out: &mut Vec<u8>,
) -> Result<(), AllocError>
    requires near { IsNear record { a = a; b = b; c = c } }
    ensures { OnOk result (out.new.items ≡ out.old.items ++ point_text name.now record { a = a; b = b; c = c }) }
{
    if c == 0 {
        return Ok(());
    }
    write_circle(alloc, name, across(a, c), upwards(b, c), out)
}

/// The line at infinity is left out.
fn write_line(
    alloc: Global,
    name: &[u8],
    a: i128,
    b: i128,
    c: i128,
    out: &mut Vec<u8>,
) -> Result<(), AllocError>
    requires near { IsNear record { a = a; b = b; c = c } }
    ensures { OnOk result (out.new.items ≡ out.old.items ++ line_text name.now record { a = a; b = b; c = c }) }
{
    if b.unsigned_abs() < a.unsigned_abs() {
        return write_steep(alloc, name, a, b, c, out);
    }
    if b == 0 {
        return Ok(());
    }
    write_flat(alloc, name, a, b, c, out)
}

fn write_steep(
    alloc: Global,
    name: &[u8],
    a: i128,
    b: i128,
    c: i128,
    out: &mut Vec<u8>,
) -> Result<(), AllocError>
    requires near { IsNear record { a = a; b = b; c = c } }
    requires crosses { a ≢ pos 0 }
    ensures { OnOk result (out.new.items ≡ out.old.items ++ steep_text name.now record { a = a; b = b; c = c }) }
{
    let lower = across(at_minus_ten(b, c), a);
    let upper = across(at_ten(b, c), a);
    write_segment(alloc, name, lower, 500, upper, -500, out)
}

fn write_flat(
    alloc: Global,
    name: &[u8],
    a: i128,
    b: i128,
    c: i128,
    out: &mut Vec<u8>,
) -> Result<(), AllocError>
    requires near { IsNear record { a = a; b = b; c = c } }
    requires crosses { b ≢ pos 0 }
    ensures { OnOk result (out.new.items ≡ out.old.items ++ flat_text name.now record { a = a; b = b; c = c }) }
{
    let left = upwards(at_minus_ten(a, c), b);
    let right = upwards(at_ten(a, c), b);
    write_segment(alloc, name, -500, left, 500, right, out)
}

/// Minus a·x + c for x = -10.
fn at_minus_ten(a: i128, c: i128) -> i128
    requires a_near { unsigned_abs a ≤ HEIGHT_LIMIT }
    requires c_near { unsigned_abs c ≤ HEIGHT_LIMIT }
    ensures value { result ≡ pos 10 *ℤ a -ℤ c }
    ensures near { unsigned_abs result ≤ 2 ^ 45 }
{
    10 * a - c
}

/// Minus a·x + c for x = 10.
fn at_ten(a: i128, c: i128) -> i128
    requires a_near { unsigned_abs a ≤ HEIGHT_LIMIT }
    requires c_near { unsigned_abs c ≤ HEIGHT_LIMIT }
    ensures value { result ≡ neg_ℤ (pos 10) *ℤ a -ℤ c }
    ensures near { unsigned_abs result ≤ 2 ^ 45 }
{
    -10 * a - c
}

fn upwards(p: i128, q: i128) -> i128
    requires near { unsigned_abs p ≤ 2 ^ 45 }
    requires divisor { q ≢ pos 0 }
    requires small { unsigned_abs q ≤ HEIGHT_LIMIT }
    ensures { result ≡ upwards p q }
{
    -across(p, q)
}

fn across(p: i128, q: i128) -> i128
    requires near { unsigned_abs p ≤ 2 ^ 45 }
    requires divisor { q ≢ pos 0 }
    requires small { unsigned_abs q ≤ HEIGHT_LIMIT }
    ensures value { result ≡ across p q }
    ensures near { unsigned_abs result ≤ 2 ^ 52 }
{
    floor(50 * p, q)
}

fn floor(p: i128, q: i128) -> i128
    requires near { unsigned_abs p ≤ 2 ^ 51 }
    requires divisor { q ≢ pos 0 }
    requires small { unsigned_abs q ≤ HEIGHT_LIMIT }
    ensures value { result ≡ floor_of p q }
    ensures near { unsigned_abs result ≤ 2 ^ 52 }
{
    if q < 0 {
        return (-p).div_euclid(-q);
    }
    p.div_euclid(q)
}

fn write_circle(
    alloc: Global,
    name: &[u8],
    x: i128,
    y: i128,
    out: &mut Vec<u8>,
) -> Result<(), AllocError>
    ensures { OnOk result (out.new.items ≡ out.old.items ++ circle_text name.now x y) }
{
    out.extend_from_slice(b"<circle")?;
    write_name(name, out)?;
    write_number(alloc, b"cx", x, out)?;
    write_number(alloc, b"cy", y, out)?;
    out.extend_from_slice(b" r=\"4\"/>\n")
}

fn write_segment(
    alloc: Global,
    name: &[u8],
    x1: i128,
    y1: i128,
    x2: i128,
    y2: i128,
    out: &mut Vec<u8>,
) -> Result<(), AllocError>
    ensures { OnOk result (out.new.items ≡ out.old.items ++ segment_text name.now x1 y1 x2 y2) }
{
    out.extend_from_slice(b"<line")?;
    write_name(name, out)?;
    write_end(alloc, b"x1", x1, b"y1", y1, out)?;
    write_end(alloc, b"x2", x2, b"y2", y2, out)?;
    write_stroke(out)
}

#[tactic(auto, unfolding(crate::specs::Pictures::end_text))]
fn write_end(
    alloc: Global,
    x_key: &[u8],
    x: i128,
    y_key: &[u8],
    y: i128,
    out: &mut Vec<u8>,
) -> Result<(), AllocError>
    ensures { OnOk result (out.new.items ≡ out.old.items ++ end_text x_key.now x y_key.now y) }
{
    write_number(alloc, x_key, x, out)?;
    write_number(alloc, y_key, y, out)
}

#[tactic(auto, unfolding(crate::specs::Pictures::stroke_text))]
fn write_stroke(out: &mut Vec<u8>) -> Result<(), AllocError>
    ensures { OnOk result (out.new.items ≡ out.old.items ++ stroke_text) }
{
    out.extend_from_slice(b" stroke=\"black\"/>\n")
}

#[tactic(auto, unfolding(crate::specs::Pictures::name_text))]
fn write_name(name: &[u8], out: &mut Vec<u8>) -> Result<(), AllocError>
    ensures { OnOk result (out.new.items ≡ out.old.items ++ name_text name.now) }
{
    write_attribute(b"id", name, out)
}

#[tactic(auto, unfolding(crate::specs::Pictures::number_text))]
fn write_number(
    alloc: Global,
    key: &[u8],
    number: i128,
    out: &mut Vec<u8>,
) -> Result<(), AllocError>
    ensures { OnOk result (out.new.items ≡ out.old.items ++ number_text key.now number) }
{
    let text = format!(in alloc; "{number}")?;
    write_attribute(key, text.as_bytes(), out)
}

fn write_attribute(key: &[u8], value: &[u8], out: &mut Vec<u8>) -> Result<(), AllocError>
    ensures { OnOk result (out.new.items ≡ out.old.items ++ attribute key.now value.now) }
{
    out.extend_from_slice(b" ")?;
    out.extend_from_slice(key)?;
    out.extend_from_slice(b"=\"")?;
    out.extend_from_slice(value)?;
    out.extend_from_slice(b"\"")
}
