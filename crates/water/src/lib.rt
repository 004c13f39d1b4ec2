// Six times the volume inside a drawing: coordinates taken down to sixteenths, the determinant of a triangle's corners taken from a reference, and the sum over
// the triangles in a slice. Uses rounding and rules.
#![tactic(auto)]

ghost use Rattle.std.specs.Prelude.{◌≡◌, ◌+◌, ◌*◌, ◌<◌, ◌≤◌, not, T, pos, ◌-ℤ◌, ◌*ℤ◌, unsigned_abs};
ghost use Rattle.rules.specs.Closing.{triangles_in};
ghost use Rattle.rules.specs.Water.{sixteenths, determinant, sixfold_of, sixfold, beyond_box, InBox};
ghost use Rattle.water.specs.Corners.{reference_place, Near, part, taken, Placed, triangle_at, Held, Summable};

// The point of the box, in whole units, that corners are taken from.
#[repr(C)]
#[derive(Clone, Copy)]
pub struct Reference {
    pub x: u32,
    pub y: u32,
    pub z: u32,
}

// A corner taken from the reference, in sixteenths.
#[derive(Clone, Copy)]
struct Offset {
    x: i64,
    y: i64,
    z: i64,
}

// A coordinate taken down to a whole sixteenth and taken from the reference's.
fn axis_offset(coordinate: f32, reference: u32) -> i64
    requires in_box { InBox coordinate }
    requires reference_bound { reference ≤ 1024 }
    ensures { result ≡ pos (sixteenths coordinate) -ℤ pos (16 * reference) }
{
    let down = std::num::truncating_f32_to_u64(coordinate * 16.0);
    (down as i64) - ((16 * reference) as i64)
}

// A point of the slice, taken from the reference.
fn corner(points: &[f32], p: u32, reference: Reference) -> Offset
    requires placed { Placed points.now p }
    requires reference_in_box { T (not (beyond_box (reference_place reference))) }
    ensures { result ≡ taken (reference_place reference) points.now p }
{
    let at = 3 * (p as usize);
    Offset {
        x: axis_offset(points[at], reference.x),
        y: axis_offset(points[at + 1], reference.y),
        z: axis_offset(points[at + 2], reference.z),
    }
}

// The term of the determinant's expansion that has one coordinate of the first corner, a.
fn term(a: i64, b: i64, c: i64, d: i64, e: i64) -> i64
    requires { (unsigned_abs a ≤ 16384) × (unsigned_abs b ≤ 16384) × (unsigned_abs c ≤ 16384) × (unsigned_abs d ≤ 16384) × (unsigned_abs e ≤ 16384) }
    ensures { result ≡ a *ℤ (b *ℤ c -ℤ d *ℤ e) }
{
    a * (b * c - d * e)
}

// The determinant of three corners.
fn determinant_of(a: Offset, b: Offset, c: Offset) -> i64
    requires { Near (part a) × Near (part b) × Near (part c) }
    ensures { result ≡ determinant (part a) (part b) (part c) }
{
    term(a.x, b.y, c.z, b.z, c.y) + term(a.y, b.z, c.x, b.x, c.z) + term(a.z, b.x, c.y, b.y, c.x)
}

// The determinant of the corners of the triangle whose numbers begin at an element of the slice.
fn triangle(points: &[f32], triangles: &[u32], at: usize, reference: Reference) -> i64
    requires held { Held points.now triangles.now at }
    requires reference_in_box { T (not (beyond_box (reference_place reference))) }
    ensures { result ≡ sixfold_of (reference_place reference) points.now (triangle_at triangles.now at) }
{
    determinant_of(
        corner(points, triangles[at], reference),
        corner(points, triangles[at + 1], reference),
        corner(points, triangles[at + 2], reference),
    )
}

// The sum over the first m triangles of a slice.
pub fn sum(points: &[f32], triangles: &[u32], m: u32, reference: Reference) -> i64
    requires summable { Summable points.now triangles.now m }
    requires reference_in_box { T (not (beyond_box (reference_place reference))) }
    ensures { result ≡ sixfold (reference_place reference) points.now (triangles_in m triangles.now) }
{
    let mut total = 0;
    for k in 0..m as usize {
        total += triangle(points, triangles, 3 * k, reference);
    }
    total
}
