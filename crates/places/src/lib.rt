// The place of a crossing point in binary32, one rounding for each operation, and the writing of points to the lent slice.
// Uses base, octree, records, rounding and rules. proofs/ has the bound: a point never leaves its edge.
#![tactic(auto)]

ghost use Rattle.std.specs.Prelude.{◌≡◌, ◌+◌, ◌*◌, ◌≤◌, length};
ghost use Rattle.base.specs.Grid.{along, axis_of};
ghost use Rattle.rules.specs.Survey.{place_of};
ghost use Rattle.rules.specs.Edges.{moving, spot};
ghost use Rattle.places.specs.Places.{as_spot, spot_between, with_spot};

use rules::Corner;

// The place of a point in three floats.
#[derive(Clone, Copy)]
pub struct Point {
    pub x: f32,
    pub y: f32,
    pub z: f32,
}

// A corner's coordinate on an axis: x for 0, y for 1, z for any other.
pub fn coordinate(c: Corner, axis: u32) -> u16
    ensures { result ≡ along (axis_of axis) (place_of c) }
{
    match axis {
        0 => c.x,
        1 => c.y,
        _ => c.z,
    }
}

// The moving coordinate of the point between a dry end and a wet one, `far`, reckoned from the dry end.
pub fn place(dry: Corner, far: Corner, axis: u32, length: u16, clearance: f32) -> f32
    ensures { result ≡ moving clearance (axis_of axis) length dry far }
{
    let t = (clearance - dry.sounding) / (far.sounding - dry.sounding);
    let way = f32::from(length) * t;
    let from = coordinate(dry, axis);
    if from < coordinate(far, axis) {
        f32::from(from) + way
    } else {
        f32::from(from) - way
    }
}

// A corner's place in floats, with another coordinate on an axis.
fn spread(moved: f32, axis: u32, c: Corner) -> Point
    ensures { as_spot result ≡ spot (axis_of axis) moved (place_of c) }
{
    let (x, y, z) = (f32::from(c.x), f32::from(c.y), f32::from(c.z));
    match axis {
        0 => Point { x: moved, y, z },
        1 => Point { x, y: moved, z },
        _ => Point { x, y, z: moved },
    }
}

// The place of the point on an odd edge with these ends.
pub fn point_of(lower: Corner, upper: Corner, axis: u32, length: u16, clearance: f32) -> Point
    ensures { as_spot result ≡ spot_between clearance (axis_of axis) length lower upper }
{
    if records::is_wet(upper, clearance) {
        return spread(place(lower, upper, axis, length, clearance), axis, lower);
    }
    spread(place(upper, lower, axis, length, clearance), axis, lower)
}

// Point n of a slice that holds three floats for each.
pub fn put_point(points: &mut [f32], n: usize, p: Point)
    requires { 3 * n + 3 ≤ length points.old }
    ensures { points.new ≡ with_spot points.old n (as_spot p) }
{
    let at = 3 * n;
    points[at] = p.x;
    points[at + 1] = p.y;
    points[at + 2] = p.z;
}
