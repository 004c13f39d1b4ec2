// What is exported to C and Rust: the calls of document 01, with what the requests of document 02 add, thin over the proved ones. A slice passes as a
// pointer and a length.
#![tactic(auto)]

ghost use Rattle.std.specs.Prelude.{◌≡◌, not, ℕ, T};
ghost use Rattle.base.specs.Grid.{Place};
ghost use Rattle.rules.specs.WhichEnd.{end_number};
ghost use Rattle.rules.specs.Outputs.{survey_of, asked, answered, StaysOn};
ghost use Rattle.rules.specs.Closing.{ClosedIn};
ghost use Rattle.rules.specs.Water.{beyond_box};
ghost use Rattle.rules.specs.Resounding.{amended, check_amended, enquiry_amended, draw_amended, volume_amended};
ghost use Rattle.rules.specs.Calendar.{period_at, clearance_at, draw_by_calendar, InForce};
ghost use Rattle.rules.specs.Ways.{corner_graph, passage_amended, Means};
ghost use Rattle.rules.specs.Convoy.{convoy_graph, convoy_amended, boat_clearance, Greatest};
ghost use Rattle.ways.specs.Shows.{Shows, shown_by};
ghost use Rattle.enquiry.specs.Enquiry.{lower_end};
ghost use Rattle.water.specs.Corners.{reference_place};
ghost use Rattle.drawing.specs.Draws.{Draws};
ghost use Rattle.volume.specs.Reckons.{drawn_part, sixfold_from, Reckons};
ghost use Rattle.clearance.specs.Version.{version};
ghost use Rattle.clearance.specs.Reply.{reply_of, told};

use rules::{AskedEdge, Drawn, Edge, End, Passage, Refusal, Water};
use water::Reference;

// The answer of an enquiry as plain numbers: the number returned, whether the edge is crossing, the point's number and its place, and the wet end: 1 the
// lower, 2 the upper, 0 where there is none.
#[repr(C)]
#[derive(Clone, Copy)]
pub struct Reply {
    pub number: u32,
    pub crossing: u32,
    pub point: u32,
    pub x: f32,
    pub y: f32,
    pub z: f32,
    pub wet_end: u32,
}

// The reply that tells nothing: that of an even edge.
const NOTHING: Reply = Reply {
    number: 0,
    crossing: 0,
    point: 0,
    x: 0.0,
    y: 0.0,
    z: 0.0,
    wet_end: 0,
};

// The number of a wet end.
fn end_number(end: End) -> u32
    ensures { result ≡ end_number end }
{
    match end {
        End::Lower => 1,
        End::Upper => 2,
    }
}

// An answer as plain numbers. What is not there is 0.
fn reply_of(answer: Result<Edge, Refusal>) -> Reply
    ensures { result ≡ reply_of (answered answer) }
{
    match answer {
        Err(refusal) => Reply {
            number: u32::from(refusal),
            ..NOTHING
        },
        Ok(Edge::Even) => NOTHING,
        Ok(Edge::Crossing(point, x, y, z, end)) => Reply {
            number: 0,
            crossing: 1,
            point,
            x,
            y,
            z,
            wet_end: end_number(end),
        },
    }
}

// CLEARANCE_VERSION of the header that fits.
const VERSION: u32 = 3;

// The number of this version of the calls: a program sees by it that the header it was compiled with and the archive fit.
#[unsafe(no_mangle)]
pub extern "C" fn clearance_version() -> u32
    ensures { result ≡ version }
{
    VERSION
}

// Checks a survey by itself: 0, or the number of the first refusal of 1 to 6, 14, 15 and 7, in this order, that applies.
#[unsafe(no_mangle)]
pub extern "C" fn clearance_check(cells: &[u8], corners: &[u8], amendments: &[u8]) -> u32
    ensures { result ≡ check_amended cells.now corners.now amendments.now }
{
    match checks::check(cells, corners, amendments) {
        Ok(()) => 0,
        Err(refusal) => u32::from(refusal),
    }
}

// The edge enquiry of a survey as amended.
#[unsafe(no_mangle)]
pub extern "C" fn clearance_enquire(
    cells: &[u8],
    corners: &[u8],
    amendments: &[u8],
    clearance: f32,
    edge: AskedEdge,
) -> Reply
    ensures exact { result ≡ reply_of (enquiry_amended cells.now corners.now amendments.now clearance
        edge.axis (lower_end edge) edge.length) }
    ensures tells { told result ≡ enquiry_amended cells.now corners.now amendments.now clearance
        edge.axis (lower_end edge) edge.length }
    ensures on_edge { StaysOn (survey_of cells.now (amended corners.now amendments.now) clearance)
        (asked edge.axis (lower_end edge) edge.length) (told result) }
{
    reply_of(enquiry::enquire(cells, corners, amendments, clearance, edge))
}

// Draws the surface of a survey, as amended, at a clearance into the lent slices.
#[unsafe(no_mangle)]
pub extern "C" fn clearance_draw(
    cells: &[u8],
    corners: &[u8],
    amendments: &[u8],
    clearance: f32,
    points: &mut [f32],
    triangles: &mut [u32],
) -> Drawn
    ensures exact { Draws (draw_amended cells.now corners.now amendments.now clearance
        points.old triangles.old) result points.new triangles.new }
    ensures closes { result.number ≡ 0 → ClosedIn cells.now (amended corners.now amendments.now) clearance result
        points.new triangles.new }
{
    drawing::draw(cells, corners, amendments, clearance, points, triangles)
}

// Draws as clearance_draw does, at the clearance that a calendar has in force at a minute.
#[unsafe(no_mangle)]
pub extern "C" fn clearance_draw_by_calendar(
    cells: &[u8],
    corners: &[u8],
    amendments: &[u8],
    calendar: &[u8],
    minute: u32,
    points: &mut [f32],
    triangles: &mut [u32],
) -> Drawn
    ensures exact { Draws (draw_by_calendar cells.now corners.now amendments.now calendar.now minute
        points.old triangles.old) result points.new triangles.new }
    ensures by_hand { (k : ℕ) → InForce calendar.now minute k
        → Draws (draw_amended cells.now corners.now amendments.now (period_at calendar.now k).clearance
        points.old triangles.old) result points.new triangles.new }
    ensures closes { result.number ≡ 0 → ClosedIn cells.now (amended corners.now amendments.now)
        (clearance_at calendar.now minute) result points.new triangles.new }
{
    calendar::draw(
        cells, corners, amendments, calendar, minute, points, triangles,
    )
}

// Draws as clearance_draw does, and gives six times the volume inside, reckoned from a reference point of the box.
#[unsafe(no_mangle)]
pub extern "C" fn clearance_volume(
    cells: &[u8],
    corners: &[u8],
    amendments: &[u8],
    clearance: f32,
    reference: Reference,
    points: &mut [f32],
    triangles: &mut [u32],
) -> Water
    ensures exact { Reckons (volume_amended cells.now corners.now amendments.now clearance (reference_place reference)
        points.old triangles.old) result points.new triangles.new }
    ensures closes { result.number ≡ 0 → ClosedIn cells.now (amended corners.now amendments.now) clearance
        (drawn_part result) points.new triangles.new }
    ensures anywhere { result.number ≡ 0 → (q : Place) → T (not (beyond_box q))
        → result.sixfold ≡ sixfold_from q cells.now (amended corners.now amendments.now) clearance }
{
    volume::reckon(
        cells, corners, amendments, clearance, reference, points, triangles,
    )
}

// Shows the way with the fewest steps between two corners of a survey, as amended, each by its record number, over corners that are wet at a clearance.
#[unsafe(no_mangle)]
pub extern "C" fn clearance_way(
    cells: &[u8],
    corners: &[u8],
    amendments: &[u8],
    clearance: f32,
    start: u32,
    end: u32,
    way: &mut [u16],
    work: &mut [u16],
) -> Passage
    ensures exact { Shows (passage_amended cells.now corners.now amendments.now clearance start end
        way.old work.old) result way.new work.new }
    ensures means { Means (corner_graph cells.now (amended corners.now amendments.now) clearance) start end
        way.old work.old (shown_by result way.new work.new) }
{
    ways::find(cells, corners, amendments, clearance, start, end, way, work)
}

// Shows the way as clearance_way does, over corners that are wet at each of 1 to 16 clearances.
#[unsafe(no_mangle)]
pub extern "C" fn clearance_convoy(
    cells: &[u8],
    corners: &[u8],
    amendments: &[u8],
    clearances: &[f32],
    start: u32,
    end: u32,
    way: &mut [u16],
    work: &mut [u16],
) -> Passage
    ensures exact { Shows (convoy_amended cells.now corners.now amendments.now clearances.now start end
        way.old work.old) result way.new work.new }
    ensures means { Means (convoy_graph cells.now (amended corners.now amendments.now) clearances.now)
        start end way.old work.old (shown_by result way.new work.new) }
    ensures as_greatest { (k : ℕ) → Greatest clearances.now k
        → Shows (passage_amended cells.now corners.now amendments.now (boat_clearance clearances.now k) start end
        way.old work.old) result way.new work.new }
{
    convoy::find(
        cells, corners, amendments, clearances, start, end, way, work,
    )
}
