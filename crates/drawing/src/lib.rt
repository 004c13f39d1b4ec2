// The drawing call: the checks of the tables, the amendments, the other checks, 12 after 8, the tables of edges and points, all triangles, the refusals of
// slices that are too short, the points. The slices are written only where both have room. Uses checks, edges, twins, across, crossings and triangles.
#![tactic(auto)]

ghost use Rattle.std.specs.Prelude.{◌≡◌, true, [], ◌∷◌, ◌*◌, ◌≤◌, OnOk, ltb, length};
ghost use Rattle.rules.specs.Refusals.{refusal_number, outcome};
ghost use Rattle.rules.specs.Edges.{point_edges};
ghost use Rattle.rules.specs.Outputs.{first_of, table_checks, drawing_checks, drawable, draw};
ghost use Rattle.rules.specs.Resounding.{amended, draw_amended};
ghost use Rattle.rules.specs.Closing.{ClosedIn};
ghost use Rattle.edges.specs.Surveyed.{surveyed};
ghost use Rattle.edges.specs.Tables.{Wets, Carriers};
ghost use Rattle.crossings.specs.Filling.{Known};
ghost use Rattle.drawing.specs.Draws.{Draws, drawn_of};

use checks::Passed;
use edges::{Edges, Survey};
use rules::{Drawn, Refusal};

// Checks 9 and 10: the first slice that is too short refuses.
fn shortage(points: usize, triangles: usize, n: usize, m: u32) -> Result<(), Refusal>
    requires { n ≤ 14616 }
    ensures { outcome result ≡ first_of ((9, ltb points (3 * n)) ∷ (10, ltb triangles (3 * m)) ∷ []) }
{
    if points < 3 * n {
        return Err(Refusal::PointSlice);
    }
    if triangles < 3 * (m as usize) {
        return Err(Refusal::TriangleSlice);
    }
    Ok(())
}

// A refusal before anything is drawn.
fn refused(refusal: Refusal) -> Drawn
    ensures { result ≡ record { number = refusal_number refusal; points = 0; triangles = 0 } }
{
    Drawn {
        number: u32::from(refusal),
        points: 0,
        triangles: 0,
    }
}

// What is returned of a drawing with these counts.
fn counted(number: u32, n: usize, m: u32) -> Drawn
    requires { n ≤ 14616 }
    ensures { result ≡ record { number = number; points = n; triangles = m } }
{
    Drawn {
        number,
        points: n as u32,
        triangles: m,
    }
}

// The checks of drawing after those of the tables and before those of the slices: 7, 8, then 12. The first that applies refuses; where none does, it is known
// which corners are wet.
pub fn refusal(cells: &[u8], corners: &[u8], clearance: f32, wets: &mut [u8]) -> Result<(), Refusal>
    requires corners_value { first_of (table_checks cells.now corners.now) ≡ 0 }
    requires wets_len { length wets.old ≡ 4872 }
    ensures value { outcome result ≡ first_of (drawing_checks cells.now corners.now clearance) }
    ensures wets { OnOk result (Wets corners.now clearance wets.new) }
{
    checks::refusal(cells, corners, clearance)?;
    if edges::fill_wets(corners, clearance, wets) {
        return Err(Refusal::OpenAtBox);
    }
    Ok(())
}

// Draws a drawable survey whose points are numbered: each point's twin, what lies across each side of a cell, the points of each cell's edges, then the
// triangles from these, and the points where neither slice is too short.
fn draw_numbered(
    edges: &Edges<'_, '_>,
    wets: &[u8],
    octants: &[u16],
    laid: &[u64],
    carriers: &[u16],
    n: usize,
    points: &mut [f32],
    triangles: &mut [u32],
) -> Drawn
    requires drawable { drawable edges.now.survey.cells.now edges.now.survey.corners.now edges.now.survey.clearance ≡ true }
    requires known { Known edges.now.survey.cells.now edges.now.survey.corners.now edges.now.survey.clearance wets.now
        edges.now.slots.now octants.now laid.now }
    requires carriers { Carriers (surveyed edges.now.survey) carriers.now }
    requires count { n ≡ length (point_edges (surveyed edges.now.survey)) }
    ensures { Draws (draw edges.now.survey.cells.now edges.now.survey.corners.now edges.now.survey.clearance
        points.old triangles.old) result points.new triangles.new }
{
    let mut twins = [0u16; 14616];
    let mut across = [0u16; 12294];
    let mut crossings = [0u16; 26637];
    let cells = edges.survey.cells;
    twins::fill(edges, wets, carriers, n, &mut twins);
    across::fill(cells, &mut across);
    crossings::fill(edges, wets, octants, laid, &mut crossings);
    let room = triangles.len();
    let write = 3 * n <= points.len();
    let m = triangles::draw(cells, &across, &crossings, &twins, n, write, triangles);
    if let Err(refusal) = shortage(points.len(), room, n, m) {
        return counted(u32::from(refusal), n, m);
    }
    edges.write_points(carriers, n, points);
    counted(0, n, m)
}

// Draws a drawable survey: the levels of its edges and the numbers of its points, then the drawing from these.
pub fn draw_drawable(
    passed: Passed,
    clearance: f32,
    wets: &[u8],
    points: &mut [f32],
    triangles: &mut [u32],
) -> Drawn
    requires drawable { drawable passed.cells.now passed.corners.now clearance ≡ true }
    requires wets { Wets passed.corners.now clearance wets.now }
    ensures { Draws (draw passed.entry.cells.now passed.entry.corners.now clearance points.old triangles.old) result
        points.new triangles.new }
{
    let mut slots = [edges::table::EMPTY; 43848];
    let mut carriers = [0u16; 14616];
    let survey = Survey {
        cells: passed.cells,
        corners: passed.corners,
        clearance,
    };
    let octants = passed.octants;
    let laid = passed.laid;
    edges::fill_levels(survey.cells, survey.corners, octants, laid, &mut slots);
    let n = edges::number_slots(&survey, wets, &mut slots, &mut carriers);
    let edges = Edges {
        survey,
        slots: &slots,
    };
    draw_numbered(&edges, wets, octants, laid, &carriers, n, points, triangles)
}

// Draws a survey with this corner table in force.
fn draw_in_force(
    passed: Passed,
    clearance: f32,
    points: &mut [f32],
    triangles: &mut [u32],
) -> Result<Drawn, Refusal>
    ensures { Draws (draw passed.entry.cells.now passed.entry.corners.now clearance points.old triangles.old)
        (drawn_of result) points.new triangles.new }
{
    let mut wets = [0u8; 4872];
    refusal(passed.cells, passed.corners, clearance, &mut wets)?;
    Ok(draw_drawable(passed, clearance, &wets, points, triangles))
}

// The same where there are amendments: 14 and 15, then the drawing with the corner table as amended. `volume` and `ways` have a function of this shape each, and
// one of that of `draw_checked`: one for all would take a closure over the lent slices, whose clauses would have to be written out here; no plainer.
fn draw_amended(
    passed: Passed,
    amendments: &[u8],
    clearance: f32,
    points: &mut [f32],
    triangles: &mut [u32],
) -> Result<Drawn, Refusal>
    ensures { Draws (draw_amended passed.entry.cells.now passed.entry.corners.now amendments.now clearance
        points.old triangles.old) (drawn_of result) points.new triangles.new }
{
    let mut table = [0u8; records::LIMIT];
    let amended = passed.amended(amendments, &mut table)?;
    draw_in_force(amended, clearance, points, triangles)
}

// Draws a survey, as amended, or says which check refuses it before anything is drawn.
fn draw_checked(
    cells: &[u8],
    corners: &[u8],
    amendments: &[u8],
    clearance: f32,
    points: &mut [f32],
    triangles: &mut [u32],
) -> Result<Drawn, Refusal>
    ensures { Draws (draw_amended cells.now corners.now amendments.now clearance points.old triangles.old)
        (drawn_of result) points.new triangles.new }
{
    let mut laid = [0u64; 2049];
    let mut octants = [0u16; 16392];
    let passed = Passed::read(cells, corners, &mut laid, &mut octants)?;
    if amendments.is_empty() {
        return draw_in_force(passed, clearance, points, triangles);
    }
    draw_amended(passed, amendments, clearance, points, triangles)
}

// Draws the surface of a survey, as amended, at a clearance: document 01, "Outputs and refusals", and document 02, requests 3 and 6. For every input, the
// result and both slices are those of the rules; and where the number is 0, what stands in the slices is closed, without exception.
pub fn draw(
    cells: &[u8],
    corners: &[u8],
    amendments: &[u8],
    clearance: f32,
    points: &mut [f32],
    triangles: &mut [u32],
) -> Drawn
    ensures exact { Draws (draw_amended cells.now corners.now amendments.now clearance
        points.old triangles.old) result points.new triangles.new }
    ensures closes { result.number ≡ 0 → ClosedIn cells.now (amended corners.now amendments.now) clearance result
        points.new triangles.new }
{
    match draw_checked(cells, corners, amendments, clearance, points, triangles) {
        Ok(drawn) => drawn,
        Err(refusal) => refused(refusal),
    }
}
