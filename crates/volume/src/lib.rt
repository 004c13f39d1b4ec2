// The call for the volume: a drawing, with check 13 before those of the slices, and the sum over what then stands in them. Uses records, checks, drawing
// and water.
#![tactic(auto)]

ghost use Rattle.std.specs.Prelude.{◌≡◌, OnOk, not, T, pos, length};
ghost use Rattle.base.specs.Grid.{Place};
ghost use Rattle.rules.specs.Refusals.{refusal_number, outcome};
ghost use Rattle.rules.specs.Outputs.{first_of};
ghost use Rattle.rules.specs.Closing.{ClosedIn};
ghost use Rattle.rules.specs.Water.{beyond_box, volume_checks, volume};
ghost use Rattle.rules.specs.Resounding.{amended, volume_amended};
ghost use Rattle.edges.specs.Tables.{Wets};
ghost use Rattle.water.specs.Corners.{reference_place};
ghost use Rattle.volume.specs.Reckons.{drawn_part, sixfold_from, water_of, ClosedAnywhere, Reckons};

use checks::Passed;
use rules::{Drawn, Refusal, Water};
use water::Reference;

// Check 13: a coordinate of the reference is above 1,024.
fn beyond(reference: Reference) -> bool
    ensures { result ≡ beyond_box (reference_place reference) }
{
    reference.x > 1024 || reference.y > 1024 || reference.z > 1024
}

// What is asked besides the survey: at which clearance it is drawn, and from where the volume is reckoned.
#[derive(Clone, Copy)]
struct Asked {
    clearance: f32,
    reference: Reference,
}

// The checks of this call after those of the tables and before those of the slices: those of drawing, then 13. The first that applies refuses; where none does,
// it is known which corners are wet.
fn refusal(passed: Passed, asked: Asked, wets: &mut [u8]) -> Result<(), Refusal>
    requires { length wets.old ≡ 4872 }
    ensures value { outcome result ≡ first_of (volume_checks passed.entry.cells.now passed.entry.corners.now asked.clearance
        (reference_place asked.reference)) }
    ensures wets { OnOk result (Wets passed.entry.corners.now asked.clearance wets.new) }
{
    drawing::refusal(passed.cells, passed.corners, asked.clearance, wets)?;
    if beyond(asked.reference) {
        return Err(Refusal::Reference);
    }
    Ok(())
}

// A refusal: nothing is drawn, and there is no volume.
fn refused(refusal: Refusal) -> Water
    ensures { result ≡ record { number = refusal_number refusal; points = 0; triangles = 0; sixfold = pos 0 } }
{
    Water {
        number: u32::from(refusal),
        points: 0,
        triangles: 0,
        sixfold: 0,
    }
}

// A drawing's result with the volume.
fn with_volume(drawn: Drawn, sixfold: i64) -> Water
    ensures { result ≡ record { number = drawn.number; points = drawn.points; triangles = drawn.triangles; sixfold = sixfold } }
{
    let Drawn {
        number,
        points,
        triangles,
    } = drawn;
    Water {
        number,
        points,
        triangles,
        sixfold,
    }
}

// Reckons a survey with this corner table in force.
fn reckon_in_force(
    passed: Passed,
    asked: Asked,
    points: &mut [f32],
    triangles: &mut [u32],
) -> Result<Water, Refusal>
    ensures { Reckons (volume passed.entry.cells.now passed.entry.corners.now asked.clearance
        (reference_place asked.reference) points.old triangles.old) (water_of result) points.new triangles.new
        × ClosedAnywhere passed.entry.cells.now passed.entry.corners.now asked.clearance
        (water_of result) points.new triangles.new }
{
    let mut wets = [0u8; 4872];
    refusal(passed, asked, &mut wets)?;
    let drawn = drawing::draw_drawable(passed, asked.clearance, &wets, points, triangles);
    if drawn.number != 0 {
        return Ok(with_volume(drawn, 0));
    }
    let sixfold = water::sum(points, triangles, drawn.triangles, asked.reference);
    Ok(with_volume(drawn, sixfold))
}

// The same where there are amendments: 14 and 15, then the volume with the corner table as amended.
fn reckon_amended(
    passed: Passed,
    amendments: &[u8],
    asked: Asked,
    points: &mut [f32],
    triangles: &mut [u32],
) -> Result<Water, Refusal>
    ensures { Reckons (volume_amended passed.entry.cells.now passed.entry.corners.now amendments.now asked.clearance
        (reference_place asked.reference) points.old triangles.old) (water_of result) points.new triangles.new
        × ClosedAnywhere passed.entry.cells.now (amended passed.entry.corners.now amendments.now) asked.clearance
        (water_of result) points.new triangles.new }
{
    let mut table = [0u8; records::LIMIT];
    let amended = passed.amended(amendments, &mut table)?;
    reckon_in_force(amended, asked, points, triangles)
}

// Reckons a survey, as amended, or says which check refuses it before anything is drawn.
fn reckon_checked(
    cells: &[u8],
    corners: &[u8],
    amendments: &[u8],
    asked: Asked,
    points: &mut [f32],
    triangles: &mut [u32],
) -> Result<Water, Refusal>
    ensures { Reckons (volume_amended cells.now corners.now amendments.now asked.clearance
        (reference_place asked.reference) points.old triangles.old) (water_of result) points.new triangles.new
        × ClosedAnywhere cells.now (amended corners.now amendments.now) asked.clearance
        (water_of result) points.new triangles.new }
{
    let mut laid = [0u64; 2049];
    let mut octants = [0u16; 16392];
    let passed = Passed::read(cells, corners, &mut laid, &mut octants)?;
    if amendments.is_empty() {
        return reckon_in_force(passed, asked, points, triangles);
    }
    reckon_amended(passed, amendments, asked, points, triangles)
}

// Draws the surface of a survey, as amended, at a clearance, and gives six times the volume inside: document 02, requests 4 and 6. For every input, the result
// and both slices are those of the rules. Where the number is 0, what stands in the slices is closed, and the volume is the same from every reference of the
// box.
pub fn reckon(
    cells: &[u8],
    corners: &[u8],
    amendments: &[u8],
    clearance: f32,
    reference: Reference,
    points: &mut [f32],
    triangles: &mut [u32],
) -> Water
    ensures exact { Reckons (volume_amended cells.now corners.now amendments.now clearance (reference_place reference)
        points.old triangles.old) result points.new triangles.new }
    ensures closes { result.number ≡ 0 → ClosedIn cells.now (amended corners.now amendments.now) clearance (drawn_part result)
        points.new triangles.new }
    ensures anywhere { result.number ≡ 0 → (q : Place) → T (not (beyond_box q))
        → result.sixfold ≡ sixfold_from q cells.now (amended corners.now amendments.now) clearance }
{
    let asked = Asked {
        clearance,
        reference,
    };
    match reckon_checked(cells, corners, amendments, asked, points, triangles) {
        Ok(water) => water,
        Err(refusal) => refused(refusal),
    }
}
