// The edge enquiry: whether an edge is even or crossing, where, and which end is wet. Uses checks and edges.
#![tactic(auto)]

ghost use Rattle.std.specs.Prelude.{◌≡◌};
ghost use Rattle.rules.specs.Outputs.{survey_of, level_of, enquiry, asked, answered, StaysOn};
ghost use Rattle.rules.specs.Resounding.{amended, enquiry_amended};
ghost use Rattle.enquiry.specs.Enquiry.{lower_end};

use checks::Passed;
use edges::Survey;
use rules::{AskedEdge, Edge, Refusal};

mod answers;

// The level of an edge of this length, or 11, which no edge has.
fn level_of(length: u32) -> u8
    ensures { result ≡ level_of length }
{
    (0..11)
        .find(|level| cells::size_of(*level) == u64::from(length))
        .unwrap_or(11)
}

// The enquiry of a survey whose tables checks 1 to 6 pass, with this corner table in force.
fn enquire_in_force(passed: Passed<'_>, clearance: f32, edge: AskedEdge) -> Result<Edge, Refusal>
    ensures { answered result ≡ enquiry passed.entry.cells.now passed.entry.corners.now clearance edge.axis (lower_end edge) edge.length }
{
    checks::refusal(passed.cells, passed.corners, clearance)?;
    if edge.axis > 2 || edge.x > 1024 || edge.y > 1024 || edge.z > 1024 {
        return Err(Refusal::NoEdge);
    }
    let survey = Survey {
        cells: passed.cells,
        corners: passed.corners,
        clearance,
    };
    let key = u64::from(edge.x) + 65536 * u64::from(edge.y) + 4294967296 * u64::from(edge.z);
    answers::enquire_accepted(
        survey,
        passed.laid,
        passed.octants,
        edge.axis,
        key,
        level_of(edge.length),
    )
}

// The same where there are amendments: 14 and 15, then the enquiry with the corner table as amended.
fn enquire_amended(
    passed: Passed<'_>,
    amendments: &[u8],
    clearance: f32,
    edge: AskedEdge,
) -> Result<Edge, Refusal>
    ensures { answered result ≡ enquiry_amended passed.entry.cells.now passed.entry.corners.now amendments.now clearance edge.axis
        (lower_end edge) edge.length }
{
    let mut table = [0u8; records::LIMIT];
    let amended = passed.amended(amendments, &mut table)?;
    enquire_in_force(amended, clearance, edge)
}

// The edge enquiry of a survey as amended: document 01, "Edges, points and places", and document 02, requests 1 and 6.
pub fn enquire(
    cells: &[u8],
    corners: &[u8],
    amendments: &[u8],
    clearance: f32,
    edge: AskedEdge,
) -> Result<Edge, Refusal>
    ensures exact { answered result ≡ enquiry_amended cells.now corners.now amendments.now clearance edge.axis
        (lower_end edge) edge.length }
    ensures on_edge { StaysOn (survey_of cells.now (amended corners.now amendments.now) clearance)
        (asked edge.axis (lower_end edge) edge.length) (answered result) }
{
    let mut laid = [0u64; 2049];
    let mut octants = [0u16; 16392];
    let passed = Passed::read(cells, corners, &mut laid, &mut octants)?;
    if amendments.is_empty() {
        return enquire_in_force(passed, clearance, edge);
    }
    enquire_amended(passed, amendments, clearance, edge)
}
