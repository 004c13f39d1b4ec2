// Corners by the table of cells' corners.
ghost use Rattle.std.specs.Prelude.{◌≡◌, ◌+◌, ◌*◌, ◌/◌, ◌<◌, length, get_or};
ghost use Rattle.rules.specs.Survey.{corners_of, corner_at};
ghost use Rattle.octants.specs.Octants.{octant_of, Octants};

use edges::Survey;
use rules::Corner;

// The corner record at corner i of the cell of record `n`.
pub fn octant_record(octants: &[u16], n: usize, i: usize) -> usize
    requires { 8 * n + i < length octants.now }
    ensures { result ≡ get_or octants.now (8 * n + i) 0 }
{
    usize::from(octants[8 * n + i])
}

// Corner i of the cell of record `n`, taken up from the corner table.
pub fn octant_corner(survey: &Survey<'_>, octants: &[u16], n: usize, i: usize) -> Corner
    requires octants { Octants survey.now.cells.now survey.now.corners.now octants.now }
    requires n_in_bounds { (n < length survey.now.cells.now / 4) × (i < 8) }
    ensures { result ≡ corner_at (corners_of survey.now.corners.now) (octant_of survey.now.cells.now n i) }
{
    records::corner_at(survey.corners, octant_record(octants, n, i))
}
