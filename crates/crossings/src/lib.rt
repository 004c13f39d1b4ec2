// The points of every cell's twelve edges and its wet corners, as one table: what the faces of leaves are drawn from. Uses records, cells and
// edges, and the table that octants describes.
#![tactic(auto)]

ghost use Rattle.std.specs.Prelude.{◌≡◌, map, unwrap_or, ◌*◌, ◌/◌, ◌≤◌, ◌<◌, length};
ghost use Rattle.rules.specs.Survey.{corners_of, leaf_of, wet};
ghost use Rattle.cells.specs.Laid.{cell_at};
ghost use Rattle.octants.specs.Octants.{Octants};
ghost use Rattle.edges.specs.Surveyed.{surveyed};
ghost use Rattle.crossings.specs.Crossings.{edge_at, crossing_of, binary, Crossings};
ghost use Rattle.crossings.specs.Filling.{Known, PointsTo};

use edges::{Edges, Survey, twelve};
use rules::Leaf;

mod corners;

// What stands in the table in place of the point of an even edge.
const EVEN: u16 = 65535;

// What the table is filled from: the edges of a survey, which of its corner records are wet, and the corners and levels of its cells.
#[derive(Clone, Copy)]
struct Tables<'a, 'b, 'c> {
    edges: Edges<'a, 'b>,
    wets: &'c [u8],
    octants: &'c [u16],
    laid: &'c [u64],
    ghost known: { Known edges.survey.cells.now edges.survey.corners.now edges.survey.clearance wets.now edges.slots.now octants.now laid.now },
}

// Takes up the leaf of record `n` with its eight corners side by side.
pub fn leaf_at(survey: &Survey<'_>, octants: &[u16], n: usize) -> Leaf
    requires octants { Octants survey.now.cells.now survey.now.corners.now octants.now }
    requires n_in_bounds { n < length survey.now.cells.now / 4 }
    ensures { result ≡ leaf_of (corners_of survey.now.corners.now) (cell_at survey.now.cells.now n) }
{
    Leaf {
        corners: std::array::from_fn(|i| corners::octant_corner(survey, octants, n, i)),
    }
}

// The wet corners of a leaf as a number: digit i in base two is 1 if corner i is wet.
pub fn wet_mask(leaf: Leaf, clearance: f32) -> u16
    requires { length leaf.corners ≡ 8 }
    ensures { result ≡ binary (map (wet clearance) leaf.corners) }
{
    let mut mask: u16 = 0;
    for i in (0usize..8).rev() {
        mask = u16::from(records::is_wet(leaf.corners[i], clearance)) + 2 * mask;
    }
    mask
}

impl Tables<'_, '_, '_> {
    // The point of edge `e` of the cell of record `n`; none where the edge is even.
    fn crossing(&self, n: usize, e: usize) -> Option<u16>
        requires { (n < length self.now.edges.survey.cells.now / 4) × (e < 12) }
        ensures { unwrap_or result 65535 ≡ crossing_of (surveyed self.now.edges.survey) (edge_at (cell_at self.now.edges.survey.cells.now n) e) }
    {
        let start = corners::octant_record(self.octants, n, twelve::start_of(e));
        let end = corners::octant_record(self.octants, n, twelve::end_of(e));
        if self.wets[start] == self.wets[end] {
            return None;
        }
        let level = cells::level_in(self.laid, n);
        Some(self.edges.point_of(self.wets, (e / 4) as u32, start, level))
    }

    // Fills in the points of the edges of all cells, twelve for each.
    fn fill_points(&self, crossings: &mut [u16])
        requires { 13 * (length self.now.edges.survey.cells.now / 4) ≤ length crossings.old }
        ensures { PointsTo (surveyed self.now.edges.survey) self.now.edges.survey.cells.now (12 * (length self.now.edges.survey.cells.now / 4))
            crossings.new }
    {
        for i in 0..12 * (self.edges.survey.cells.len() / 4) {
            crossings[13 * (i / 12) + i % 12] = self.crossing(i / 12, i % 12).unwrap_or(EVEN);
        }
    }

    // Fills in the wet corners of all cells, beside their points.
    fn fill_masks(&self, crossings: &mut [u16])
        requires { PointsTo (surveyed self.now.edges.survey) self.now.edges.survey.cells.now (12 * (length self.now.edges.survey.cells.now / 4))
            crossings.old }
        ensures { Crossings (surveyed self.now.edges.survey) self.now.edges.survey.cells.now crossings.new }
    {
        for n in 0..self.edges.survey.cells.len() / 4 {
            let leaf = leaf_at(&self.edges.survey, self.octants, n);
            crossings[13 * n + 12] = wet_mask(leaf, self.edges.survey.clearance);
        }
    }
}

// The table of all cells' crossings.
pub fn fill(
    edges: &Edges<'_, '_>,
    wets: &[u8],
    octants: &[u16],
    laid: &[u64],
    crossings: &mut [u16],
)
    requires known { Known edges.now.survey.cells.now edges.now.survey.corners.now edges.now.survey.clearance wets.now edges.now.slots.now octants.now
        laid.now }
    requires cells_in_bounds { 13 * (length edges.now.survey.cells.now / 4) ≤ length crossings.old }
    ensures { Crossings (surveyed edges.now.survey) edges.now.survey.cells.now crossings.new }
{
    let tables = Tables {
        edges: *edges,
        wets,
        octants,
        laid,
    };
    tables.fill_points(crossings);
    tables.fill_masks(crossings);
}
