// Twins of crossing points: the table of each point's twin, by climbing from its edge to the first even edge above. Uses records, cells, places and edges.
#![tactic(auto)]

ghost use Rattle.std.specs.Prelude.{◌≡◌, length};
ghost use Rattle.rules.specs.Edges.{point_edges};
ghost use Rattle.edges.specs.Tables.{Wets, Numbered, Carriers, Twins};
ghost use Rattle.edges.specs.Surveyed.{surveyed};

use edges::Edges;

mod pairs;

// The table of twins, filled for the n points.
pub fn fill(edges: &Edges<'_, '_>, wets: &[u8], carriers: &[u16], n: usize, twins: &mut [u16])
    requires wets { Wets edges.now.survey.corners.now edges.now.survey.clearance wets.now }
    requires numbered { Numbered edges.now.survey.cells.now edges.now.survey.corners.now edges.now.survey.clearance edges.now.slots.now }
    requires carriers { Carriers (surveyed edges.now.survey) carriers.now }
    requires n_value { (n ≡ length (point_edges (surveyed edges.now.survey))) × (length twins.old ≡ 14616) }
    ensures { Twins (surveyed edges.now.survey) twins.new }
{
    for v in 0..n {
        twins[v] = pairs::twin_of(edges, wets, carriers, v);
    }
}
