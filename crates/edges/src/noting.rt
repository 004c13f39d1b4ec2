// Noting the edges of a cell in the table of slots, by the table of cells' corners.
ghost use Rattle.std.specs.Prelude.{◌≡◌, ◌+◌, ◌/◌, ◌≤◌, ◌<◌, length, drop};
ghost use Rattle.rules.specs.Survey.{cells_of};
ghost use Rattle.rules.specs.Outputs.{survey_refusal};
ghost use Rattle.cells.specs.Laid.{cell_at};
ghost use Rattle.octants.specs.Octants.{Octants};
ghost use Rattle.edges.specs.Tables.{edges_of, Levels};
ghost use Rattle.edges.specs.Noting.{with_edge};

use super::{keys, table, twelve};

// Notes one edge at its slot: its level, and the corner record at its upper end.
fn note_edge(slots: &mut [u16], slot: usize, level: u8, end: u16)
    requires { (length slots.old ≡ 43848) × (slot < 14616) × (level ≤ 10) }
    ensures { slots.new ≡ with_edge slots.old slot level end }
{
    let low = table::lowest(slots, slot);
    let high = table::highest(slots, slot);
    let known = table::far(slots, slot);
    slots[3 * slot + 1] = keys::end_of_lower(level, end, low, known);
    slots[3 * slot] = u16::from(level.min(low)) + 16 * u16::from(level.max(high));
}

// Notes the edges of the cell of record `n`.
pub fn note_cell(
    cells: &[u8],
    corners: &[u8],
    octants: &[u16],
    slots: &mut [u16],
    n: usize,
    level: u8,
)
    requires corners_value { survey_refusal cells.now corners.now ≡ 0 }
    requires octants { Octants cells.now corners.now octants.now }
    requires n_in_bounds { (n < length cells.now / 4) × (level ≡ (cell_at cells.now n).level) }
    requires levels { Levels corners.now (edges_of (drop (n + 1) (cells_of cells.now))) slots.old }
    ensures { Levels corners.now (edges_of (drop n (cells_of cells.now))) slots.new }
{
    for e in (0usize..12).rev() {
        let start = usize::from(octants[8 * n + twelve::start_of(e)]);
        let end = octants[8 * n + twelve::end_of(e)];
        note_edge(slots, 4872 * (e / 4) + start, level, end);
    }
}
