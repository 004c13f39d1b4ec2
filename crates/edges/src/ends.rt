// Edges by the corner record at which they start: their upper end, their odd half, the slot that carries their point, and the place of a point.
ghost use Rattle.std.specs.Prelude.{◌≡◌, true, not, cond, ◌/◌, ◌≤◌, ◌<◌, T, eqb, length, get_or};
ghost use Rattle.base.specs.Grid.{axis_of};
ghost use Rattle.rules.specs.Survey.{record_count, cells_of, corners_of};
ghost use Rattle.rules.specs.Edges.{edge, is_edge, spot_on};
ghost use Rattle.rules.specs.Outputs.{survey_refusal};
ghost use Rattle.places.specs.Places.{as_spot};
ghost use Rattle.records.specs.Keys.{places_of};
ghost use Rattle.edges.specs.Tables.{place_at, Wets, Levelled, UpperEnd, OddEdge, CarrierSlot};
ghost use Rattle.edges.specs.Searching.{Corners};
ghost use Rattle.edges.specs.Surveyed.{surveyed};

use super::{Edges, keys, table};
use places::Point;

// The record at the upper end of the edge of this level that starts at record k on an axis: from the table for the lowest level there, else by a search.
pub fn upper_end(
    cells: &[u8],
    corners: &[u8],
    slots: &[u16],
    axis: u32,
    k: usize,
    level: u8,
) -> usize
    requires corners_value { survey_refusal cells.now corners.now ≡ 0 }
    requires levelled { Levelled cells.now corners.now slots.now }
    requires axis_bound { (axis < 3) × (k < record_count corners.now)
        × T (is_edge (cells_of cells.now) (axis_of axis) (place_at (places_of corners.now) k) level) }
    ensures { UpperEnd corners.now (axis_of axis) k level result }
{
    let slot = 4872 * (axis as usize) + k;
    if table::lowest(slots, slot) == level {
        return usize::from(table::far(slots, slot));
    }
    reader::find(
        corners,
        keys::step(records::key_at(corners, k), axis, level),
    )
}

// Of an odd edge that is divided, the record at which its odd half starts: its own start, or its middle.
pub fn odd_half(wets: &[u8], k: usize, middle: usize) -> usize
    requires { (k < length wets.now) × (middle < length wets.now) }
    ensures { result ≡ cond (not (eqb (get_or wets.now k 0) (get_or wets.now middle 0))) k middle }
{
    if wets[k] != wets[middle] {
        return k;
    }
    middle
}

impl Edges<'_, '_> {
    // The slot of the edge that carries the point of an odd edge: down to its odd half while it is divided.
    pub fn carrier_slot(&self, wets: &[u8], axis: u32, start: usize, top: u8) -> usize
        requires wets { Wets self.now.survey.corners.now self.now.survey.clearance wets.now }
        requires axis_bound { (axis < 3) × OddEdge self.now.survey.cells.now self.now.survey.corners.now self.now.survey.clearance (axis_of axis) start top }
        ensures { CarrierSlot (surveyed self.now.survey) (axis_of axis)
            (place_at (places_of self.now.survey.corners.now) start) top result }
    {
        let mut k = start;
        let mut level = top;
        while table::lowest(self.slots, 4872 * (axis as usize) + k) < level {
            level -= 1;
            let middle = upper_end(
                self.survey.cells,
                self.survey.corners,
                self.slots,
                axis,
                k,
                level,
            );
            k = odd_half(wets, k, middle);
        }
        4872 * (axis as usize) + k
    }
}

// The place of the point on an odd edge between two corner records: reckoned from its dry end.
pub fn edge_point(
    corners: &[u8],
    clearance: f32,
    axis: u32,
    k: usize,
    end: usize,
    level: u8,
) -> Point
    requires corners { Corners corners.now }
    requires k_bound { (k < record_count corners.now) × (level ≤ 10) × UpperEnd corners.now (axis_of axis) k level end }
    ensures { as_spot result ≡ spot_on (corners_of corners.now) clearance (edge (axis_of axis) (place_at (places_of corners.now) k) level) }
{
    let lower = records::corner_at(corners, k);
    let upper = records::corner_at(corners, end);
    places::point_of(lower, upper, axis, cells::size_of(level) as u16, clearance)
}
