// Edges and crossing points of a survey: the table of slots (levels and numbers), the point of an odd edge, and the writer of all points.
// Uses digits, records, reader, cells and places, and the tables that cells and octants describe. specs/ says what each table holds.
// An accepted survey and its edges are types, `Survey` and `Edges`: what is known of their bytes and of the table of slots stands in their ghost fields.
#![tactic(auto)]

ghost use Rattle.std.specs.Prelude.{◌≡◌, true, ◌&&◌, ◌||◌, [], ◌+◌, ◌*◌, ◌/◌, ◌%◌, ◌≤◌, ◌<◌, T, length, set};
ghost use Rattle.base.specs.Lists.{bit};
ghost use Rattle.base.specs.Grid.{Place, axis_of};
ghost use Rattle.rules.specs.Survey.{corners_of, place_of};
ghost use Rattle.rules.specs.Edges.{edge, point_edges, point_of, spot_on};
ghost use Rattle.rules.specs.OpenAtBox.{is_outer, open_at_box};
ghost use Rattle.rules.specs.Outputs.{corner_limit, rising, survey_refusal, point_floats, written};
ghost use Rattle.records.specs.Keys.{key_of, places_of, Short};
ghost use Rattle.places.specs.Places.{as_spot};
ghost use Rattle.cells.specs.Laid.{Laid};
ghost use Rattle.octants.specs.Octants.{Octants};
ghost use Rattle.edges.specs.Tables.{place_at, crossed_slot, slot_edge, Levels, Levelled, Numbered, Wets, Carriers, OddEdge, Sought};
ghost use Rattle.edges.specs.Surveyed.{surveyed};

use places::Point;
use rules::Corner;
pub use survey::{Edges, Survey};

pub mod ends;
pub mod keys;
mod noting;
mod survey;
pub mod table;
pub mod twelve;

// The levels and upper ends of the table of slots, filled: of the edges of all cells, record by record.
pub fn fill_levels(cells: &[u8], corners: &[u8], octants: &[u16], laid: &[u64], slots: &mut [u16])
    requires corners_value { survey_refusal cells.now corners.now ≡ 0 }
    requires octants { Octants cells.now corners.now octants.now }
    requires laid { Laid cells.now laid.now × (length cells.now / 4 ≤ length laid.now) }
    requires levels { Levels corners.now [] slots.old }
    ensures { Levelled cells.now corners.now slots.new }
{
    for n in (0..cells.len() / 4).rev() {
        let level = cells::level_in(laid, n);
        noting::note_cell(cells, corners, octants, slots, n, level);
    }
}

// The pool is open at the box if it was before, or if this corner is wet and on an outer face.
fn opens(opened: bool, corner: Corner, wet: bool) -> bool
    ensures { result ≡ opened || (is_outer (place_of corner) && wet) }
{
    opened || (records::is_outer(corner) && wet)
}

// The table of wetness, filled: 1 for each corner record that is wet at the clearance, else 0. Whether the pool is open at the box, which check 12 asks, comes
// with the same pass.
pub fn fill_wets(corners: &[u8], clearance: f32, wets: &mut [u8]) -> bool
    requires corners_value { rising (places_of corners.now) ≡ true }
    requires wets_len { (length wets.old ≡ 4872) × (length corners.now ≤ corner_limit) }
    ensures value { result ≡ open_at_box corners.now clearance }
    ensures wets { Wets corners.now clearance wets.new }
{
    let count = corners.len() / records::SIZE;
    let mut opened = false;
    for k in 0..count {
        let corner = records::corner_at(corners, k);
        let wet = records::is_wet(corner, clearance);
        wets[k] = u8::from(wet);
        opened = opens(opened, corner, wet);
    }
    opened
}

// Enters a slot as the carrier of point n; the number of points then. A slot that is not crossed is entered too, and the next one takes its place: a processor
// can't foretell a branch on it.
fn enter(carriers: &mut [u16], n: usize, slot: usize, crossed: bool) -> usize
    requires { (n < length carriers.old) × (length carriers.old ≡ 14616) × (slot < 14616) }
    ensures { (result ≡ n + bit crossed) × (carriers.new ≡ set carriers.old n slot) }
{
    carriers[n] = slot as u16;
    n + usize::from(crossed)
}

// Numbers the points in one pass over the slots: for each slot of a corner record the crossed ones before it, for each point the slot that carries it. How many
// points there are.
pub fn number_slots(
    survey: &Survey<'_>,
    wets: &[u8],
    slots: &mut [u16],
    carriers: &mut [u16],
) -> usize
    requires wets { Wets survey.now.corners.now survey.now.clearance wets.now }
    requires levelled { Levelled survey.now.cells.now survey.now.corners.now slots.old }
    requires carriers_len { length carriers.old ≡ 14616 }
    ensures value { result ≡ length (point_edges (surveyed survey.now)) }
    ensures numbered { Numbered survey.now.cells.now survey.now.corners.now survey.now.clearance slots.new }
    ensures carriers { Carriers (surveyed survey.now) carriers.new }
{
    let count = survey.corners.len() / records::SIZE;
    let mut n: usize = 0;
    // The slots of an axis behind those of the records are jumped over, so this is a walk.
    let mut slot: usize = 0;
    while slot < 14616 {
        if slot % 4872 >= count {
            slot = slot / 4872 * 4872 + 4872;
            continue;
        }
        let edges = Edges {
            survey: *survey,
            slots,
        };
        let crossed = edges.is_crossed(wets, slot);
        slots[3 * slot + 2] = n as u16;
        n = enter(carriers, n, slot, crossed);
        slot += 1;
    }
    n
}

impl Edges<'_, '_> {
    // The edge of the lowest level at a slot is crossed.
    pub fn is_crossed(&self, wets: &[u8], slot: usize) -> bool
        requires wets { Wets self.now.survey.corners.now self.now.survey.clearance wets.now }
        requires slot_bound { slot < 14616 }
        ensures { result ≡ crossed_slot (surveyed self.now.survey) slot }
    {
        let k = slot % 4872;
        if k >= self.survey.corners.len() / records::SIZE {
            return false;
        }
        if table::lowest(self.slots, slot) > 10 {
            return false;
        }
        let end = usize::from(table::far(self.slots, slot));
        wets[k] != wets[end]
    }

    // The point of an odd edge: the number of the slot that carries it.
    pub fn point_of(&self, wets: &[u8], axis: u32, start: usize, top: u8) -> u16
        requires wets { Wets self.now.survey.corners.now self.now.survey.clearance wets.now }
        requires numbered { Numbered self.now.survey.cells.now self.now.survey.corners.now self.now.survey.clearance self.now.slots.now }
        requires axis_bound { (axis < 3) × OddEdge self.now.survey.cells.now self.now.survey.corners.now self.now.survey.clearance (axis_of axis) start top }
        ensures { result ≡ point_of (surveyed self.now.survey)
            (edge (axis_of axis) (place_at (places_of self.now.survey.corners.now) start) top) }
    {
        let slot = self.carrier_slot(wets, axis, start, top);
        table::number(self.slots, slot)
    }

    // The corner record at which the edge of this level from the place with this key starts; the number of records where no cell has the edge.
    pub fn edge_record(&self, axis: u32, key: u64, level: u8) -> usize
        requires { axis < 3 }
        ensures { (p : Place) → Short p → key ≡ key_of p →
            Sought self.now.survey.cells.now self.now.survey.corners.now (axis_of axis) p level result }
    {
        let count = self.survey.corners.len() / records::SIZE;
        let k = reader::find(self.survey.corners, key);
        if k >= count {
            return count;
        }
        let slot = 4872 * (axis as usize) + k;
        if level < table::lowest(self.slots, slot) {
            return count;
        }
        if table::highest(self.slots, slot) < level {
            return count;
        }
        k
    }

    // The place of the point of a crossed slot.
    pub fn slot_point(&self, slot: usize) -> Point
        requires { (slot < 14616) × T (crossed_slot (surveyed self.now.survey) slot) }
        ensures { as_spot result ≡ spot_on (corners_of self.now.survey.corners.now) self.now.survey.clearance
            (slot_edge (surveyed self.now.survey) slot) }
    {
        let end = usize::from(table::far(self.slots, slot));
        let level = table::lowest(self.slots, slot);
        ends::edge_point(
            self.survey.corners,
            self.survey.clearance,
            (slot / 4872) as u32,
            slot % 4872,
            end,
            level,
        )
    }

    // Writes the places of the n points, three floats each; elements past the last are untouched.
    pub fn write_points(&self, carriers: &[u16], n: usize, points: &mut [f32])
        requires carriers { Carriers (surveyed self.now.survey) carriers.now }
        requires n_value { (n ≡ length (point_edges (surveyed self.now.survey))) × (3 * n ≤ length points.old) }
        ensures { points.new ≡
            written (point_floats self.now.survey.cells.now self.now.survey.corners.now self.now.survey.clearance) points.old }
    {
        for v in 0..n {
            places::put_point(points, v, self.slot_point(usize::from(carriers[v])));
        }
    }
}
