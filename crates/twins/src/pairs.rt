// Twins: the climb from a point to the first even edge above.
ghost use Rattle.std.specs.Prelude.{◌≡◌, ◌-◌, ◌*◌, ◌/◌, ◌%◌, ◌^◌, ◌≤◌, ◌<◌, T, length, MatchOption};
ghost use Rattle.base.specs.Grid.{axis_of};
ghost use Rattle.rules.specs.Survey.{record_count};
ghost use Rattle.rules.specs.Steps.{is_upper, twin, number_else, twin_of};
ghost use Rattle.records.specs.Keys.{places_of};
ghost use Rattle.edges.specs.Searching.{key_unit};
ghost use Rattle.edges.specs.Tables.{place_at, crossed_slot, slots_below, lowest_at, Numbered, Wets, Carriers, OddEdge, UpperEnd};
ghost use Rattle.edges.specs.Surveyed.{surveyed};
ghost use Rattle.twins.specs.Risen.{NoneAbove, Risen};

use edges::{Edges, ends, keys, table};

// The edge is the upper half of the edge above it.
fn is_upper(corners: &[u8], axis: u32, k: usize, level: u8) -> bool
    requires { (k < record_count corners.now) × (level ≤ 10) }
    ensures { result ≡ is_upper (axis_of axis) (place_at (places_of corners.now) k) level }
{
    let size = cells::size_of(level);
    let v = u64::from(places::coordinate(records::corner_at(corners, k), axis));
    v / size % 2 == 1
}

// The key of the place that is the length of an edge of this level back on an axis.
fn step_back(key: u64, axis: u32, level: u8) -> u64
    requires { (2 ^ level * key_unit (axis_of axis) ≤ key) × (level ≤ 10) }
    ensures { result ≡ key - 2 ^ level * key_unit (axis_of axis) }
{
    key - cells::size_of(level) * keys::unit(axis)
}

// The edge above an edge: the records at which it starts and ends, and at which its other half starts.
#[derive(Clone, Copy)]
struct Above {
    start: usize,
    end: usize,
    other: usize,
}

// From the edge of this level from record k to record `end` to the edge above, if some cell has it. For a lower half it starts at the same record, so no
// search is needed.
fn edge_above(edges: &Edges<'_, '_>, axis: u32, k: usize, end: usize, level: u8) -> Option<Above>
    requires { (axis < 3)
        × OddEdge edges.now.survey.cells.now edges.now.survey.corners.now edges.now.survey.clearance (axis_of axis) k level
        × UpperEnd edges.now.survey.corners.now (axis_of axis) k level end }
    ensures { MatchOption result (NoneAbove edges.now.survey.cells.now edges.now.survey.corners.now (axis_of axis) k level)
        (λ up. Risen edges.now.survey.cells.now edges.now.survey.corners.now (axis_of axis) k level up.start up.end up.other) }
{
    let corners = edges.survey.corners;
    if is_upper(corners, axis, k, level) {
        let key = step_back(records::key_at(corners, k), axis, level);
        let start = edges.edge_record(axis, key, level + 1);
        if start >= corners.len() / records::SIZE {
            return None;
        }
        return Some(Above {
            start,
            end,
            other: start,
        });
    }
    if table::highest(edges.slots, 4872 * (axis as usize) + k) < level + 1 {
        return None;
    }
    Some(Above {
        start: k,
        end: ends::upper_end(edges.survey.cells, corners, edges.slots, axis, end, level),
        other: end,
    })
}

// The twin of point v, which a slot carries: from the edge there up to the first even edge above, and down its other half.
fn climb(edges: &Edges<'_, '_>, wets: &[u8], slot: usize, v: u16) -> u16
    requires wets { Wets edges.now.survey.corners.now edges.now.survey.clearance wets.now }
    requires numbered { Numbered edges.now.survey.cells.now edges.now.survey.corners.now edges.now.survey.clearance edges.now.slots.now }
    requires slot_bound { (slot < 14616) × T (crossed_slot (surveyed edges.now.survey) slot) }
    ensures { result ≡ number_else (surveyed edges.now.survey) v
        (twin (surveyed edges.now.survey) 10 (axis_of (slot / 4872))
        (place_at (places_of edges.now.survey.corners.now) (slot % 4872)) (lowest_at edges.now.slots.now slot)) }
{
    let axis = (slot / 4872) as u32;
    let mut k = slot % 4872;
    let mut end = usize::from(table::far(edges.slots, slot));
    let mut level = table::lowest(edges.slots, slot);
    loop {
        let Some(above) = edge_above(edges, axis, k, end, level) else {
            return v;
        };
        k = above.start;
        end = above.end;
        if wets[k] == wets[end] {
            return edges.point_of(wets, axis, above.other, level);
        }
        level += 1;
    }
}

// The twin of point v.
pub fn twin_of(edges: &Edges<'_, '_>, wets: &[u8], carriers: &[u16], v: usize) -> u16
    requires wets { Wets edges.now.survey.corners.now edges.now.survey.clearance wets.now }
    requires numbered { Numbered edges.now.survey.cells.now edges.now.survey.corners.now edges.now.survey.clearance edges.now.slots.now }
    requires carriers { Carriers (surveyed edges.now.survey) carriers.now }
    requires v_in_bounds { (v < length (slots_below (surveyed edges.now.survey) 14616)) × (v < 14616) }
    ensures { result ≡ twin_of (surveyed edges.now.survey) v }
{
    climb(edges, wets, usize::from(carriers[v]), v as u16)
}
