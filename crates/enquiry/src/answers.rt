// The enquiry of an accepted survey, from the tables.
ghost use Rattle.std.specs.Prelude.{◌≡◌, count_by, cond, ◌+◌, ◌*◌, ◌/◌, ◌≤◌, ◌<◌, T, eqb, length};
ghost use Rattle.std.specs.List.{range_with_len};
ghost use Rattle.base.specs.Grid.{Place, axis_of};
ghost use Rattle.rules.specs.Survey.{record_count};
ghost use Rattle.rules.specs.Outputs.{answered};
ghost use Rattle.records.specs.Keys.{key_of, Short};
ghost use Rattle.cells.specs.Laid.{Laid};
ghost use Rattle.octants.specs.Octants.{Octants};
ghost use Rattle.edges.specs.Tables.{crossed_slot, slots_below, Wets};
ghost use Rattle.edges.specs.Surveyed.{surveyed};
ghost use Rattle.enquiry.specs.Enquiry.{edge_answer};
ghost use Rattle.rules.specs.declared.End.TheVariants.{Lower, Upper};

use edges::{Edges, Survey};
use rules::{Edge, End, Refusal};

// The wet end of an odd edge, by the mark of its upper end.
fn wet_end(mark: u8) -> End
    ensures { result ≡ cond (eqb mark 0) Lower Upper }
{
    if mark == 0 { End::Lower } else { End::Upper }
}

// How many of the slots of an axis are crossed, of those of the first `count` corner records. Each is added as 0 or 1: a processor can't foretell a branch on it.
fn count_on_axis(edges: &Edges<'_, '_>, wets: &[u8], axis: usize, count: usize) -> usize
    requires wets { Wets edges.now.survey.corners.now edges.now.survey.clearance wets.now }
    requires axis_bound { (axis < 3) × (count ≤ 4872) }
    ensures { result ≡ count_by (λ k. crossed_slot (surveyed edges.now.survey) (4872 * axis + k)) (range_with_len 0 count) }
{
    let mut crossed: usize = 0;
    for k in 0..count {
        crossed += usize::from(edges.is_crossed(wets, 4872 * axis + k));
    }
    crossed
}

// How many crossed slots come before a crossed one: on the axes before its own, then on its own.
fn count_crossed(edges: &Edges<'_, '_>, wets: &[u8], slot: usize) -> usize
    requires wets { Wets edges.now.survey.corners.now edges.now.survey.clearance wets.now }
    requires slot_bound { (slot < 14616) × T (crossed_slot (surveyed edges.now.survey) slot) }
    ensures { result ≡ length (slots_below (surveyed edges.now.survey) slot) }
{
    let count = edges.survey.corners.len() / records::SIZE;
    let mut n: usize = 0;
    for axis in 0..slot / 4872 {
        n += count_on_axis(edges, wets, axis, count);
    }
    n + count_on_axis(edges, wets, slot / 4872, slot % 4872)
}

// The answer of the enquiry from the tables, by the key of the edge's lower end.
fn edge_answer(
    edges: &Edges<'_, '_>,
    wets: &[u8],
    axis: u32,
    key: u64,
    level: u8,
) -> Result<Edge, Refusal>
    requires wets { Wets edges.now.survey.corners.now edges.now.survey.clearance wets.now }
    requires axis_bound { axis < 3 }
    ensures { (p : Place) → Short p → key ≡ key_of p →
        answered result ≡ edge_answer edges.now.survey.cells.now edges.now.survey.corners.now edges.now.survey.clearance
        (axis_of axis) p level }
{
    let Survey { cells, corners, .. } = edges.survey;
    let start = edges.edge_record(axis, key, level);
    if start >= corners.len() / records::SIZE {
        return Err(Refusal::NoEdge);
    }
    let end = edges::ends::upper_end(cells, corners, edges.slots, axis, start, level);
    let lower = wets[start];
    let upper = wets[end];
    if lower == upper {
        return Ok(Edge::Even);
    }
    let slot = edges.carrier_slot(wets, axis, start, level);
    let place = edges.slot_point(slot);
    let n = count_crossed(edges, wets, slot) as u32;
    Ok(Edge::Crossing(n, place.x, place.y, place.z, wet_end(upper)))
}

// The enquiry of an accepted survey: the tables of its edges, and the answer from them.
pub fn enquire_accepted(
    survey: Survey<'_>,
    laid: &[u64],
    octants: &[u16],
    axis: u32,
    key: u64,
    level: u8,
) -> Result<Edge, Refusal>
    requires laid { Laid survey.cells.now laid.now × (length survey.cells.now / 4 ≤ length laid.now) }
    requires octants { Octants survey.cells.now survey.corners.now octants.now }
    requires axis_bound { axis < 3 }
    ensures { (p : Place) → Short p → key ≡ key_of p →
        answered result ≡ edge_answer survey.entry.cells.now survey.entry.corners.now survey.entry.clearance (axis_of axis) p level }
{
    let mut slots = [edges::table::EMPTY; 43848];
    let mut wets = [0u8; 4872];
    edges::fill_levels(survey.cells, survey.corners, octants, laid, &mut slots);
    edges::fill_wets(survey.corners, survey.clearance, &mut wets);
    let edges = Edges {
        survey,
        slots: &slots,
    };
    edge_answer(&edges, &wets, axis, key, level)
}
