// The call that shows a way: document 02, request 8. It makes the table of links from the slots of edges, and searches it. Uses checks, edges and graph.
#![tactic(auto)]

ghost use Rattle.std.specs.Prelude.{◌≡◌, true, [], ◌+◌, ◌*◌, ◌≤◌, ◌<◌, length, replicate};
ghost use Rattle.rules.specs.Survey.{record_count};
ghost use Rattle.rules.specs.Refusals.{outcome};
ghost use Rattle.rules.specs.Outputs.{accepted, first_of};
ghost use Rattle.rules.specs.Resounding.{amended};
ghost use Rattle.rules.specs.Ways.{corner_graph, asked_checks, shown_over, passage, passage_amended, Means};
ghost use Rattle.edges.specs.Tables.{lowest_at, far_at, Wets};
ghost use Rattle.graph.specs.Table.{Links};
ghost use Rattle.ways.specs.Shows.{Shows, shown_by, passage_from};
ghost use Rattle.ways.specs.Linked.{linked_at};

use checks::Passed;
use edges::{Edges, Survey};
use rules::{Passage, Refusal};

// Links corner k and the upper end of its undivided edge on an axis both ways, if both are wet.
fn link(wets: &[u8], slots: &[u16], axis: usize, k: usize, links: &mut [u16])
    requires slots_len { (length slots.now ≡ 43848) × (axis < 3) × (k < 4872) × (length wets.now ≡ 4872) × (length links.old ≡ 29232) }
    requires k_bound { lowest_at slots.now (4872 * axis + k) ≤ 10 → far_at slots.now (4872 * axis + k) < 4872 }
    ensures { links.new ≡ linked_at wets.now slots.now axis k links.old }
{
    let slot = 4872 * axis + k;
    if edges::table::lowest(slots, slot) > 10 {
        return;
    }
    if wets[k] != 1 {
        return;
    }
    let far = edges::table::far(slots, slot);
    let end = usize::from(far);
    if wets[end] != 1 {
        return;
    }
    links[6 * k + (3 + axis)] = far;
    links[6 * end + axis] = k as u16;
}

// The table of links, filled: for each wet corner those that undivided edges join it to and that are wet too.
fn fill_links(edges: &Edges<'_, '_>, wets: &[u8], links: &mut [u16])
    requires wets { Wets edges.now.survey.corners.now edges.now.survey.clearance wets.now }
    requires none_linked { links.old ≡ replicate 29232 4883 }
    ensures { Links (corner_graph edges.now.survey.cells.now edges.now.survey.corners.now edges.now.survey.clearance) links.new }
{
    let slots = edges.slots;
    let count = edges.survey.corners.len() / records::SIZE;
    for k in 0..count {
        link(wets, slots, 0, k, links);
        link(wets, slots, 1, k, links);
        link(wets, slots, 2, k, links);
    }
}

// What is asked besides the survey: at which clearance, from which corner and to which.
#[derive(Clone, Copy)]
struct Asked {
    clearance: f32,
    start: u32,
    end: u32,
}

// Shows the way over the links of a survey, and gives the corners their ranks. How many corners the way has.
fn show(
    survey: &Survey<'_>,
    start: usize,
    end: usize,
    wets: &[u8],
    links: &[u16],
    way: &mut [u16],
    work: &mut [u16],
) -> Result<u32, Refusal>
    requires wets { Wets survey.now.corners.now survey.now.clearance wets.now }
    requires links { Links (corner_graph survey.now.cells.now survey.now.corners.now survey.now.clearance) links.now }
    requires ends { (start < record_count survey.now.corners.now) × (end < record_count survey.now.corners.now) }
    requires room { (record_count survey.now.corners.now ≤ length way.old) × (record_count survey.now.corners.now ≤ length work.old) }
    ensures { Shows (shown_over (corner_graph survey.now.cells.now survey.now.corners.now survey.now.clearance) [] start end
        way.old work.old) (passage_from result) way.new work.new }
{
    let count = survey.corners.len() / records::SIZE;
    if wets[start] != 1 {
        graph::clear(work, count);
        return Err(Refusal::NoWay);
    }
    graph::rank_corners(links, count, start, work);
    let n = work[end];
    if n == 0 {
        return Err(Refusal::NoWay);
    }
    graph::write_way(links, count, start, end, usize::from(n), way);
    Ok(u32::from(n))
}

// Checks 18 and 19: the first that applies refuses.
fn question_refusal(
    count: usize,
    start: u32,
    end: u32,
    way: usize,
    work: usize,
) -> Result<(), Refusal>
    ensures { outcome result ≡ first_of (asked_checks count start end way work) }
{
    if start as usize >= count {
        return Err(Refusal::WayEnd);
    }
    if end as usize >= count {
        return Err(Refusal::WayEnd);
    }
    if way < count {
        return Err(Refusal::WaySlice);
    }
    if work < count {
        return Err(Refusal::WaySlice);
    }
    Ok(())
}

// Finds the way in an accepted survey between two of its corners, with slices that are long enough.
fn find_accepted(
    passed: Passed,
    asked: Asked,
    way: &mut [u16],
    work: &mut [u16],
) -> Result<u32, Refusal>
    requires accepted { accepted passed.cells.now passed.corners.now asked.clearance ≡ true }
    requires ends { (asked.start < record_count passed.corners.now) × (asked.end < record_count passed.corners.now) }
    requires room { (record_count passed.corners.now ≤ length way.old) × (record_count passed.corners.now ≤ length work.old) }
    ensures { Shows (shown_over (corner_graph passed.entry.cells.now passed.entry.corners.now asked.clearance) [] asked.start asked.end
        way.old work.old) (passage_from result) way.new work.new }
{
    let mut slots = [edges::table::EMPTY; 43848];
    let mut links = [graph::NONE; graph::LINKS];
    let mut wets = [0u8; 4872];
    let survey = Survey {
        cells: passed.cells,
        corners: passed.corners,
        clearance: asked.clearance,
    };
    edges::fill_wets(survey.corners, survey.clearance, &mut wets);
    edges::fill_levels(
        survey.cells,
        survey.corners,
        passed.octants,
        passed.laid,
        &mut slots,
    );
    let edges = Edges {
        survey,
        slots: &slots,
    };
    fill_links(&edges, &wets, &mut links);
    show(
        &survey,
        asked.start as usize,
        asked.end as usize,
        &wets,
        &links,
        way,
        work,
    )
}

// Finds the way in a survey with this corner table in force.
fn find_in_force(
    passed: Passed,
    asked: Asked,
    way: &mut [u16],
    work: &mut [u16],
) -> Result<u32, Refusal>
    ensures { Shows (passage passed.entry.cells.now passed.entry.corners.now asked.clearance asked.start asked.end way.old
        work.old) (passage_from result) way.new work.new }
{
    checks::refusal(passed.cells, passed.corners, asked.clearance)?;
    question_refusal(
        passed.corners.len() / records::SIZE,
        asked.start,
        asked.end,
        way.len(),
        work.len(),
    )?;
    find_accepted(passed, asked, way, work)
}

// The same where there are amendments: 14 and 15, then the way with the corner table as amended.
fn find_amended(
    passed: Passed,
    amendments: &[u8],
    asked: Asked,
    way: &mut [u16],
    work: &mut [u16],
) -> Result<u32, Refusal>
    ensures { Shows (passage_amended passed.entry.cells.now passed.entry.corners.now amendments.now asked.clearance asked.start asked.end
        way.old work.old) (passage_from result) way.new work.new }
{
    let mut table = [0u8; records::LIMIT];
    let survey = passed.amended(amendments, &mut table)?;
    find_in_force(survey, asked, way, work)
}

// Finds the way in a survey, as amended, or says which check refuses.
fn find_checked(
    cells: &[u8],
    corners: &[u8],
    amendments: &[u8],
    asked: Asked,
    way: &mut [u16],
    work: &mut [u16],
) -> Result<u32, Refusal>
    ensures { Shows (passage_amended cells.now corners.now amendments.now asked.clearance asked.start asked.end
        way.old work.old) (passage_from result) way.new work.new }
{
    let mut laid = [0u64; 2049];
    let mut octants = [0u16; 16392];
    let survey = Passed::read(cells, corners, &mut laid, &mut octants)?;
    if amendments.is_empty() {
        return find_in_force(survey, asked, way, work);
    }
    find_amended(survey, amendments, asked, way, work)
}

// Finds a way from one corner to another, each by its record number, at a clearance: document 02, request 8. For every input, the result and both slices are
// those of the rules; and they mean what the request says.
pub fn find(
    cells: &[u8],
    corners: &[u8],
    amendments: &[u8],
    clearance: f32,
    start: u32,
    end: u32,
    way: &mut [u16],
    work: &mut [u16],
) -> Passage
    ensures exact { Shows (passage_amended cells.now corners.now amendments.now clearance start end
        way.old work.old) result way.new work.new }
    ensures means { Means (corner_graph cells.now (amended corners.now amendments.now) clearance) start end
        way.old work.old (shown_by result way.new work.new) }
{
    let asked = Asked {
        clearance,
        start,
        end,
    };
    match find_checked(cells, corners, amendments, asked, way, work) {
        Ok(count) => Passage {
            number: 0,
            corners: count,
        },
        Err(refusal) => Passage {
            number: u32::from(refusal),
            corners: 0,
        },
    }
}
