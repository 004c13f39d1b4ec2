// All triangles of a survey: drawn leaf by leaf into a scratch, which tells how many there are, and written where that is asked for and the slice has room.
// Uses leaves and the tables that it describes.
#![tactic(auto)]

ghost use Rattle.std.specs.Prelude.{◌≡◌, ◌+◌, ◌*◌, ◌%◌, ◌≤◌};
ghost use Rattle.rules.specs.Steps.{all_triangles};
ghost use Rattle.rules.specs.Outputs.{survey_of};
ghost use Rattle.leaves.specs.Leaves.{TablesReady, survey};
ghost use Rattle.triangles.specs.Settled.{Known, TablesKnown, Settled};

use leaves::LeafTables;

// Draws all leaves into the scratch, which tells how many triangles there are. Where they are to be written and the slice has room for all of them, they are
// copied from the scratch, or drawn again where that was too small.
fn settle(
    tables: &LeafTables,
    trace: &mut [u16],
    scratch: &mut [u32],
    write: bool,
    out: &mut [u32],
) -> u32
    requires { TablesReady tables.now trace.old }
    ensures { (d : TablesReady tables.now trace.old)
        → Settled (all_triangles (survey d)) write out.old out.new result }
{
    let m = tables.draw_leaves(trace, scratch);
    let end = 3 * (m as usize);
    if !write {
        return m;
    }
    if out.len() < end {
        return m;
    }
    if end <= scratch.len() {
        out[..end].copy_from_slice(&scratch[..end]);
        return m;
    }
    tables.draw_leaves(trace, out)
}

// The same with a trace of TRACE places, three for each point and one more, and a scratch for SCRATCH numbers. The arrays are made first in the function: see
// docs/ARCHITECTURE.md, "Beside the proofs".
fn draw_within<const TRACE: usize, const SCRATCH: usize>(
    tables: &LeafTables,
    n: usize,
    write: bool,
    out: &mut [u32],
) -> u32
    requires known { TablesKnown tables.now n }
    requires trace_in_bounds { (3 * n + 1 ≤ TRACE) × (TRACE ≤ 43849) × (TRACE % 3 ≡ 1) }
    requires scratch_in_bounds { SCRATCH ≤ 30720 }
    ensures { (k : TablesKnown tables.now n)
        → Settled (all_triangles (survey_of tables.now.cells.now k.corners k.clearance)) write out.old out.new result }
{
    let mut trace = [65535u16; TRACE];
    trace[0] = 0;
    let mut scratch = [0u32; SCRATCH];
    settle(tables, &mut trace, &mut scratch, write, out)
}

// The triangles of a survey with n points: how many there are. They are written where that is asked for and the slice has room for all of them. A survey
// with few points gets by with a small trace and a small scratch; the others have room for as many points as any survey has.
pub fn draw(
    cells: &[u8],
    across: &[u16],
    crossings: &[u16],
    twins: &[u16],
    n: usize,
    write: bool,
    out: &mut [u32],
) -> u32
    requires { Known cells.now across.now crossings.now twins.now n }
    ensures { (k : Known cells.now across.now crossings.now twins.now n)
        → Settled (all_triangles (survey_of cells.now k.corners k.clearance)) write out.old out.new result }
{
    let tables = LeafTables {
        cells,
        across,
        crossings,
        twins,
    };
    if n <= 512 {
        return draw_within::<1537, 3072>(&tables, n, write, out);
    }
    draw_within::<43849, 30720>(&tables, n, write, out)
}
