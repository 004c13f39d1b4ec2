// One pass over the leaves by record number: each leaf's face steps, its loops, its triangles into what is lent. Uses records, faces and loops, and the tables
// that trace, across, crossings and edges describe.
#![tactic(auto)]

ghost use Rattle.std.specs.Prelude.{◌≡◌, ◌*◌, ◌/◌, ◌<◌, min, length};
ghost use Rattle.rules.specs.Steps.{all_triangles};
ghost use Rattle.cells.specs.Laid.{cell_at};
ghost use Rattle.leaves.specs.Leaves.{TablesReady, survey, record_triangles, Drew};

// The tables that the leaves are drawn from.
#[derive(Clone, Copy)]
pub struct LeafTables<'a> {
    pub cells: &'a [u8],
    pub across: &'a [u16],
    pub crossings: &'a [u16],
    pub twins: &'a [u16],
}

impl LeafTables<'_> {
    // Draws a record: nothing where it is split; else its leaf's face steps become the trace, and the loops of the trace are drawn.
    fn draw_record(&self, trace: &mut [u16], n: usize, out: &mut [u32]) -> u32
        requires ready { TablesReady self.now trace.old }
        requires n_in_bounds { n < length self.now.cells.now / 4 }
        ensures { (d : TablesReady self.now trace.old)
            → Drew d.limit (record_triangles (survey d) (cell_at self.now.cells.now n)) out.old out.new result trace.new }
    {
        if records::cell_entry(self.cells, n) != 0 {
            return 0;
        }
        faces::leaf_steps(self.cells, self.across, self.crossings, trace, n);
        loops::draw_loops(trace, self.twins, out)
    }

    // One pass: each leaf's triangles go into the part of the slice not yet filled, as far as it goes. How many there are.
    pub fn draw_leaves(&self, trace: &mut [u16], out: &mut [u32]) -> u32
        requires { TablesReady self.now trace.old }
        ensures { (d : TablesReady self.now trace.old)
            → Drew d.limit (all_triangles (survey d)) out.old out.new result trace.new }
    {
        let mut count: u32 = 0;
        for n in 0..self.cells.len() / 4 {
            let at = (3 * count as usize).min(out.len());
            count += self.draw_record(trace, n, &mut out[at..]);
        }
        count
    }
}
