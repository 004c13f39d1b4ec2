// The face steps of a leaf: small faces by going down into the cell across, and the steps in each, recorded in the leaf's trace.
// Uses digits, records and trace, and the tables that across and crossings describe.
#![tactic(auto)]

ghost use Rattle.std.specs.Prelude.{◌≡◌, ◌+◌, ◌*◌, ◌/◌, ◌≤◌, ◌<◌, length, get_or, MatchOption};
ghost use Rattle.base.specs.Lists.{bit};
ghost use Rattle.trace.specs.Trace.{recorded};
ghost use Rattle.faces.specs.Patterns.{row_digit, wet_digit, step_from, first_entry};
ghost use Rattle.faces.specs.Faces.{row_corner, row_edge, row_pattern, edge_steps, row_steps, quarters, small_table_steps, side_table_steps};
ghost use Rattle.faces.specs.Faces.{leaf_table_steps, Fits, Roomy, Reaching};

// The wet pattern of a face is a number below sixteen: bit i says that corner i is wet. Corners go counter-clockwise, seen from outside the leaf, and edge i
// joins corner i and corner i + 1. Both are counted round the face, so that 0 comes after 3: 17 * pattern, which is pattern + 16 * pattern, has the four wet
// marks twice, one after the other.

// The edge to which the step that enters by edge `edge` goes in a pattern, or 4 where none enters. Wet corners lie to the right of a step. Seen from outside,
// a step that enters there has corner `edge` to its left and corner `edge + 1` to its right: so the first is dry and the second wet. It goes round the wet
// corners that follow and leaves by the edge before the first dry one, which is corner `edge` again if no other is dry. So with four odd edges each wet corner
// is cut off by its own step. The number is that of the definition `step_from`, which has 4 for none.
pub fn step_from(pattern: usize, edge: usize) -> u8
    requires { (pattern < 16) × (edge < 4) }
    ensures { result ≡ step_from pattern edge }
{
    // The wet marks from corner `edge` on, the first one lowest: if it is 0 and the second 1, the two are 2 as a number.
    let marks = (17 * pattern) >> edge;
    if marks % 4 != 2 {
        return 4;
    }
    // Without the first mark the wet corners in a row are 1s at the low end: `!` makes them 0s, which are counted.
    let wet_to_right = usize::trailing_zeros(!(marks / 2)) as usize;
    ((edge + wet_to_right) % 4) as u8
}

// Digit j of a row, where twelve rows of four digits are kept in three numbers, the first digit lowest: rows 0 to 3 in a, 4 to 7 in b, 8 to 11 in c.
fn row_digit(row: usize, j: usize, a: usize, b: usize, c: usize) -> usize
    requires { (row < 12) × (j < 4) }
    ensures { result ≡ row_digit row j a b c }
{
    if row < 4 {
        return digits::digit(a, 4 * row + j);
    }
    if row < 8 {
        return digits::digit(b, 4 * (row - 4) + j);
    }
    digits::digit(c, 4 * (row - 8) + j)
}

// The number of corner j of a row among the eight of its cell: rows 0 to 5 are a leaf's own sides, rows 6 to 11 the sides towards it of the cells across.
fn row_corner(row: usize, j: usize) -> usize
    requires { (row < 12) × (j < 4) }
    ensures { (result ≡ row_corner row j) × (result < 8) }
{
    row_digit(
        row,
        j,
        0x4510_3762_2640_5731,
        0x3751_4620_1320_6754,
        0x5764_2310_6732_1540,
    )
}

// The number of edge j of a row among the twelve of its cell.
fn row_edge(row: usize, j: usize) -> usize
    requires { (row < 12) × (j < 4) }
    ensures { (result ≡ row_edge row j) × (result < 12) }
{
    row_digit(
        row,
        j,
        0x8290_1b3a_4a58_97b6,
        0x6b79_85a4_0614_5372,
        0x2735_4160_a3b1_0928,
    )
}

// The corner of a face at which quarter i is, in the order of small faces.
fn quarter(i: usize) -> usize
    requires { i < 4 }
    ensures { (result ≡ get_or quarters i 0) × (result < 4) }
{
    digits::digit(0x2310, i)
}

// 1 if corner j of a row is wet by the mask of its cell's wet corners, else 0.
fn row_mark(mask: u16, row: usize, j: usize) -> usize
    requires { (row < 12) × (j < 4) }
    ensures { (result ≡ bit (wet_digit mask (row_corner row j))) × (result ≤ 1) }
{
    (usize::from(mask) >> row_corner(row, j)) % 2
}

// The wet pattern of a row of record m.
fn row_pattern(crossings: &[u16], row: usize, m: usize) -> usize
    requires { (row < 12) × (13 * m + 13 ≤ length crossings.now) }
    ensures { (result ≡ row_pattern crossings.now row m) × (result < 16) }
{
    let mask = crossings[13 * m + 12];
    row_mark(mask, row, 0)
        + 2 * row_mark(mask, row, 1)
        + 4 * row_mark(mask, row, 2)
        + 8 * row_mark(mask, row, 3)
}

// Records the step, if there is one, that enters a row of record m by edge j.
fn edge_step(crossings: &[u16], trace: &mut [u16], row: usize, m: usize, pattern: usize, j: usize)
    requires row_bound { (row < 12) × (13 * m + 13 ≤ length crossings.now) }
    requires pattern_bound { (pattern < 16) × (j < 4) }
    requires fits { Fits (edge_steps crossings.now row m pattern j) (length trace.old) }
    ensures { trace.new ≡ recorded (edge_steps crossings.now row m pattern j) trace.old }
{
    let k = usize::from(step_from(pattern, j));
    if k >= 4 {
        return;
    }
    let from = crossings[13 * m + row_edge(row, j)];
    let to = crossings[13 * m + row_edge(row, k)];
    trace::record_step(trace, from, to);
}

// The first edge by which a step enters in a pattern, if one does. Bit i of `next` says that corner i + 1 is wet, and bit i of 15 - pattern that corner i is
// dry: a step enters by edge i where both are set, and the lowest such bit is found.
fn first_entry(pattern: usize) -> Option<usize>
    requires { pattern < 16 }
    ensures { MatchOption result (first_entry pattern ≡ 4) (λ j. (j ≡ first_entry pattern) × (j < 4)) }
{
    let next = 17 * pattern / 2;
    let entered = next & (15 - pattern);
    if entered == 0 {
        return None;
    }
    Some(usize::trailing_zeros(entered) as usize)
}

// Records the steps in a row of record m. None enters where all corners are wet or all are dry; else one enters by the first edge from a dry corner to a
// wet one, and where opposite corners are wet, in patterns 5 and 10, another by the edge two further on.
fn row_steps(crossings: &[u16], trace: &mut [u16], row: usize, m: usize)
    requires row_bound { (row < 12) × (13 * m + 13 ≤ length crossings.now) }
    requires fits { Fits (row_steps crossings.now row m) (length trace.old) }
    ensures { trace.new ≡ recorded (row_steps crossings.now row m) trace.old }
{
    let pattern = row_pattern(crossings, row, m);
    let Some(j) = first_entry(pattern) else {
        return;
    };
    edge_step(crossings, trace, row, m, pattern, j);
    if pattern % 5 == 0 {
        edge_step(crossings, trace, row, m, pattern, j + 2);
    }
}

// The cells of a survey, and the crossings on their edges, of which there is room for those of each cell.
#[derive(Clone, Copy)]
struct Tables<'a> {
    cells: &'a [u8],
    crossings: &'a [u16],
    ghost roomy: { Roomy cells.now crossings.now },
}

impl Tables<'_> {
    // Records the steps in the small faces of a row of record m: where it is split, quarter after quarter.
    fn small_steps(self, trace: &mut [u16], row: usize, m: usize)
        requires row_bound { (row < 12) × (m < length self.cells.now / 4) }
        requires fits { Fits (small_table_steps self.cells.now self.crossings.now row m) (length trace.old) }
        ensures { trace.new ≡ recorded (small_table_steps self.entry.cells.now self.entry.crossings.now row m) trace.old }
    {
        let first = records::cell_entry(self.cells, m) as usize;
        if first == 0 {
            row_steps(self.crossings, trace, row, m);
            return;
        }
        for i in 0..4 {
            let child = first + row_corner(row, quarter(i));
            self.small_steps(trace, row, child);
        }
    }

    // Records the steps on side i of the leaf of record n: in the small faces of the split cell across, or in its own side.
    fn side_steps(self, across: &[u16], trace: &mut [u16], n: usize, i: usize)
        requires reaching { Reaching self.cells.now across.now n }
        requires i_bound { i < 6 }
        requires fits { Fits (side_table_steps self.cells.now across.now self.crossings.now n i) (length trace.old) }
        ensures { trace.new
            ≡ recorded (side_table_steps self.entry.cells.now across.now self.entry.crossings.now n i) trace.old }
    {
        let beyond = usize::from(across[6 * n + i]);
        if beyond == 0 {
            row_steps(self.crossings, trace, i, n);
            return;
        }
        self.small_steps(trace, 6 + i, beyond);
    }
}

// Records the face steps of the leaf of record n, side after side.
pub fn leaf_steps(cells: &[u8], across: &[u16], crossings: &[u16], trace: &mut [u16], n: usize)
    requires roomy { Roomy cells.now crossings.now }
    requires reaching { Reaching cells.now across.now n }
    requires fits { Fits (leaf_table_steps cells.now across.now crossings.now n) (length trace.old) }
    ensures { trace.new
        ≡ recorded (leaf_table_steps cells.now across.now crossings.now n) trace.old }
{
    let tables = Tables { cells, crossings };
    for i in 0..6 {
        tables.side_steps(across, trace, n, i);
    }
}
