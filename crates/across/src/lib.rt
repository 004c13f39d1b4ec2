// What lies across the sides of cells: a table filled from the parents down, without a search. Uses records.
#![tactic(auto)]

ghost use Rattle.std.specs.Prelude.{◌≡◌, true, false, ◌+◌, ◌*◌, ◌/◌, ◌≤◌, ◌<◌, length, get_or};
ghost use Rattle.base.specs.Lists.{any};
ghost use Rattle.rules.specs.Survey.{entry, entries, cells_of};
ghost use Rattle.rules.specs.Outputs.{entries_right};
ghost use Rattle.cells.specs.Laid.{written_at, too_deep};
ghost use Rattle.across.specs.Across.{BeyondTo, Beyond};
ghost use Rattle.across.specs.Filling.{opposite_of, if_split, first_across, split_beside, child_across, SideFilled};

// The number of the child beside child j on an axis.
fn opposite(axis: usize, j: usize) -> usize
    requires { (axis < 3) × (j < 8) }
    ensures { (result ≡ opposite_of axis j) × (result < 8) }
{
    j ^ (1 << axis)
}

// Record n if it is split, else 0.
fn if_split(cells: &[u8], n: usize) -> u16
    requires { (length cells.now ≤ 8196) × (n < length cells.now / 4) }
    ensures { result ≡ if_split cells.now n }
{
    if records::cell_entry(cells, n) == 0 {
        return 0;
    }
    n as u16
}

// The first child of the split cell across side i of cell n; 0 where there is none.
fn first_across(cells: &[u8], across: &[u16], n: usize, i: usize) -> usize
    requires cells_len_bound { (length cells.now ≤ 8196) × (n < length cells.now / 4) × (i < 6) }
    requires i_in_bounds { (6 * n + i < length across.now) × (get_or across.now (6 * n + i) 0 < length cells.now / 4) }
    ensures { result ≡ first_across cells.now across.now n i }
{
    let q = usize::from(across[6 * n + i]);
    if q == 0 {
        return 0;
    }
    records::cell_entry(cells, q) as usize
}

// The child beside place j on an axis, if it is split: of the eight children from record `from` on, or of none where that is 0.
fn split_beside(cells: &[u8], from: usize, axis: usize, j: usize) -> u16
    requires cells_len_bound { (length cells.now ≤ 8196) × (from + 8 ≤ length cells.now / 4) }
    requires axis_bound { (axis < 3) × (j < 8) }
    ensures { result ≡ split_beside cells.now from axis j }
{
    if from == 0 {
        return 0;
    }
    if_split(cells, from + opposite(axis, j))
}

// The split cell across side i of child j, by the first child of the parent and that of the split cell across side i of the parent.
fn child_across(cells: &[u8], first: usize, far: usize, i: usize, j: usize) -> u16
    requires cells_len_bound { (length cells.now ≤ 8196) × (first + 8 ≤ length cells.now / 4) × (far + 8 ≤ length cells.now / 4) }
    requires i_bound { (i < 6) × (j < 8) }
    ensures { result ≡ child_across cells.now first far i j }
{
    let axis = i / 2;
    if (j >> axis) % 2 == i % 2 {
        return split_beside(cells, first, axis, j);
    }
    split_beside(cells, far, axis, j)
}

// Fills side i of the eight children.
fn fill_side(cells: &[u8], across: &mut [u16], first: usize, far: usize, i: usize)
    requires cells_len_bound { (length cells.now ≤ 8196) × (first + 8 ≤ length cells.now / 4) × (far + 8 ≤ length cells.now / 4) }
    requires cells_in_bounds { (6 * (length cells.now / 4) ≤ length across.old) × (i < 6) }
    ensures { SideFilled cells.now first far i 8 across.old across.new }
{
    for j in 0..8 {
        across[6 * (first + j) + i] = child_across(cells, first, far, i, j);
    }
}

// Fills all sides of the children of the split cell n. The table has all records up to them already.
fn fill_children(cells: &[u8], across: &mut [u16], n: usize, first: usize)
    requires cells_value { entries_right 0 0 (entries cells.now) ≡ true }
    requires shallow { any too_deep (cells_of cells.now) ≡ false }
    requires cells_len_bound { (length cells.now ≤ 8196) × (n < length cells.now / 4) }
    requires first_value { (first ≡ entry cells.now n) × (0 < first) }
    requires beyond_to { BeyondTo cells.now across.old first }
    ensures across_len_unchanged { length across.new ≡ length across.old }
    ensures filled { BeyondTo cells.now across.new (first + 8) }
{
    for i in 0..6 {
        let far = first_across(cells, across, n, i);
        fill_side(cells, across, first, far, i);
    }
}

// Nothing lies across the sides of the box.
fn fill_box(across: &mut [u16])
    requires { 6 ≤ length across.old }
    ensures { across.new ≡ written_at (λ i. 0) 0 6 across.old }
{
    across[..6].fill(0);
}

// The table of the split cells across all sides of all cells. Children come after their parents, so that one pass is enough.
pub fn fill(cells: &[u8], across: &mut [u16])
    requires cells_value { entries_right 0 0 (entries cells.now) ≡ true }
    requires shallow { any too_deep (cells_of cells.now) ≡ false }
    requires cells_len_bound { (length cells.now ≤ 8196) × (6 * (length cells.now / 4) ≤ length across.old) }
    ensures { Beyond cells.now across.new }
{
    fill_box(across);
    for n in 0..cells.len() / 4 {
        let first = records::cell_entry(cells, n) as usize;
        if first != 0 {
            fill_children(cells, across, n, first);
        }
    }
}
