// The cells of a survey by record number: check 3 of their entries, check 4 of their depth, and the table of their places and levels.
// Uses records.
#![tactic(auto)]

ghost use Rattle.std.specs.Prelude.{◌≡◌, true, ◌+◌, ◌*◌, ◌^◌, ◌≤◌, ◌<◌, ◌/◌, length, cond, OnOk};
ghost use Rattle.base.specs.Lists.{any};
ghost use Rattle.rules.specs.Refusals.{outcome};
ghost use Rattle.rules.specs.Survey.{entries, cells_of};
ghost use Rattle.rules.specs.Outputs.{entries_right};
ghost use Rattle.cells.specs.Laid.{octant_key, written_at, too_deep, key_in, level_in, LaidTo, Laid};

use rules::Refusal;

// Check 3: each entry is 0, or the next free record and after its own, and the records are as many as the entries say.
pub fn entries_right(cells: &[u8], count: usize) -> bool
    requires count_value { count ≡ length cells.now / 4 }
    requires cells_len_bound { length cells.now ≤ 8196 }
    ensures { result ≡ entries_right 0 0 (entries cells.now) }
{
    let mut k = 0;
    for n in 0..count {
        let e = records::cell_entry(cells, n) as usize;
        if e == 0 {
            continue;
        }
        if e != 1 + 8 * k || e <= n {
            return false;
        }
        k += 1;
    }
    count == 1 + 8 * k
}

// The size of a cell of this level.
pub fn size_of(level: u8) -> u64
    requires { level ≤ 10 }
    ensures { result ≡ 2 ^ level }
{
    1u64 << level
}

// How far the key of corner i of a cube of this size is above the key of its lowest corner.
pub fn octant_key(i: usize, size: u64) -> u64
    requires { (i < 8) × (size ≤ 1024) }
    ensures { result ≡ octant_key i size }
{
    let n = i as u64;
    (n % 2 + 65536 * (n / 2 % 2) + 4294967296 * (n / 4)) * size
}

// The key of a cell's lowest corner, from the table.
pub fn key_in(laid: &[u64], n: usize) -> u64
    requires { n < length laid.now }
    ensures { (result ≡ key_in laid.now n) × (result < 281474976710656) }
{
    laid[n] % 281474976710656
}

// The level of a cell, from the table.
pub fn level_in(laid: &[u64], n: usize) -> u8
    requires { n < length laid.now }
    ensures { result ≡ level_in laid.now n }
{
    (laid[n] / 281474976710656 % 16) as u8
}

// Writes the eight children of a cell: their keys, and the one level that they have.
fn put_children(laid: &mut [u64], at: usize, key: u64, level: u8)
    requires at_in_bounds { at + 8 ≤ length laid.old }
    requires key_bound { (key < 281474976710656) × (level ≤ 10) }
    ensures { laid.new ≡ written_at (λ i. key + octant_key i (2 ^ level) + 281474976710656 * level) at 8 laid.old }
{
    let size = size_of(level);
    for i in 0..8 {
        laid[at + i] = key + octant_key(i, size) + 281474976710656 * u64::from(level);
    }
}

// The pass of `lay_out` over the records, with record 0 entered. Children come after their parents, so that one pass is enough.
fn enter_children(cells: &[u8], laid: &mut [u64]) -> Result<(), Refusal>
    requires right { entries_right 0 0 (entries cells.now) ≡ true }
    requires room { length cells.now / 4 ≤ length laid.old }
    requires laid_to { LaidTo cells.now laid.old 1 }
    ensures value { outcome result ≡ cond (any too_deep (cells_of cells.now)) 4 0 }
    ensures laid { OnOk result (Laid cells.now laid.new) }
{
    for n in 0..cells.len() / 4 {
        let e = records::cell_entry(cells, n) as usize;
        if e == 0 {
            continue;
        }
        let level = level_in(laid, n);
        if level == 0 {
            return Err(Refusal::TooDeep);
        }
        let key = key_in(laid, n);
        put_children(laid, e, key, level - 1);
    }
    Ok(())
}

// Check 4, and the table of the cells: refused if a cell of depth 10 is split; if none is, the table holds the cells of all records.
pub fn lay_out(cells: &[u8], count: usize, laid: &mut [u64]) -> Result<(), Refusal>
    requires count_value { count ≡ length cells.now / 4 }
    requires cells_value { entries_right 0 0 (entries cells.now) ≡ true }
    requires count_in_bounds { count ≤ length laid.old }
    ensures value { outcome result ≡ cond (any too_deep (cells_of cells.now)) 4 0 }
    ensures laid { OnOk result (Laid cells.now laid.new) }
{
    // The box: key 0, level 10.
    laid[0] = 2814749767106560;
    enter_children(cells, laid)
}
