// The corner records of every cell, looked up once: what follows needs no search for them. Uses records, reader and cells.
#![tactic(auto)]

ghost use Rattle.std.specs.Prelude.{◌≡◌, true, ℕ, ◌+◌, ◌*◌, ◌^◌, ◌≤◌, ◌<◌, length};
ghost use Rattle.rules.specs.Outputs.{corner_limit, rising};
ghost use Rattle.records.specs.Keys.{places_of, record_at};
ghost use Rattle.cells.specs.Laid.{octant_key, written_at, level_in};
ghost use Rattle.octants.specs.Octants.{LookedUp};

// Looks up the eight corners of cell `n`, by the key of its lowest corner and its level.
fn fill_cell(corners: &[u8], hints: &[u16], n: usize, key: u64, level: u8, octants: &mut [u16])
    requires rising { rising (places_of corners.now) ≡ true }
    requires lengths { (length corners.now ≤ corner_limit) × (length octants.old ≡ 16392) }
    requires cell { (n < 2049) × (key ≤ 9223372036854775808) × (level ≤ 10) }
    requires room { 1024 ≤ length hints.now }
    ensures { octants.new
        ≡ written_at (λ i. record_at corners.now (key + octant_key i (2 ^ level))) (8 * n) 8 octants.old }
{
    let size = cells::size_of(level);
    for i in 0..8 {
        octants[8 * n + i] = reader::hints::find(
            corners,
            hints,
            key + cells::octant_key(i, size),
        ) as u16;
    }
}

// The corners of the first cells, by their keys and levels.
fn fill_cells(corners: &[u8], hints: &[u16], laid: &[u64], cells: usize, octants: &mut [u16])
    requires rising { rising (places_of corners.now) ≡ true }
    requires lengths { (length corners.now ≤ corner_limit) × (length octants.old ≡ 16392) }
    requires cells { (cells ≤ 2049) × (cells ≤ length laid.now) }
    requires levels { (n : ℕ) → n < cells → level_in laid.now n ≤ 10 }
    requires room { 1024 ≤ length hints.now }
    ensures { LookedUp corners.now laid.now octants.new cells }
{
    for n in 0..cells {
        let key = cells::key_in(laid, n);
        let level = cells::level_in(laid, n);
        fill_cell(corners, hints, n, key, level, octants);
    }
}

// The same with N hints for the corner table, which spare nearly every search.
fn fill_by_hints<const N: usize>(corners: &[u8], laid: &[u64], cells: usize, octants: &mut [u16])
    requires rising { rising (places_of corners.now) ≡ true }
    requires lengths { (length corners.now ≤ corner_limit) × (length octants.old ≡ 16392) }
    requires cells { (cells ≤ 2049) × (cells ≤ length laid.now) }
    requires levels { (n : ℕ) → n < cells → level_in laid.now n ≤ 10 }
    requires room { (1024 ≤ N) × (N ≤ 8192) }
    ensures { LookedUp corners.now laid.now octants.new cells }
{
    let mut hints = [reader::hints::FREE; N];
    reader::hints::fill(corners, &mut hints);
    fill_cells(corners, &hints, laid, cells, octants);
}

// The table of the corners of the first cells, filled by their keys and levels. A survey of up to 256 corners has fewer hints, which are sooner cleared.
pub fn fill(corners: &[u8], laid: &[u64], cells: usize, octants: &mut [u16])
    requires corners_value { rising (places_of corners.now) ≡ true }
    requires corners_len_bound { (length corners.now ≤ corner_limit) × (length octants.old ≡ 16392) }
    requires cells_bound { (cells ≤ 2049) × (cells ≤ length laid.now) }
    requires by_index { (n : ℕ) → n < cells → level_in laid.now n ≤ 10 }
    ensures { LookedUp corners.now laid.now octants.new cells }
{
    if corners.len() <= 256 * records::SIZE {
        fill_by_hints::<1024>(corners, laid, cells, octants);
    } else {
        fill_by_hints::<8192>(corners, laid, cells, octants);
    }
}
