// The tables' records as numbers: bytes, entries and corners, each read at its place in the lent bytes. Uses rules.
#![tactic(auto)]

ghost use Rattle.std.specs.Prelude.{◌≡◌, true, ◌||◌, ◌+◌, ◌*◌, ◌≤◌, ◌<◌, ◌/◌, eqb, length};
ghost use Rattle.std.specs.Float.{binary32};
ghost use Rattle.std.specs.Float.Ieee.{of_bits};
ghost use Rattle.base.specs.Lists.{little, bytes};
ghost use Rattle.rules.specs.Survey.{record_size, record_count, entry, corner_record, place_of, wet, record_bytes};
ghost use Rattle.rules.specs.OpenAtBox.{is_outer};
ghost use Rattle.rules.specs.Resounding.{day_in};
ghost use Rattle.rules.specs.Outputs.{in_range, rising};
ghost use Rattle.records.specs.Keys.{key_of, places_of};

use rules::Corner;

// The size of a corner record in bytes, the longest corner table, and the longest amendment table.
pub const SIZE: usize = 12;

pub const LIMIT: usize = 58464;

pub const AMENDMENT_LIMIT: usize = 12000;

// The two bytes at `at`, low byte first.
pub fn read16(s: &[u8], at: usize) -> u16
    requires { at + 2 ≤ length s.now }
    ensures { result ≡ little (bytes s.now at 2) }
{
    u16::from_le_bytes([s[at], s[at + 1]])
}

// The four bytes at `at`, low byte first.
pub fn read32(s: &[u8], at: usize) -> u32
    requires { at + 4 ≤ length s.now }
    ensures { result ≡ little (bytes s.now at 4) }
{
    u32::from_le_bytes([s[at], s[at + 1], s[at + 2], s[at + 3]])
}

// The entry of cell record `n`.
pub fn cell_entry(cells: &[u8], n: usize) -> u32
    requires { 4 * n + 4 ≤ length cells.now }
    ensures { result ≡ entry cells.now n }
{
    read32(cells, 4 * n)
}

// The float of a bit pattern. `from_bits` is undefined at a NaN's pattern, so a NaN is made there.
pub fn float_of(bits: u32) -> f32
    ensures { result ≡ of_bits binary32 bits }
{
    if bits % 0x8000_0000 > 0x7f80_0000 {
        let zero = 0.0f32;
        return zero / zero;
    }
    f32::from_bits(bits)
}

// Corner record `n`, taken up with its place and sounding together.
pub fn corner_at(corners: &[u8], n: usize) -> Corner
    requires { record_size * n + record_size ≤ length corners.now }
    ensures { result ≡ corner_record corners.now n }
{
    let at = SIZE * n;
    let x = read16(corners, at);
    let y = read16(corners, at + 2);
    let z = read16(corners, at + 4);
    let sounding = float_of(read32(corners, at + 6));
    Corner { x, y, z, sounding }
}

// The day of corner record `n`: 16 bits after the sounding.
pub fn day_at(corners: &[u8], n: usize) -> u16
    requires { record_size * n + record_size ≤ length corners.now }
    ensures { result ≡ day_in (record_bytes corners.now n) }
{
    read16(corners, SIZE * n + 10)
}

// A corner is wet if its sounding is greater than the clearance: one that is just awash is dry.
pub fn is_wet(c: Corner, clearance: f32) -> bool
    ensures { result ≡ wet clearance c }
{
    c.sounding > clearance
}

// A coordinate at an end of the box.
fn is_end(v: u16) -> bool
    ensures { result ≡ eqb v 0 || eqb v 1024 }
{
    v == 0 || v == 1024
}

// A corner is on an outer face of the box.
pub fn is_outer(c: Corner) -> bool
    ensures { result ≡ is_outer (place_of c) }
{
    is_end(c.x) || is_end(c.y) || is_end(c.z)
}

// Finite and not beyond 1,048,576 either way.
pub fn in_range(x: f32) -> bool
    ensures { result ≡ in_range x }
{
    -1048576.0 <= x && x <= 1048576.0
}

// A place as one number, its key: z, then y, then x.
pub fn key_of(c: Corner) -> u64
    ensures { result ≡ key_of (place_of c) }
{
    u64::from(c.x) + 65536 * u64::from(c.y) + 4294967296 * u64::from(c.z)
}

// The key of corner record `n`.
pub fn key_at(corners: &[u8], n: usize) -> u64
    requires { record_size * n + record_size ≤ length corners.now }
    ensures { result ≡ key_of (place_of (corner_record corners.now n)) }
{
    key_of(corner_at(corners, n))
}

// Check 5: the records rise strictly.
pub fn corners_rise(corners: &[u8], count: usize) -> bool
    requires { count ≡ record_count corners.now }
    ensures { result ≡ rising (places_of corners.now) }
{
    for i in 1..count {
        if key_at(corners, i) <= key_at(corners, i - 1) {
            return false;
        }
    }
    true
}
