// Levels, lengths and keys as numbers.
ghost use Rattle.std.specs.Prelude.{◌≡◌, cond, ◌+◌, ◌-◌, ◌*◌, ◌^◌, ◌≤◌, ltb};
ghost use Rattle.base.specs.Grid.{axis_of};
ghost use Rattle.edges.specs.Searching.{key_unit};

// The upper end of the shorter of two edges from one place: of one with this level and end, and of one whose level and end are known. Of two of the
// same level the known end.
pub fn end_of_lower(level: u8, end: u16, low: u8, known: u16) -> u16
    ensures { result ≡ cond (ltb level low) end known }
{
    if level < low {
        return end;
    }
    known
}

// How much a step of 1 on an axis adds to the key of a place.
pub fn unit(axis: u32) -> u64
    ensures { (result ≡ key_unit (axis_of axis)) × (result ≤ 4294967296) }
{
    if axis == 0 {
        return 1;
    }
    if axis == 1 {
        return 65536;
    }
    4294967296
}

// The key of the place that is the length of an edge of this level further on an axis.
pub fn step(key: u64, axis: u32, level: u8) -> u64
    requires { (key ≤ 281474976710656) × (level ≤ 10) }
    ensures { (result ≡ key + 2 ^ level * key_unit (axis_of axis)) × (result ≤ key + 4398046511104) }
{
    key + cells::size_of(level) * unit(axis)
}
