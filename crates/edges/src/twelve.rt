// The twelve edges of a cell, four for each axis: the corners at which each starts and ends.
ghost use Rattle.std.specs.Prelude.{◌≡◌, ◌<◌, get_or};
ghost use Rattle.edges.specs.Tables.{starts, ends};

// The corner at which edge `e` starts.
pub fn start_of(e: usize) -> usize
    requires { e < 12 }
    ensures { (result ≡ get_or starts e 0) × (result < 8) }
{
    digits::digit(0x3210_5140_6420, e)
}

// The corner at which edge `e` ends.
pub fn end_of(e: usize) -> usize
    requires { e < 12 }
    ensures { (result ≡ get_or ends e 0) × (result < 8) }
{
    digits::digit(0x7654_7362_7531, e)
}
