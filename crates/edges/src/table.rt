// What the table of slots holds of one slot: specs/Tables.antt, "the tables".
ghost use Rattle.std.specs.Prelude.{◌≡◌, ◌<◌, length};
ghost use Rattle.edges.specs.Tables.{lowest_at, highest_at, far_at, number_at};

// What stands everywhere in the table before any edge is noted: the lowest level is 11, which no edge has, and the highest is 0. Both bytes are 11, since a
// table of equal bytes is sooner filled.
pub const EMPTY: u16 = 0x0b0b;

// The lowest level of the edges that start at a slot, or 11.
pub fn lowest(slots: &[u16], slot: usize) -> u8
    requires { (length slots.now ≡ 43848) × (slot < 14616) }
    ensures { result ≡ lowest_at slots.now slot }
{
    (slots[3 * slot] % 16) as u8
}

// The highest level of the edges that start at a slot, or 0.
pub fn highest(slots: &[u16], slot: usize) -> u8
    requires { (length slots.now ≡ 43848) × (slot < 14616) }
    ensures { result ≡ highest_at slots.now slot }
{
    (slots[3 * slot] / 16 % 16) as u8
}

// The corner record at the upper end of the edge of the lowest level at a slot.
pub fn far(slots: &[u16], slot: usize) -> u16
    requires { (length slots.now ≡ 43848) × (slot < 14616) }
    ensures { result ≡ far_at slots.now slot }
{
    slots[3 * slot + 1]
}

// How many crossed slots come before a slot, where that is crossed.
pub fn number(slots: &[u16], slot: usize) -> u16
    requires { (length slots.now ≡ 43848) × (slot < 14616) }
    ensures { result ≡ number_at slots.now slot }
{
    slots[3 * slot + 2]
}
