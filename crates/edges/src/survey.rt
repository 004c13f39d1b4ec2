// What the edges of a survey are looked up in: the lent bytes of an accepted survey, and with the table of slots its edges.
ghost use Rattle.std.specs.Prelude.{◌≡◌, true, ℕ, ◌<◌, slice_index};
ghost use Rattle.rules.specs.Outputs.{accepted};
ghost use Rattle.edges.specs.Tables.{Levelled};

// An accepted survey at a clearance: the lent bytes of its cells and corners.
#[derive(Clone, Copy)]
pub struct Survey<'a> {
    pub cells: &'a [u8],
    pub corners: &'a [u8],
    pub clearance: f32,
    pub ghost accepted: { accepted cells.now corners.now clearance ≡ true },
    pub ghost bytes: { (k : ℕ) → slice_index corners.now k < 256 },
}

// Its edges, by the table of slots: the levels of the edges that start at each corner record, and their upper ends.
#[derive(Clone, Copy)]
pub struct Edges<'a, 'b> {
    pub survey: Survey<'a>,
    pub slots: &'b [u16],
    pub ghost levelled: { Levelled survey.cells.now survey.corners.now slots.now },
}
