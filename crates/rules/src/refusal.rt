// Why a call refuses: document 01, "Outputs and refusals", and what the requests of document 02 add.
ghost use Rattle.std.specs.Prelude.{◌≡◌};
ghost use Rattle.rules.specs.Refusals.{refusal_number};

// A refusal, by the number that the documents give it.
#[derive(Clone, Copy)]
pub enum Refusal {
    CellTable = 1,
    CornerTable = 2,
    CellEntry = 3,
    TooDeep = 4,
    CornerOrder = 5,
    CornerSet = 6,
    Sounding = 7,
    Clearance = 8,
    PointSlice = 9,
    TriangleSlice = 10,
    NoEdge = 11,
    OpenAtBox = 12,
    Reference = 13,
    AmendmentTable = 14,
    AmendmentPlace = 15,
    Calendar = 16,
    Minute = 17,
    WayEnd = 18,
    WaySlice = 19,
    NoWay = 20,
    Convoy = 21,
}

impl From<Refusal> for u32 {
    ghost from_gives = { λ r n. n ≡ refusal_number r };

    fn from(r: Refusal) -> u32 {
        r as u32
    }
}
