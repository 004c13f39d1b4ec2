// Document 01, and the requests of document 02 that are in, as definitions: what people must believe, in specs/, each file headed by its section. Here, the
// types that the calls take and return.
// Uses base. proofs/ has the surveys that document 01 wants proved, and examples of the requests.
#![tactic(auto)]

mod refusal;

pub use refusal::Refusal;

// A corner of the survey, taken up with its place and sounding together.
#[derive(Clone, Copy)]
pub struct Corner {
    pub x: u16,
    pub y: u16,
    pub z: u16,
    pub sounding: f32,
}

// A leaf with its eight corners held side by side, in the order of a cell's children.
#[derive(Clone, Copy)]
pub struct Leaf {
    pub corners: [Corner; 8],
}

// An edge to ask about: its axis (0 to 2), its lower end and its length.
#[repr(C)]
#[derive(Clone, Copy)]
pub struct AskedEdge {
    pub axis: u32,
    pub x: u32,
    pub y: u32,
    pub z: u32,
    pub length: u32,
}

// An end of an edge. Document 02, request 1.
#[derive(Clone, Copy)]
pub enum End {
    Lower,
    Upper,
}

// An edge as the enquiry sees it: even, or crossing with the point's number, its place in three floats and the wet end.
#[derive(Clone, Copy)]
pub enum Edge {
    Even,
    Crossing(u32, f32, f32, f32, End),
}

// What drawing returns: a number (0 if drawn) and both counts.
#[repr(C)]
#[derive(Clone, Copy)]
pub struct Drawn {
    pub number: u32,
    pub points: u32,
    pub triangles: u32,
}

// What the call for the volume returns: a number (0 if drawn), both counts, and six times the volume in cubic sixteenths. Document 02, request 4.
#[repr(C)]
#[derive(Clone, Copy)]
pub struct Water {
    pub number: u32,
    pub points: u32,
    pub triangles: u32,
    pub sixfold: i64,
}

// A record of a calendar: the minutes of the year for which it holds, and the clearance then. Document 02, request 7.
#[derive(Clone, Copy)]
pub struct Period {
    pub from: u32,
    pub until: u32,
    pub clearance: f32,
}

// What a call that shows a way returns: a number (0 if shown) and the count of the way's corners. Document 02, request 8.
#[repr(C)]
#[derive(Clone, Copy)]
pub struct Passage {
    pub number: u32,
    pub corners: u32,
}
