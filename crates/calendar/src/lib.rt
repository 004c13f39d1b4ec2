// The call that draws by a calendar: document 02, request 7. One pass over the calendar gives the clearance in force at a minute, or 16 or 17; the drawing is
// drawing's own at that clearance. Uses records, checks and drawing.
#![tactic(auto)]

ghost use Rattle.std.specs.Prelude.{◌≡◌, true, ◌&&◌, [], ◌∷◌, ◌++◌, ℕ, ◌+◌, ◌*◌, ◌≤◌, leb, length};
ghost use Rattle.rules.specs.Closing.{ClosedIn};
ghost use Rattle.rules.specs.Resounding.{amended, draw_amended, check_order};
ghost use Rattle.rules.specs.Calendar.{period_size, period_at, holds_at, right_period, clearance_at, draw_by_calendar, InForce};
ghost use Rattle.rules.specs.Refusals.{refusal_number};
ghost use Rattle.rules.specs.Outputs.{first_of};
ghost use Rattle.drawing.specs.Draws.{Draws};
ghost use Rattle.calendar.specs.ReadingAt.{reading_at};

use rules::{Drawn, Period, Refusal};

// The size of a record in bytes.
const SIZE: usize = 12;

// The latest minute that a record may end at.
const YEAR_END: u32 = 527040;

// Record `k` of a calendar.
fn period_at(calendar: &[u8], k: usize) -> Period
    requires { period_size * k + period_size ≤ length calendar.now }
    ensures { result ≡ period_at calendar.now k }
{
    let at = SIZE * k;
    let from = records::read32(calendar, at);
    let until = records::read32(calendar, at + 4);
    let clearance = records::float_of(records::read32(calendar, at + 8));
    Period {
        from,
        until,
        clearance,
    }
}

// A record is lawful behind one that has ended at this minute.
fn follows(p: Period, ended: u32) -> bool
    ensures { result ≡ leb ended p.from && right_period p }
{
    ended <= p.from && (p.from < p.until && p.until <= YEAR_END)
}

// A record holds from its first minute up to, not including, its last.
fn holds(p: Period, minute: u32) -> bool
    ensures { result ≡ holds_at minute p }
{
    p.from <= minute && minute < p.until
}

// Checks 16 and 17, and the clearance in force at a minute: one pass over the records, up to the first that breaks a rule. It keeps the number of the record in
// force, and not its clearance, which is read behind it: a float that may be kept or not costs a jump at each record.
fn read(calendar: &[u8], minute: u32) -> Result<f32, Refusal>
    ensures { result ≡ reading_at calendar.now minute }
{
    if calendar.len() % SIZE != 0 {
        return Err(Refusal::Calendar);
    }
    let count = calendar.len() / SIZE;
    let mut in_force: Option<usize> = None;
    let mut ended: u32 = 0;
    for k in 0..count {
        let p = period_at(calendar, k);
        if !follows(p, ended) {
            return Err(Refusal::Calendar);
        }
        if holds(p, minute) {
            in_force = Some(k);
        }
        ended = p.until;
    }
    match in_force {
        Some(k) => Ok(period_at(calendar, k).clearance),
        None => Err(Refusal::Minute),
    }
}

// Where the calendar refuses: the first refusal of the survey by itself, and only then the calendar's.
fn refused(cells: &[u8], corners: &[u8], amendments: &[u8], refusal: Refusal) -> Drawn
    ensures { result ≡ record {
      number = first_of (check_order cells.now corners.now amendments.now ++ (refusal_number refusal, true) ∷ []);
      points = 0;
      triangles = 0;
    } }
{
    Drawn {
        number: checks::check_before(cells, corners, amendments, u32::from(refusal)),
        points: 0,
        triangles: 0,
    }
}

// Draws the surface of a survey, as amended, at the clearance that a calendar has in force at a minute: document 02, request 7. For every input, the result and
// both slices are those of the rules. Where a record is in force, they are those of drawing at its clearance given by hand; and where the number is 0, what
// stands in the slices is closed.
pub fn draw(
    cells: &[u8],
    corners: &[u8],
    amendments: &[u8],
    calendar: &[u8],
    minute: u32,
    points: &mut [f32],
    triangles: &mut [u32],
) -> Drawn
    ensures exact { Draws (draw_by_calendar cells.now corners.now amendments.now calendar.now minute
        points.old triangles.old) result points.new triangles.new }
    ensures by_hand { (k : ℕ) → InForce calendar.now minute k
        → Draws (draw_amended cells.now corners.now amendments.now (period_at calendar.now k).clearance
        points.old triangles.old) result points.new triangles.new }
    ensures closes { result.number ≡ 0 → ClosedIn cells.now (amended corners.now amendments.now)
        (clearance_at calendar.now minute) result points.new triangles.new }
{
    match read(calendar, minute) {
        Ok(clearance) => drawing::draw(cells, corners, amendments, clearance, points, triangles),
        Err(refusal) => refused(cells, corners, amendments, refusal),
    }
}
