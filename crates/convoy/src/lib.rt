// The call that shows one way for a convoy: document 02, request 9. It is the way for one boat at the greatest clearance. Uses records, checks and ways.
#![tactic(auto)]

ghost use Rattle.std.specs.Prelude.{◌≡◌, true, [], ◌∷◌, ◌++◌, ℕ, ◌≤◌, length};
ghost use Rattle.rules.specs.Refusals.{refusal_number, outcome};
ghost use Rattle.rules.specs.Outputs.{first_of};
ghost use Rattle.rules.specs.Resounding.{amended, check_order};
ghost use Rattle.rules.specs.Ways.{passage_amended, Means};
ghost use Rattle.rules.specs.Convoy.{convoy_graph, clearance_checks, convoy_amended, boat_clearance, Greatest};
ghost use Rattle.ways.specs.Shows.{Shows, shown_by};
ghost use Rattle.convoy.specs.GreatestOf.{greater_of, greatest_of};

use rules::{Passage, Refusal};

// The most boats of a convoy.
const MOST: usize = 16;

// Checks 21 and 8: the first that applies refuses. Of a convoy that 21 refuses no clearance is read.
fn refusal(clearances: &[f32]) -> Result<(), Refusal>
    ensures { outcome result ≡ first_of (clearance_checks clearances.now) }
{
    if clearances.is_empty() || clearances.len() > MOST {
        return Err(Refusal::Convoy);
    }
    for clearance in clearances {
        if !records::in_range(*clearance) {
            return Err(Refusal::Clearance);
        }
    }
    Ok(())
}

// The greater of two clearances; the former where neither is, which `f32::max` does not say of the two zeros.
fn greater(a: f32, b: f32) -> f32
    ensures { result ≡ greater_of a b }
{
    if a < b {
        return b;
    }
    a
}

// The greatest of some clearances; of equal ones the first.
fn greatest(clearances: &[f32]) -> f32
    requires { 1 ≤ length clearances.now }
    ensures { result ≡ greatest_of clearances.now }
{
    let mut best = clearances[0];
    for clearance in &clearances[1..] {
        best = greater(best, *clearance);
    }
    best
}

// Where 21 or 8 refuses the clearances: the first refusal of the survey by itself, and only then that one.
fn refused(cells: &[u8], corners: &[u8], amendments: &[u8], refusal: Refusal) -> Passage
    ensures { result ≡ record {
      number = first_of (check_order cells.now corners.now amendments.now ++ (refusal_number refusal, true) ∷ []);
      corners = 0;
    } }
{
    Passage {
        number: checks::check_before(cells, corners, amendments, u32::from(refusal)),
        corners: 0,
    }
}

// Finds one way for a convoy from one corner to another, each by its record number, that is wet at each of 1 to 16 clearances: document 02, request 9. For
// every input, the result and both slices are those of the rules, and mean what the request says; where neither 21 nor 8 applies to the clearances, they are
// those of one boat at the greatest of them.
pub fn find(
    cells: &[u8],
    corners: &[u8],
    amendments: &[u8],
    clearances: &[f32],
    start: u32,
    end: u32,
    way: &mut [u16],
    work: &mut [u16],
) -> Passage
    ensures exact { Shows (convoy_amended cells.now corners.now amendments.now clearances.now start end
        way.old work.old) result way.new work.new }
    ensures means { Means (convoy_graph cells.now (amended corners.now amendments.now) clearances.now)
        start end way.old work.old (shown_by result way.new work.new) }
    ensures as_greatest { (k : ℕ) → Greatest clearances.now k
        → Shows (passage_amended cells.now corners.now amendments.now (boat_clearance clearances.now k) start end
        way.old work.old) result way.new work.new }
{
    if let Err(refusal) = refusal(clearances) {
        return refused(cells, corners, amendments, refusal);
    }
    ways::find(
        cells,
        corners,
        amendments,
        greatest(clearances),
        start,
        end,
        way,
        work,
    )
}
