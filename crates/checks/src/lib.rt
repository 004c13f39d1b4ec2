// The refusals of a survey: document 01, "Outputs and refusals", checks 1 to 8 in their order, with 14 and 15 of document 02 after 6. Uses records, amendments,
// cells and octants.
#![tactic(auto)]

ghost use Rattle.std.specs.Prelude.{◌≡◌, true, OnOk, not, [], ◌∷◌, ◌++◌, ◌+◌, ◌*◌, ◌≤◌, ◌<◌, ◌/◌, length, get_or, set, take, ltb, eqb};
ghost use Rattle.base.specs.Lists.{all, any, count as up_to};
ghost use Rattle.rules.specs.Survey.{record_count, entries, cells_of, corners_of};
ghost use Rattle.rules.specs.Refusals.{outcome};
ghost use Rattle.rules.specs.Outputs.{corner_limit, bad_table, entries_right, rising, corners_right, in_range, first_of, table_checks, survey_refusal, checks};
ghost use Rattle.rules.specs.Resounding.{check_amended, check_order};
ghost use Rattle.records.specs.Keys.{places_of};
ghost use Rattle.cells.specs.Laid.{Laid};
ghost use Rattle.octants.specs.Octants.{LookedUp};
ghost use Rattle.checks.specs.Marks.{marked};
ghost use Rattle.checks.specs.Tables.{Tables};

mod passed;

pub use passed::Passed;
use rules::Refusal;

// Checks 1 and 2: empty, not whole records of n bytes, or over the limit.
fn bad_table(t: &[u8], n: usize, limit: usize) -> bool
    requires { 1 ≤ n }
    ensures { result ≡ bad_table n limit t.now }
{
    if t.is_empty() {
        return true;
    }
    if t.len() % n != 0 {
        return true;
    }
    limit < t.len()
}

// Check 7: a sounding is out of range.
fn bad_sounding(corners: &[u8], count: usize) -> bool
    requires { count ≡ record_count corners.now }
    ensures { result ≡ any (λ k. not (in_range k.sounding)) (corners_of corners.now) }
{
    for n in 0..count {
        let c = records::corner_at(corners, n);
        if !records::in_range(c.sounding) {
            return true;
        }
    }
    false
}

// Marks each record in the table of cells' corners. False if one is no record: that is the first half of check 6, and no refusal of its own.
fn mark_all(octants: &[u16], count: usize, marks: &mut [u8]) -> bool
    requires { count ≤ length marks.old }
    ensures value { result ≡ all (λ k. ltb k count) octants.now }
    ensures marks_after { result ≡ true → marks.new ≡ marked octants.now marks.old }
{
    for octant in octants {
        let at = usize::from(*octant);
        if count <= at {
            return false;
        }
        marks[at] = 1;
    }
    true
}

// Every record is marked.
fn all_marked(marks: &[u8], count: usize) -> bool
    requires { count ≤ length marks.now }
    ensures { result ≡ all (λ k. eqb (get_or marks.now k 0) 1) (up_to 0 count) }
{
    for k in 0..count {
        if marks[k] != 1 {
            return false;
        }
    }
    true
}

// Check 6: there is a record for every corner of every cell, and none else.
fn corners_right(cells: &[u8], laid: &[u64], corners: &[u8], octants: &[u16]) -> bool
    requires cells_value { entries_right 0 0 (entries cells.now) ≡ true }
    requires laid { Laid cells.now laid.now }
    requires cells_len_bound { (length cells.now ≤ 8196) × (length corners.now ≤ corner_limit) }
    requires corners_value { rising (places_of corners.now) ≡ true }
    requires looked_up { LookedUp corners.now laid.now octants.now (length cells.now / 4) }
    ensures { result ≡ corners_right (cells_of cells.now) (places_of corners.now) }
{
    let count = corners.len() / records::SIZE;
    let mut marks = [0u8; 4872];
    if !mark_all(&octants[..8 * (cells.len() / 4)], count, &mut marks) {
        return false;
    }
    all_marked(&marks, count)
}

// Checks 1 to 6: the first that applies refuses. Where none does, the tables hold the cells and their corners.
pub fn read(
    cells: &[u8],
    corners: &[u8],
    laid: &mut [u64],
    octants: &mut [u16],
) -> Result<(), Refusal>
    requires { (length laid.old ≡ 2049) × (length octants.old ≡ 16392) }
    ensures value { outcome result ≡ first_of (table_checks cells.now corners.now) }
    ensures tables { OnOk result (Tables cells.now corners.now laid.new octants.new) }
{
    if bad_table(cells, 4, 8196) {
        return Err(Refusal::CellTable);
    }
    if bad_table(corners, records::SIZE, records::LIMIT) {
        return Err(Refusal::CornerTable);
    }
    let records = cells.len() / 4;
    let count = corners.len() / records::SIZE;
    if !cells::entries_right(cells, records) {
        return Err(Refusal::CellEntry);
    }
    cells::lay_out(cells, records, laid)?;
    if !records::corners_rise(corners, count) {
        return Err(Refusal::CornerOrder);
    }
    octants::fill(corners, laid, records, octants);
    if !corners_right(cells, laid, corners, octants) {
        return Err(Refusal::CornerSet);
    }
    Ok(())
}

// Check 7, of tables that checks 1 to 6 pass.
fn soundings(cells: &[u8], corners: &[u8]) -> Result<(), Refusal>
    requires { first_of (table_checks cells.now corners.now) ≡ 0 }
    ensures { outcome result ≡ survey_refusal cells.now corners.now }
{
    if bad_sounding(corners, corners.len() / records::SIZE) {
        return Err(Refusal::Sounding);
    }
    Ok(())
}

// Checks 7 and 8, of tables that checks 1 to 6 pass: the first that applies refuses.
pub fn refusal(cells: &[u8], corners: &[u8], clearance: f32) -> Result<(), Refusal>
    requires { first_of (table_checks cells.now corners.now) ≡ 0 }
    ensures { outcome result ≡ first_of (checks cells.now corners.now clearance) }
{
    soundings(cells, corners)?;
    if !records::in_range(clearance) {
        return Err(Refusal::Clearance);
    }
    Ok(())
}

// The rest of a check of the survey by itself where there are amendments: 14 and 15, then 7 of the corner table as amended.
fn check_amended(survey: Passed, amendments: &[u8]) -> Result<(), Refusal>
    ensures { outcome result ≡ check_amended survey.entry.cells.now survey.entry.corners.now amendments.now }
{
    let mut table = [0u8; records::LIMIT];
    let survey = survey.amended(amendments, &mut table)?;
    soundings(survey.cells, survey.corners)
}

// A check of the survey by itself: 1 to 6, 14, 15, then 7. The first that applies refuses.
pub fn check(cells: &[u8], corners: &[u8], amendments: &[u8]) -> Result<(), Refusal>
    ensures { outcome result ≡ check_amended cells.now corners.now amendments.now }
{
    let mut laid = [0u64; 2049];
    let mut octants = [0u16; 16392];
    let survey = Passed::read(cells, corners, &mut laid, &mut octants)?;
    if amendments.is_empty() {
        return soundings(cells, corners);
    }
    check_amended(survey, amendments)
}

// Where a call refuses something that it is lent besides, by any number: the first refusal of the survey by itself, and only then that number. It is a number and
// no `Refusal`, since a caller may refuse by numbers of its own.
pub fn check_before(cells: &[u8], corners: &[u8], amendments: &[u8], number: u32) -> u32
    ensures { result ≡ first_of (check_order cells.now corners.now amendments.now ++ (number, true) ∷ []) }
{
    match check(cells, corners, amendments) {
        Ok(()) => number,
        Err(first) => u32::from(first),
    }
}
