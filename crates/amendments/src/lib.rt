// Amendments, lent beside the corner table: document 02, request 6. Checks 14 and 15, and the corner table as amended, which all else reads in place of the one
// that was lent. Uses records and reader.
#![tactic(auto)]

ghost use Rattle.std.specs.Prelude.{◌≡◌, true, cond, OnOk, ◌++◌, ◌+◌, ◌%◌, ◌≤◌, ◌<◌, length, take, drop};
ghost use Rattle.base.specs.Lists.{any, bytes};
ghost use Rattle.rules.specs.Survey.{record_size, record_count, record_bytes};
ghost use Rattle.rules.specs.Refusals.{outcome};
ghost use Rattle.rules.specs.Outputs.{corner_limit, rising, first_of, table_checks};
ghost use Rattle.rules.specs.Resounding.{records_of, amended, bad_amendments, amendment_checks};
ghost use Rattle.records.specs.Keys.{places_of};
ghost use Rattle.amendments.specs.Amending.{AmendedBy, unlisted};

use rules::Refusal;

// Check 14: not whole records, or over the limit of 1,000.
fn bad_table(amendments: &[u8]) -> bool
    ensures { result ≡ bad_amendments amendments.now }
{
    if amendments.len() % records::SIZE != 0 {
        return true;
    }
    amendments.len() > records::AMENDMENT_LIMIT
}

// Copies `n` bytes of one table, from `start` on, over those of another, from `at` on. One by one, since for `copy_from_slice` the archive would need memmove of
// the C library, which nothing else in it does.
fn copy(from: &[u8], start: usize, n: usize, to: &mut [u8], at: usize)
    requires { (start + n ≤ length from.now) × (at + n ≤ length to.old) }
    ensures { to.new ≡ take at to.old ++ bytes from.now start n ++ drop (at + n) to.old }
{
    for i in 0..n {
        to[at + i] = from[start + i];
    }
}

// Amendment `n`, after those before it: it takes the place of the record that held so far at its corner unless that one is of a later day. Refused if it is at
// no corner of the table.
fn resound(corners: &[u8], amendments: &[u8], n: usize, table: &mut [u8]) -> Result<(), Refusal>
    requires corners_value { rising (places_of corners.now) ≡ true }
    requires n_bound { n < record_count amendments.now }
    requires amended_by { AmendedBy corners.now amendments.now n table.old }
    ensures value { outcome result ≡ cond (unlisted corners.now (record_bytes amendments.now n)) 15 0 }
    ensures one_more { OnOk result (AmendedBy corners.now amendments.now (n + 1) table.new) }
{
    let k = reader::find(corners, records::key_at(amendments, n));
    if k >= corners.len() / records::SIZE {
        return Err(Refusal::AmendmentPlace);
    }
    if records::day_at(table, k) <= records::day_at(amendments, n) {
        copy(
            amendments,
            records::SIZE * n,
            records::SIZE,
            table,
            records::SIZE * k,
        );
    }
    Ok(())
}

// The corner table as amended, written to the front of another table: a pass over its bytes, and a look-up for each amendment. Refused if one is at no corner.
fn amend(corners: &[u8], amendments: &[u8], table: &mut [u8]) -> Result<(), Refusal>
    requires corners_value { rising (places_of corners.now) ≡ true }
    requires record_size_len { (length corners.now % record_size ≡ 0) × (length corners.now ≤ length table.old) }
    ensures value { outcome result ≡ cond (any (unlisted corners.now) (records_of amendments.now)) 15 0 }
    ensures table_after { OnOk result (take (length corners.now) table.new ≡ amended corners.now amendments.now) }
{
    copy(corners, 0, corners.len(), table, 0);
    for n in 0..amendments.len() / records::SIZE {
        resound(corners, amendments, n, table)?;
    }
    Ok(())
}

// Checks 14 and 15, of tables that checks 1 to 6 pass: the first that applies refuses. Where none does, the front of `table` is the corner table as amended.
pub fn refusal(
    cells: &[u8],
    corners: &[u8],
    amendments: &[u8],
    table: &mut [u8],
) -> Result<(), Refusal>
    requires corners_value { first_of (table_checks cells.now corners.now) ≡ 0 }
    requires corner_limit_in_bounds { corner_limit ≤ length table.old }
    ensures value { outcome result ≡ first_of (amendment_checks cells.now corners.now amendments.now) }
    ensures table_after { OnOk result (take (length corners.now) table.new ≡ amended corners.now amendments.now) }
{
    if bad_table(amendments) {
        return Err(Refusal::AmendmentTable);
    }
    amend(corners, amendments, table)
}
