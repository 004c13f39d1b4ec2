// A survey that checks 1 to 6 pass, with the tables that they leave: as it was lent, and as amended.
#![tactic(auto)]

ghost use Rattle.std.specs.Prelude.{◌≡◌, ◌≤◌, ◌<◌, ℕ, IfOk, length, slice_index};
ghost use Rattle.rules.specs.Refusals.{outcome};
ghost use Rattle.rules.specs.Outputs.{corner_limit, first_of, table_checks};
ghost use Rattle.rules.specs.Resounding.{amended, amendment_checks};
ghost use Rattle.checks.specs.Tables.{Tables};

use rules::Refusal;

// A survey whose tables checks 1 to 6 pass, with what these filled: the places and levels of its cells, and the corner records of each.
#[derive(Clone, Copy)]
pub struct Passed<'a> {
    pub cells: &'a [u8],
    pub corners: &'a [u8],
    pub laid: &'a [u64],
    pub octants: &'a [u16],
    pub ghost tables: { Tables cells.now corners.now laid.now octants.now },
    pub ghost bytes: { (k : ℕ) → slice_index corners.now k < 256 },
}

impl<'a> Passed<'a> {
    // Checks 1 to 6, with the tables that they fill: the first that applies refuses.
    pub fn read(
        cells: &'a [u8],
        corners: &'a [u8],
        laid: &'a mut [u64],
        octants: &'a mut [u16],
    ) -> Result<Passed<'a>, Refusal>
        requires { (length laid.old ≡ 2049) × (length octants.old ≡ 16392) }
        ensures value { outcome result ≡ first_of (table_checks cells.now corners.now) }
        ensures survey { IfOk result (λ s. (s.cells.now ≡ cells.now) × (s.corners.now ≡ corners.now)) }
    {
        crate::read(cells, corners, laid, octants)?;
        Ok(Passed {
            cells,
            corners,
            laid,
            octants,
        })
    }

    // The survey as amended, its corner table at the front of `table`: 14 or 15 refuses.
    pub fn amended(self, amendments: &[u8], table: &'a mut [u8]) -> Result<Passed<'a>, Refusal>
        requires { corner_limit ≤ length table.old }
        ensures value { outcome result ≡ first_of (amendment_checks self.entry.cells.now self.entry.corners.now amendments.now) }
        ensures survey { IfOk result (λ s. (s.cells.now ≡ self.entry.cells.now)
            × (s.corners.now ≡ amended self.entry.corners.now amendments.now)) }
    {
        amendments::refusal(self.cells, self.corners, amendments, table)?;
        Ok(self.with_corners(&table[..self.corners.len()]))
    }

    // The same with another corner table, which these tables serve too.
    fn with_corners(self, in_force: &'a [u8]) -> Passed<'a>
        requires { Tables self.cells.now in_force.now self.laid.now self.octants.now }
        ensures { (result.cells.now ≡ self.entry.cells.now) × (result.corners.now ≡ in_force.now) }
    {
        Passed {
            cells: self.cells,
            corners: in_force,
            laid: self.laid,
            octants: self.octants,
        }
    }
}
