ghost use Rattle.std.specs.Prelude.{◌≡◌, ◌≤◌, ◌↔◌, IsSome, IfSome};
ghost use Rattle.code_core.specs.Instructions.{AreSizes, sizes};

use std::marker::Model;

/// How many processes run a code, and how many variables and scans each of them has and how many
/// register rows all of them.
#[derive(Clone, Copy, PartialEq, Eq, Debug)]
pub struct Sizes {
    processes: u8,
    variables: u8,
    scans: u8,
    rows: u8,
}

impl Model for Sizes {
    ghost use Rattle.code_core.specs.Instructions.{CodeSizes, AreSizes};

    ghost Value = { CodeSizes };

    ghost view = { λ fields. record { processes = fields.processes; variables = fields.variables; scans = fields.scans; rows = fields.rows } };

    ghost invariant = { λ fields. AreSizes (record { processes = fields.processes; variables = fields.variables; scans = fields.scans; rows = fields.rows }) };

    ghost inverse = { λ sizes. record { processes = sizes.processes; variables = sizes.variables; scans = sizes.scans; rows = sizes.rows } };
}

impl Sizes {
    /// `None` where the processes are not 1 to 6 or there are more than 64 variables, 16 scans or 8
    /// register rows.
    pub fn new(processes: u8, variables: u8, scans: u8, rows: u8) -> Option<Sizes>
        ensures some { IsSome result ↔ AreSizes (sizes processes variables scans rows) }
        ensures sizes { IfSome result (λ made. made ≡ sizes processes variables scans rows) }
    {
        let few = processes <= 6 && variables <= 64 && scans <= 16 && rows <= 8;
        if processes == 0 || !few {
            return None;
        }
        Some(Sizes {
            processes,
            variables,
            scans,
            rows,
        })
    }

    /// 1 to 6.
    pub fn processes(&self) -> u8
        ensures count { result ≡ self.now.processes }
        ensures at_least_one { 1 ≤ result }
        ensures at_most_six { result ≤ 6 }
    {
        self.processes
    }

    /// At most 64.
    pub fn variables(&self) -> u8
        ensures { result ≡ self.now.variables }
    {
        self.variables
    }

    /// At most 16.
    pub fn scans(&self) -> u8
        ensures { result ≡ self.now.scans }
    {
        self.scans
    }

    /// The register rows, at most 8.
    pub fn registers(&self) -> u8
        ensures { result ≡ self.now.rows }
    {
        self.rows
    }
}
