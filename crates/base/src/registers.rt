ghost use Rattle.std.specs.Prelude.{◌≡◌, IfOk, map};
ghost use Rattle.base.specs.RegisterRows.{start_rows, register_at, register_set};

use crate::NoMemory;
use crate::place::set_at;
use std::alloc::Global;
use std::marker::Model;

/// The register rows: in each row a register of every process. Contracts see the list of rows.
#[derive(Drop)]
pub struct Registers {
    rows: Vec<Vec<u32>>,
}

impl Model for Registers {
    ghost use Rattle.std.specs.Prelude.{ℕ, List, map};

    ghost Value = { List (List ℕ) };

    ghost view = { λ fields. map (λ row. row.items) fields.rows.items };
}

impl Registers {
    /// Rows of registers of `processes` processes, all 0.
    pub fn new(alloc: Global, rows: u8, processes: u8) -> Result<Registers, NoMemory>
        ensures { IfOk result (λ registers. registers ≡ start_rows rows processes) }
    {
        let mut all = Vec::with_capacity(alloc, usize::from(rows))?;
        for _ in 0..rows {
            let row = vec![in alloc; 0; usize::from(processes)]?;
            all.push(row)?;
        }
        Ok(Registers { rows: all })
    }

    /// The value in row `row` of process `process`, and 0 where there is no such register.
    pub fn get(&self, row: u8, process: u8) -> u32
        ensures { result ≡ register_at self.now row process }
    {
        match self.rows.get(row as usize) {
            Some(values) => values.get(process as usize).copied().unwrap_or(0),
            None => 0,
        }
    }

    /// Writes the value in row `row` of process `process`, where there is such a register.
    pub fn set(&mut self, row: u8, process: u8, value: u32)
        ensures { self.new ≡ register_set self.old row process value }
    {
        let Some(values) = self.rows.get_mut(row as usize) else {
            return;
        };
        set_at(values, process as usize, value);
    }

    /// The rows themselves.
    pub fn into_rows(self) -> Vec<Vec<u32>>
        ensures { map (λ row. row.items) result.items ≡ self }
    {
        self.rows
    }
}
