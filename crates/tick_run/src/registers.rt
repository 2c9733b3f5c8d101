// The register rows of an outcome. Their memory is taken before there is anything to write.

ghost use Rattle.std.specs.Prelude.{[], ◌≡◌, ◌≤◌, ◌<◌, ℕ, IfOk, length, map, slice_index_or, All, vec_items, vec_len, vec_capacity};
ghost use Rattle.tick_run.specs.prover.Rows.{IsBlank, HasRoom};

use stamp_table::Final;
use std::alloc::{AllocError, Global};

/// Empty rows with room for a value of each process, and room for as many rows.
#[derive(Drop)]
pub struct Blank {
    rows: Vec<Vec<u32>>,
    filled: Vec<Vec<u32>>,
}

/// Room for the registers of so many rows of so many processes.
pub fn blank_rows(alloc: Global, rows: u8, processes: u8) -> Result<Blank, AllocError>
    ensures { IfOk result (λ blank. HasRoom rows processes blank.rows.items blank.filled.items (vec_capacity blank.filled)) }
{
    let mut all = Vec::with_capacity(alloc, usize::from(rows))?;
    let filled = Vec::with_capacity(alloc, usize::from(rows))?;
    for _ in 0..rows {
        let row = Vec::with_capacity(alloc, usize::from(processes))?;
        all.push_reserved(row);
    }
    Ok(Blank { rows: all, filled })
}

/// The registers that stood in the table at its end.
pub fn filled_rows(end: &Final, blank: Blank, rows: u8, processes: u8) -> Vec<Vec<u32>>
    requires room { HasRoom rows processes blank.rows.items blank.filled.items (vec_capacity blank.filled) }
    requires rows { length end.now.rows ≡ rows }
    requires processes { length end.now.labels ≡ processes }
    requires each { All (λ row. length row ≡ processes) end.now.rows }
    ensures { map (λ row. row.items) result.items ≡ end.now.rows }
{
    let Blank {
        rows: mut empty,
        mut filled,
    } = blank;
    for r in 0..rows {
        let Some(row) = empty.pop() else {
            unreachable!()
        };
        filled.push_reserved(filled_row(end, row, r, processes));
    }
    filled
}

fn filled_row(end: &Final, empty: Vec<u32>, r: u8, processes: u8) -> Vec<u32>
    requires blank { IsBlank processes empty }
    requires row { r < length end.now.rows }
    requires processes { length end.now.labels ≡ processes }
    requires each { length (slice_index_or end.now.rows r []) ≡ processes }
    ensures { result.items ≡ slice_index_or end.now.rows r [] }
{
    let mut row = empty;
    for i in 0..processes {
        row.push_reserved(end.register(r, i));
    }
    row
}
