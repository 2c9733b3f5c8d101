// A caller reads and writes the registers of a table.
ghost use Rattle.std.specs.Prelude.{◌≡◌, ◌<◌, [], ◌∷◌, ◌++◌};
ghost use Rattle.word_core.specs.History.{register_at};
ghost use Rattle.word_core.specs.declared.history.SharedAct.TheVariants.{Read, Write};
ghost use Rattle.stamp_table.specs.Passes.{by, Appends, memory_seen};
ghost use Rattle.stamp_calls.specs.Callers.{own_steps, GoesOn};

use crate::caller::Caller;
use stamp_table::StampTable;

/// The register of process `i` in row `r`, by one load of it.
pub fn read(table: &StampTable, caller: &mut Caller, r: u8, i: u8) -> u32
    requires here { caller.old.pass.table ≡ table.now }
    requires row { r < table.now.rows }
    requires index { i < table.now.n }
    ensures caller { GoesOn caller.old caller.new }
    ensures step { Appends caller.old.pass (by caller.old.process (Read r i result)) caller.new.pass }
    ensures own { own_steps caller.new ≡ own_steps caller.old ++ by caller.old.process (Read r i result) ∷ [] }
    ensures value { result ≡ register_at (memory_seen caller.new.pass).rows r i }
{
    let p = caller.process;
    table.read(&mut caller.pass, p, r, i)
}

/// Writes the register of the caller's own process in row `r`, by one store.
pub fn write(table: &StampTable, caller: &mut Caller, r: u8, v: u32)
    requires here { caller.old.pass.table ≡ table.now }
    requires row { r < table.now.rows }
    ensures caller { GoesOn caller.old caller.new }
    ensures step { Appends caller.old.pass (by caller.old.process (Write r v)) caller.new.pass }
    ensures own { own_steps caller.new ≡ own_steps caller.old ++ by caller.old.process (Write r v) ∷ [] }
    ensures value { register_at (memory_seen caller.new.pass).rows r caller.old.process ≡ v }
{
    let p = caller.process;
    table.write(&mut caller.pass, p, r, v);
}
