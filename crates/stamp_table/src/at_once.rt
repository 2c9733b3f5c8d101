// Splits a pass into one for each process, and makes one pass of several.
ghost use Rattle.std.specs.Prelude.{◌≡◌, ◌↔◌, ◌<◌, ℕ, true, All, IsNone, IfSome, IfOk, IfErr, Some, slice_get, slice_set, vec_len};
ghost use Rattle.stamp_table.specs.Passes.{Holds, none_held, part, AllMeet};

use crate::pass::Pass;
use crate::table::StampTable;
use std::alloc::{AllocError, Global};

impl StampTable {
    /// A pass for each process of the table, in their order, each of which holds that one alone. All
    /// have seen what the pass had. Where memory is refused the pass comes back.
    pub fn split_all(&self, alloc: Global, pass: Pass) -> Result<Vec<Pass>, (Pass, AllocError)>
        requires here { pass.table ≡ self.now }
        requires all { (p : ℕ) → p < self.now.n → Holds pass.held p }
        ensures count { IfOk result (λ passes. vec_len passes ≡ self.now.n) }
        ensures each { IfOk result (λ passes. (p : ℕ) → p < self.now.n → slice_get passes.items p ≡ Some (part pass (slice_set none_held p true))) }
        ensures refused { IfErr result (λ refused. refused.0 ≡ pass) }
    {
        let mut passes = match Vec::with_capacity(alloc, usize::from(self.n)) {
            Ok(passes) => passes,
            Err(refused) => return Err((pass, refused)),
        };
        let mut rest = pass;
        for p in 0..self.n {
            let (left, one) = self.split(rest, p);
            passes.push_reserved(one);
            rest = left;
        }
        Ok(passes)
    }

    /// A pass that holds what any of them holds, and has seen what any of them had. There is none
    /// where there are no passes.
    pub fn meet_all(&self, mut passes: Vec<Pass>) -> Option<Pass>
        requires { All (λ pass. pass.table ≡ self.now) passes.items }
        ensures none { IsNone result ↔ (vec_len passes ≡ 0) }
        ensures met { IfSome result (λ met. AllMeet self.now passes.items met) }
    {
        let first = passes.pop()?;
        let mut met = self.looked_at(first);
        while let Some(pass) = passes.pop() {
            met = self.meet(met, pass);
        }
        Some(met)
    }
}
