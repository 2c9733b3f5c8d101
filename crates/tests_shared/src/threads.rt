ghost use Rattle.std.specs.Prelude.{◌≡◌, ◌<◌, ◌≤◌, ℕ, true, slice_set, slice_index_or, IfOk, vec_len};
ghost use Rattle.std.specs.List.{enumerate_from};
ghost use Rattle.stamp_table.specs.Passes.{Holds, none_held, part};

use stamp_table::{Pass, StampTable};
use std::alloc::{AllocError, Global};
use std::thread::{self, Threads};

/// Does the work of each process of the table on a thread of its own, with a pass that holds it alone:
/// what each came back with, in order of processes.
pub fn on_threads<R: Threads + Sync, X: Send + Drop, F: Fn(Pass, u8) -> X + Sync>(
    rt: &R,
    alloc: Global,
    table: &StampTable,
    all: Pass,
    work: &F,
) -> Result<Vec<X>, AllocError>
    requires here { all.table ≡ table.now }
    requires few { table.now.n ≤ 6 }
    requires all { (p : ℕ) → p < table.now.n → Holds all.held p }
    requires can { (p : ℕ) → p < table.now.n → F.pre work.now (part all (slice_set none_held p true)) p }
    ensures count { IfOk result (λ done. vec_len done ≡ table.now.n) }
    ensures each { IfOk result (λ done. (p : ℕ) (d : X) → p < table.now.n → F.post work.now (part all (slice_set none_held p true)) p (slice_index_or done.items p d)) }
{
    let passes = match table.split_all(alloc, all) {
        Ok(passes) => passes,
        Err((_pass, refused)) => return Err(refused),
    };
    let jobs = numbered(alloc, passes)?;
    let one = |job: (u8, Pass)| -> X
        requires { F.pre work.now job.1 job.0 }
        ensures { F.post work.entry.now job.1 job.0 result }
    { work(job.1, job.0) };
    let done = thread::map_vec(rt, jobs, &one)?;
    Ok(done)
}

// The passes with their places.
fn numbered(alloc: Global, passes: Vec<Pass>) -> Result<Vec<(u8, Pass)>, AllocError>
    requires { vec_len passes ≤ 6 }
    ensures { IfOk result (λ jobs. jobs.items ≡ enumerate_from 0 passes.items) }
{
    let mut jobs = Vec::with_capacity(alloc, passes.len())?;
    let mut p = 0u8;
    for pass in passes {
        jobs.push_reserved((p, pass));
        p += 1;
    }
    Ok(jobs)
}
