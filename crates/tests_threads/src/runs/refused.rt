//! A thread that is refused after others have started.

ghost use Rattle.std.specs.Prelude.{◌≡◌, vec_len};

use code_machine::{Ask, Code};
use code_text::read_code;
use std::alloc::{AllocError, Global};
use std::sync::Wait;
use std::sync::atomic::AtomicU64;
use std::sync::atomic::Ordering::SeqCst;
use std::test::Fail;
use std::thread::Threads;
use tests_shared::is_same;
use tick_run::{Gate, RunFault, run};

// while 1 { put r me; }
const WRITES: &str = "Push 1\nJumpZero 5\nMe\nPut 0\nJump 0\nHalt\n";

struct Counted<'a> {
    dropped: &'a AtomicU64,
}

impl Gate for Counted<'_> {
    fn before(&mut self, _p: u8, _ask: Ask) {}
}

impl Drop for Counted<'_> {
    fn drop(self) {
        self.dropped.fetch_add(1, SeqCst);
        let Self { dropped: _ } = self;
    }
}

// Takes all of the address space, the largest blocks first, so that no further thread has its stack.
fn all_space(alloc: Global) -> Result<Vec<Vec<u8>>, AllocError> {
    let mut blocks = Vec::with_capacity(alloc, 65_536)?;
    let mut size = 1usize << 40;
    for _ in 0..65_536u32 {
        match Vec::<u8>::with_capacity(alloc, size) {
            Ok(block) => blocks.push(block)?,
            Err(_) => {
                size /= 2;
                if size < 1 << 20 {
                    break;
                }
            }
        }
    }
    Ok(blocks)
}

// So many blocks, each of which has room for the stack of one thread.
fn stacks(alloc: Global, count: usize) -> Result<Vec<Vec<u8>>, AllocError> {
    let mut blocks = Vec::with_capacity(alloc, 8)?;
    for _ in 0..count {
        blocks.push(Vec::<u8>::with_capacity(alloc, 9 << 20)?)?;
    }
    Ok(blocks)
}

// Takes all but room for the stacks of so many threads.
fn all_but(alloc: Global, room: usize) -> Result<Vec<Vec<u8>>, AllocError> {
    let stacks = stacks(alloc, room)?;
    let blocks = all_space(alloc)?;
    drop(stacks);
    Ok(blocks)
}

fn counted_gates(
    alloc: Global,
    n: u8,
    dropped: &AtomicU64,
) -> Result<Vec<Counted<'_>>, AllocError> {
    let mut gates = Vec::new(alloc);
    for _ in 0..n {
        gates.push(Counted { dropped })?;
    }
    Ok(gates)
}

// How a run ends that has room for the stacks of so many threads.
fn fault_of<R: AllocGlobal + Threads + Wait>(
    rt: &R,
    code: &Code,
    gates: Vec<Counted<'_>>,
    room: usize,
) -> Result<Option<RunFault>, AllocError>
    requires { vec_len gates ≡ code.now.sizes.processes }
{
    let blocks = all_but(rt.alloc(), room)?;
    let fault = run(rt, rt.alloc(), code, gates, 100_000, 4).err();
    drop(blocks);
    Ok(fault)
}

fn code_of(alloc: Global, n: u8) -> Result<Code, Fail> {
    let text = format!(in alloc; "tickcode 1 {n} 0 0 1\n{WRITES}")?;
    Ok(read_code(alloc, text.as_str())?)
}

// There is room for the stacks of so many threads. Where these are fewer than the processes the run is
// refused, and every worker that had started has ended by then: all gates are gone. A worker on the
// caller's own thread would want no stack, and the run would be made.
fn is_refused<R: AllocGlobal + Threads + Wait>(rt: &R, n: u8, room: usize) -> Result<(), Fail> {
    let dropped = AtomicU64::new(0);
    let gates = counted_gates(rt.alloc(), n, &dropped)?;
    let code = code_of(rt.alloc(), n)?;
    if gates.len() != code.sizes().processes() as usize {
        return Err(Fail::from("a gate for each process"));
    }
    let fault = fault_of(rt, &code, gates, room)?;
    is_same(
        &(fault, dropped.load(SeqCst)),
        &(Some(RunFault::NoThread), u64::from(n)),
    )
}

// The only thread, the second one, one amid others, and the last one.
#[test]
fn a_start_is_refused(rt: HostRuntime) -> Result<(), Fail> {
    for (n, room) in [(1, 0), (2, 1), (6, 2), (6, 5)] {
        is_refused(&rt, n, room)?;
    }
    Ok(())
}
