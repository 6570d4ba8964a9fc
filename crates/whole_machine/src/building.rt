//! How a state is built.

ghost use Rattle.std.specs.Prelude.{◌≡◌, ◌<◌, ◌≤◌, [], IfOk, IsOk, All, Some, None, map, length, replicate, slice_set};
ghost use Rattle.class_model.specs.Config.{Config, shared_of, classes};
ghost use Rattle.class_model.specs.Shared.{IsShared};
ghost use Rattle.class_model.specs.Run.{opening};
ghost use Rattle.class_model.specs.State.{process_at};
ghost use Rattle.class_model.specs.Valid.{IsConfig};
ghost use Rattle.whole_machine.specs.Building.{with_new, bare, built};
ghost use Rattle.whole_machine.specs.Parts.{state_of, no_part};
ghost use Rattle.whole_machine.specs.Fits.{PartsFit};

use crate::name::ProcName;
use crate::part::PartState;
use crate::state::ModelState;
use class_model::{Pool, ProcessState, Shared};
use labels::ClassTable;
use lists::Items;
use rings::Ring;
use std::alloc::{AllocError, Global};

/// The parts of so many classes of which nothing is listed.
fn empty_parts(alloc: Global, count: u8) -> Result<Vec<PartState>, AllocError>
    ensures { IfOk result (λ parts. parts.items ≡ replicate count no_part) }
{
    let mut parts = Vec::new(alloc);
    for _ in 0..count {
        let part = PartState::new(alloc)?;
        parts.push(part)?;
    }
    Ok(parts)
}

/// The parts at an opening without records and processes: the next serial of class 0 is 1, since the root has serial 0.
fn first_parts(alloc: Global, count: u8) -> Result<Vec<PartState>, AllocError>
    requires { 0 < count }
    ensures { IfOk result (λ parts. parts.items ≡ slice_set (replicate count no_part) 0 (record no_part { next_serial = 1 })) }
{
    let mut parts = empty_parts(alloc, count)?;
    let first = &mut parts[0];
    first.take_root();
    Ok(parts)
}

/// Records, put one after the other into the opening of a valid configuration without records and processes, and then
/// its processes, each in the next slot of its processor and class, make its opening.
#[tactic(auto, using(crate::proofs::Built::building))]
pub fn building_law()
    ensures { (k : Config) → IsConfig k → built k (opening (bare k)) ≡ opening k }
{}

impl PartState {
    /// The first serial is the root's.
    fn take_root(&mut self)
        ensures { self.new ≡ record self.old { next_serial = 1 } }
    {
        self.next_serial = 1;
    }
}

impl ModelState {
    /// The opening state without records and processes, where no step changes this.
    pub fn opening(alloc: Global, shared: Shared) -> Result<ModelState, AllocError>
        ensures shared { IfOk result (λ m. m.shared ≡ shared) }
        ensures opening { IfOk result (λ m. (k : Config) → shared_of k ≡ shared → k.processes ≡ [] → k.records ≡ [] → state_of m ≡ opening k) }
    {
        shared.shared_law();
        let table = shared.table();
        table.table_law();
        let parts = first_parts(alloc, table.count())?;
        Ok(ModelState {
            alloc,
            shared,
            parts,
        })
    }

    /// The opening state with these classes, pools and console size, and without scripts, gates, records and processes.
    pub fn begin(
        alloc: Global,
        table: ClassTable,
        pools: Vec<Pool>,
        console: u32,
    ) -> Result<ModelState, AllocError>
        requires { IsShared (record { table = table; pools = pools.items; console = console; scripts = []; gates = [] }) }
        ensures shared { IfOk result (λ m. m.shared ≡ record { table = table; pools = pools.items; console = console; scripts = []; gates = [] }) }
        ensures opening { IfOk result (λ m. (k : Config) → shared_of k ≡ record { table = table; pools = pools.items; console = console; scripts = []; gates = [] } →
            k.processes ≡ [] → k.records ≡ [] → state_of m ≡ opening k) }
    {
        let shared = Shared {
            table,
            pools: Items::of(pools),
            console,
            scripts: Items::of(Vec::new(alloc)),
            gates: Items::of(Vec::new(alloc)),
        };
        ModelState::opening(alloc, shared)
    }

    /// A process begins at the start of a script. The answer is always Ok.
    pub fn put_process(&mut self, name: &ProcName, script: u8, ring: Ring) -> Result<(), AllocError>
        requires class { name.now.class < classes self.old.shared }
        requires processor { name.now.processor < 4 }
        requires slot { name.now.slot < 4 }
        requires absent { process_at (state_of self.old) name.now ≡ None }
        ensures shared { self.new.shared ≡ self.old.shared }
        ensures ok { IfOk result (λ _. state_of self.new ≡ with_new (state_of self.old) name.now script ring) }
        ensures done { IsOk result }
    {
        let process = ProcessState::new(name.class, script, ring, 0);
        let part = &mut self.parts[name.class as usize];
        part.put(name.processor, name.slot, process);
        Ok(())
    }
}
