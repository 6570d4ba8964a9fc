//! The large configuration.

ghost use Rattle.std.specs.Prelude.{◌≡◌, ℕ, ◌<◌, ◌^◌, [], ◌∷◌, IfOk, replicate};
ghost use Rattle.config_text.specs.Valid.{IsValid};
ghost use Rattle.config_text.specs.declared.config.Item.TheVariants.{Mix};
ghost use Rattle.lists.specs.Lists.{below};
ghost use Rattle.workload.specs.Large.{large_config, large_pool};

use crate::classes::{CLASSES, class_table};
use crate::processes::{PROCESSORS, processes};
use crate::scripts::scripts;
use config_text::{Config, Item, Pool};
use lists::Items;
use std::alloc::{AllocError, Global};

/// How many console lines of a class are kept.
const CONSOLE: u32 = 4096;

/// How many events there are.
const EVENTS: u32 = 4_000_000;

/// The pool of each class: one frame, one page and no volume.
const POOL: Pool = Pool {
    frames: 1,
    pages: 1,
    volume: 0,
};

/// The pools of all classes.
fn pools(alloc: Global) -> Result<Items<Pool>, AllocError>
    ensures { IfOk result (λ pools. pools ≡ replicate 8 large_pool) }
{
    Ok(Items::of(vec![in alloc; POOL; CLASSES as usize]?))
}

/// Each class once.
fn cycle(alloc: Global) -> Result<Items<u8>, AllocError>
    ensures { IfOk result (λ cycle. cycle ≡ below 8) }
{
    Ok(Items::of(Vec::from_slice(alloc, &[0, 1, 2, 3, 4, 5, 6, 7])?))
}

/// Events drawn from the number.
fn schedule(alloc: Global, number: u64) -> Result<Items<Item>, AllocError>
    ensures { IfOk result (λ items. items ≡ Mix number 4000000 ∷ []) }
{
    let draw = Item::Mix {
        start: number,
        count: EVENTS,
    };
    Ok(Items::of(Vec::from_slice(alloc, &[draw])?))
}

/// Each number below 2^64 has a valid configuration.
pub fn large_law()
    ensures { (n : ℕ) → n < 2 ^ 64 → IsValid (large_config n) }
{}

/// The large configuration of a number.
#[tactic(auto, unfolding(crate::specs::Large::large_config))]
pub fn large(alloc: Global, number: u64) -> Result<Config, AllocError>
    ensures { IfOk result (λ k. k ≡ large_config number) }
{
    Ok(Config {
        table: class_table(alloc)?,
        pools: pools(alloc)?,
        processors: PROCESSORS,
        cycle: cycle(alloc)?,
        rounds: 1,
        quantum: 1,
        console: CONSOLE,
        scripts: scripts(alloc)?,
        gates: Items::of(Vec::new(alloc)),
        processes: processes(alloc)?,
        schedule: schedule(alloc, number)?,
    })
}
