//! Lists whose items are found by their keys.

ghost use Rattle.std.specs.Prelude.{◌≡◌, ◌++◌, ◌∷◌, [], is_ok, if◌then◌else◌};
ghost use Rattle.indexmap.specs.IndexSet.{insert_key, IsUnique};

use indexmap::IndexSet;
use std::alloc::AllocError;
use std::hash::Hash;

/// One item more, and its key. NoMemory changes nothing.
pub(crate) fn push_keyed<T: Drop, K: Eq + Hash + Drop>(
    items: &mut Vec<T>,
    keys: &mut IndexSet<K>,
    item: T,
    key: K,
) -> Result<(), AllocError>
    ensures items { items.new.items ≡ (if is_ok result then items.old.items ++ item ∷ [] else items.old.items) }
    ensures keys { keys.new.keys ≡ (if is_ok result then insert_key K.eq keys.old.keys key else keys.old.keys) }
    ensures unique { IsUnique K.eq keys.old → IsUnique K.eq keys.new }
{
    items.reserve(1)?;
    keys.insert(key)?;
    items.push(item)?;
    Ok(())
}
