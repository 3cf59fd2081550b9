//! What was found, by keys.

ghost use Rattle.std.specs.Prelude.{◌≡◌, OnOk, OnErr};
ghost use Rattle.std.specs.Map.{lookup};
ghost use Rattle.indexmap.specs.IndexMap.{insert_entry};

use crate::found::Found;
use indexmap::IndexMap;
use std::alloc::AllocError;
use std::hash::Hash;

/// What was found under a key.
pub(crate) fn recall<K: Eq + Hash>(memo: &IndexMap<K, Found>, key: &K) -> Option<Found>
    ensures { result ≡ lookup (K.eq key.now) memo.now.entries }
{
    memo.get(key).copied()
}

/// Keeps what was found under a key.
pub(crate) fn keep<K: Eq + Hash + Drop>(
    memo: &mut IndexMap<K, Found>,
    key: K,
    found: Found,
) -> Result<(), AllocError>
    ensures kept { OnOk result (memo.new.entries ≡ insert_entry K.eq memo.old.entries key found) }
    ensures unchanged { OnErr result (memo.new.entries ≡ memo.old.entries) }
{
    match memo.insert(key, found) {
        Ok(_) => Ok(()),
        Err(_) => Err(AllocError),
    }
}
