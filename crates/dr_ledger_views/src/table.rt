//! Entries in the order of their keys, in a list or a vector.
ghost use Rattle.std.specs.Prelude.{◌≡◌, ◌<◌, ◌≤◌, ◌+◌, T, IsSome, length, option_copied, vec_len};
ghost use Rattle.std.specs.Prelude.{vec_capacity};
ghost use Rattle.std.specs.List.Sorted.{IsSearchInRange};
ghost use Rattle.std.specs.FinMap.{is_sorted, find, put as put_entry};
ghost use Rattle.dr_ledger_views.specs.Tables.{IsPlace};

/// Where the key is, or where it would go, where keys rise.
fn place<K: Ord, V>(entries: &[(K, V)], key: &K) -> Result<usize, usize>
    ensures bound { IsSearchInRange result (length entries.now) }
    ensures found { T (is_sorted K.cmp entries.now) → IsPlace K.cmp key.now entries.now result }
{
    entries.binary_search_by(|entry| entry.0.cmp(key))
}

/// The value at the key, where keys rise.
pub fn get<'a, K: Ord, V>(entries: &'a [(K, V)], key: &K) -> Option<&'a V>
    ensures { T (is_sorted K.cmp entries.now)
        → find K.cmp key.now entries.now ≡ option_copied result }
{
    match place(entries, key) {
        Ok(at) => Some(&entries[at].1),
        Err(_) => None,
    }
}

/// Puts the value at the key. There is room for one more.
pub fn put<K: Ord + Drop, V: Drop>(entries: &mut Vec<(K, V)>, key: K, value: V)
    requires sorted { T (is_sorted K.cmp entries.old.items) }
    requires room { vec_len entries.old < vec_capacity entries.old }
    ensures items { entries.new.items ≡ put_entry K.cmp key value entries.old.items }
    ensures sorted { T (is_sorted K.cmp entries.new.items) }
{
    put_in(entries, key, value);
}

fn put_in<K: Ord + Drop, V: Drop>(entries: &mut Vec<(K, V)>, key: K, value: V)
    requires sorted { T (is_sorted K.cmp entries.old.items) }
    requires room { vec_len entries.old < vec_capacity entries.old }
    ensures { entries.new.items ≡ put_entry K.cmp key value entries.old.items }
{
    match place(entries.as_slice(), &key) {
        Ok(at) => entries[at].1 = value,
        Err(at) => {
            let _ = entries.insert(at, (key, value));
        }
    }
}

/// Puts the value at the key, which is there.
pub fn set<K: Ord + Drop, V: Drop>(entries: &mut Vec<(K, V)>, key: &K, value: V)
    requires sorted { T (is_sorted K.cmp entries.old.items) }
    requires there { IsSome (find K.cmp key.now entries.old.items) }
    ensures items { entries.new.items ≡ put_entry K.cmp key.now value entries.old.items }
    ensures sorted { T (is_sorted K.cmp entries.new.items) }
{
    set_in(entries, key, value);
}

fn set_in<K: Ord + Drop, V: Drop>(entries: &mut Vec<(K, V)>, key: &K, value: V)
    requires sorted { T (is_sorted K.cmp entries.old.items) }
    requires there { IsSome (find K.cmp key.now entries.old.items) }
    ensures { entries.new.items ≡ put_entry K.cmp key.now value entries.old.items }
{
    if let Ok(at) = place(entries.as_slice(), key) {
        entries[at].1 = value;
    }
}
