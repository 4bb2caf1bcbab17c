//! What a log says of its callers.
use mf_edition::Log;
use std::alloc::{AllocError, Global};
use std::collections::BTreeMap;

/// Whether the entries of each caller are numbered from 1, in order.
pub fn is_numbered(alloc: Global, log: &Log) -> Result<bool, AllocError> {
    let mut made: BTreeMap<u64, u64> = BTreeMap::new(alloc);
    for k in 0..log.len() {
        let Some(entry) = log.get(k) else {
            return Ok(false);
        };
        let before = made.get(&entry.caller).copied().unwrap_or(0);
        if Some(entry.nth) != before.checked_add(1) {
            return Ok(false);
        }
        made.insert(entry.caller, entry.nth)?;
    }
    Ok(true)
}
