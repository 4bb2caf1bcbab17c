//! The indices of messages in the order of their tags and ids, and messages put in by it.
ghost use Rattle.std.specs.Prelude.{◌≡◌, ◌≤◌, ◌<◌, ◌+◌, ◌^◌, chars, length, position, MatchResult};
ghost use Rattle.std.specs.Arc.{arc_value};
ghost use Rattle.std.specs.List.{insert};
ghost use Rattle.std.specs.Vec.{vec_capacity, vec_len};
ghost use Rattle.mf_edition.specs.Edition.{is_named, put, put_all};
ghost use Rattle.mf_edition.specs.Items.{item_values};
ghost use Rattle.mf_edition.specs.Order.{index_cmp, names_in, IsFound, IsGap, IsOrder};

use crate::Item;
use crate::item::compare_names;
use std::cmp::Ordering;
use std::sync::Arc;

/// Where the index of a message stands in the order, or where it would have to stand.
fn search(items: &[Arc<Item>], order: &[u32], tag: &str, id: &str) -> Result<usize, usize>
    requires { IsOrder (names_in items.now) order.now }
    ensures { MatchResult result
        (λ at. IsFound (names_in items.now) order.now (chars tag.now, chars id.now) at)
        (λ at. IsGap (names_in items.now) order.now (chars tag.now, chars id.now) at) }
{
    order.binary_search_by(|index| compare_at(items, *index, tag, id))
}

/// How the message at an index compares with a tag and an id; past the last index it counts as
/// less.
fn compare_at(items: &[Arc<Item>], index: u32, tag: &str, id: &str) -> Ordering
    ensures { result ≡ index_cmp (names_in items.now) (chars tag.now, chars id.now) index }
{
    match items.get(index as usize) {
        Some(item) => compare_names(item, tag, id),
        None => Ordering::Less,
    }
}

/// The index of the message of a tag and an id, if there is one.
pub fn index_of(items: &[Arc<Item>], order: &[u32], tag: &str, id: &str) -> Option<u32>
    requires { IsOrder (names_in items.now) order.now }
    ensures { result ≡ position (is_named (chars tag.now) (chars id.now)) (item_values items.now) }
{
    match search(items, order, tag, id) {
        Ok(at) => Some(order[at]),
        Err(_) => None,
    }
}

/// Puts messages in, one after the other. There is room for them, so that it takes no memory.
pub fn put_all(items: &mut Vec<Arc<Item>>, order: &mut Vec<u32>, new: Vec<Arc<Item>>)
    requires order { IsOrder (names_in items.old.items) order.old.items }
    requires few { length (put_all (item_values items.old.items) (item_values new.items)) < 2 ^ 32 }
    requires items_fit { vec_len items.old + vec_len new ≤ vec_capacity items.old }
    requires indices_fit { vec_len order.old + vec_len new ≤ vec_capacity order.old }
    ensures items { item_values items.new.items
        ≡ put_all (item_values items.old.items) (item_values new.items) }
    ensures order { IsOrder (names_in items.new.items) order.new.items }
{
    for item in new {
        put(items, order, item);
    }
}

/// Puts a message in: one of its tag and id keeps its index, and another goes to the end.
fn put(items: &mut Vec<Arc<Item>>, order: &mut Vec<u32>, item: Arc<Item>)
    requires order { IsOrder (names_in items.old.items) order.old.items }
    requires few { length items.old.items < 2 ^ 32 }
    requires item_fits { vec_len items.old < vec_capacity items.old }
    requires index_fits { vec_len order.old < vec_capacity order.old }
    ensures items { item_values items.new.items
        ≡ put (item_values items.old.items) (arc_value item) }
    ensures order { IsOrder (names_in items.new.items) order.new.items }
    ensures items_taken { vec_len items.new ≤ vec_len items.old + 1 }
    ensures indices_taken { vec_len order.new ≤ vec_len order.old + 1 }
    ensures items_fit { vec_capacity items.old ≤ vec_capacity items.new }
    ensures indices_fit { vec_capacity order.old ≤ vec_capacity order.new }
{
    match search(items, order, item.tag(), item.id()) {
        Ok(at) => {
            let index = order[at] as usize;
            items[index] = item;
        }
        Err(at) => {
            insert_reserved(order, at, items.len() as u32);
            items.push_reserved(item);
        }
    }
}

/// Inserts an index into an order that has room for it.
fn insert_reserved(order: &mut Vec<u32>, at: usize, index: u32)
    requires within { at ≤ vec_len order.old }
    requires fits { vec_len order.old < vec_capacity order.old }
    ensures items { order.new.items ≡ insert order.old.items at index }
    ensures len { vec_len order.new ≡ vec_len order.old + 1 }
    ensures capacity { vec_capacity order.old ≤ vec_capacity order.new }
{
    if let Err(_) = order.insert(at, index) {
        unreachable!()
    }
}
