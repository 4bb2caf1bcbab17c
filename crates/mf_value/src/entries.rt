//! The entries of a table, with what they are found by.

ghost use Rattle.std.specs.Prelude.{◌≡◌, IfOk};
ghost use Rattle.std.specs.Option.{option_copied};
ghost use Rattle.mf_value.specs.Entries.{repeated_key, text_for};
ghost use Rattle.mf_value.specs.Index.{text_at, IsIndexOf};

use mf_text::{Pair, Pairs, Text, nfc};
use std::alloc::{AllocError, Global};
use std::collections::BTreeMap;
use std::marker::Model;

/// Texts, each under a key, seen as the list of their keys and texts in the order that they were
/// given in.
///
/// The normal forms of the keys (Unicode Standard Annex 15, Normalization Form C) are made and put
/// in order once, when the entries are made; a look-up is a search among them.
/// See DECISIONS 121.
#[derive(Debug, Drop)]
pub struct Entries {
    pairs: Vec<Pair>,
    /// The place of the first entry of each normal form.
    places: BTreeMap<Text, usize>,
    /// The place of the first entry whose key has the normal form of an earlier one.
    repeated: Option<usize>,
}

impl Model for Entries {
    ghost use Rattle.std.specs.Prelude.{List};
    ghost use Rattle.mf_text.specs.declared.pair.Pair.{Pair};
    ghost use Rattle.mf_value.specs.Index.{IsIndexOf};

    ghost Value = { List Pair };

    ghost view = { λ e. e.pairs.items };

    ghost invariant = { λ e. IsIndexOf e.pairs.items e.places e.repeated };
}

impl Entries {
    /// The entries with these keys and texts.
    pub fn new(alloc: Global, pairs: Pairs) -> Result<Entries, AllocError>
        ensures { IfOk result (λ entries. entries ≡ pairs) }
    {
        let Index { places, repeated } = index_of(alloc, pairs.as_slice())?;
        Ok(Entries {
            pairs: pairs.into_members(),
            places,
            repeated,
        })
    }

    /// The keys and texts in their order.
    pub fn as_slice(&self) -> &[Pair]
        ensures { result.now ≡ self.now }
    {
        self.pairs.as_slice()
    }

    /// The text of the first entry whose key has this normal form. It takes no memory.
    pub fn find(&self, form: &Text) -> Option<&Text>
        ensures { option_copied result ≡ text_for form.now self.now }
    {
        text_at(&self.pairs, self.places.get(form).copied())
    }

    /// The place, from 0, of the first entry whose key has the normal form of an earlier one.
    pub fn repeated(&self) -> Option<usize>
        ensures { result ≡ repeated_key self.now }
    {
        self.repeated
    }
}

/// Two are equal where their keys and texts are, in their order.
impl PartialEq for Entries {
    ghost use Rattle.std.specs.Cmp.Lexicographic.{pointwise, lists_per};
    ghost use Rattle.mf_text.specs.contracts.pair.PairPartialEq.TheImpl as pair_eq;
    ghost use Rattle.mf_text.specs.contracts.pair.PairPartialEq.TheImpl.Laws.{laws-law};

    ghost eq = { pointwise pair_eq.ghosts.eq };

    ghost laws = { lists_per laws-law };

    fn eq(&self, other: &Entries) -> bool {
        self.pairs == other.pairs
    }
}

impl Eq for Entries {
    ghost use Rattle.std.specs.Cmp.Lexicographic.{lists_equiv};
    ghost use Rattle.mf_text.specs.contracts.pair.PairEq.TheImpl.Laws.{laws-law};

    ghost laws = { lists_equiv laws-law };
}

/// The text of the entry at a place.
fn text_at(pairs: &[Pair], place: Option<usize>) -> Option<&Text>
    ensures { option_copied result ≡ text_at pairs.now place }
{
    match place {
        Some(place) => match pairs.get(place) {
            Some(pair) => Some(&pair.value),
            None => None,
        },
        None => None,
    }
}

/// What is kept beside the entries.
#[derive(Drop)]
struct Index {
    places: BTreeMap<Text, usize>,
    repeated: Option<usize>,
}

/// Where each normal form stands first, and the first key that is there twice.
fn index_of(alloc: Global, pairs: &[Pair]) -> Result<Index, AllocError>
    ensures { IfOk result (λ index. IsIndexOf pairs.now index.places index.repeated) }
{
    let mut places = BTreeMap::new(alloc);
    let mut repeated = None;
    for (place, pair) in pairs.iter().enumerate() {
        let form = nfc(alloc, pair.name.as_str())?;
        if places.contains_key(&form) {
            repeated = repeated.or(Some(place));
        } else {
            places.insert(form, place)?;
        }
    }
    Ok(Index { places, repeated })
}
