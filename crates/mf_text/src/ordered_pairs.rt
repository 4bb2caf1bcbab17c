ghost use Rattle.std.specs.Prelude.{◌≡◌, [], MatchResult, OnErr, OnOk};
ghost use Rattle.mf_text.specs.Ordered.{StandsAt, LacksAt};
ghost use Rattle.mf_text.specs.Order.{byte_cmp};
ghost use Rattle.mf_text.specs.Pairs.{insert_pair, AreInByteOrder};

use crate::{List, Pair, Pairs, Text};
use std::alloc::{AllocError, Global};
use std::cmp::Ordering;
use std::marker::Model;

/// Names with their values in the byte order of the names, each name once.
#[derive(Debug, Drop)]
pub struct OrderedPairs {
    pairs: Vec<Pair>,
}

impl Model for OrderedPairs {
    ghost use Rattle.std.specs.Prelude.{List};
    ghost use Rattle.mf_text.specs.declared.pair.Pair.{Pair};
    ghost use Rattle.mf_text.specs.Pairs.{AreInByteOrder};

    ghost Value = { List Pair };

    ghost view = { λ p. p.pairs.items };

    ghost invariant = { λ p. AreInByteOrder p.pairs.items };
}

impl OrderedPairs {
    /// No pairs, which take no memory.
    pub fn new(alloc: Global) -> OrderedPairs
        ensures { result ≡ [] }
    {
        OrderedPairs {
            pairs: Vec::new(alloc),
        }
    }

    /// Puts a pair where its name stands in the order. Of two with one name the later one counts.
    pub fn put(&mut self, pair: Pair) -> Result<(), AllocError>
        ensures ok { OnOk result (self.new ≡ insert_pair pair self.old) }
        ensures err { OnErr result (self.new ≡ self.old) }
    {
        match search(&self.pairs, &pair.name) {
            Ok(at) => self.pairs[at] = pair,
            Err(at) => self.pairs.insert(at, pair)?,
        }
        Ok(())
    }

    /// The pairs in their order.
    pub fn as_slice(&self) -> &[Pair]
        ensures pairs { result.now ≡ self.now }
        ensures order { AreInByteOrder self.now }
    {
        self.pairs.as_slice()
    }

    /// The pairs in their order, as a list.
    pub fn into_pairs(self) -> Pairs
        ensures pairs { result ≡ self }
        ensures order { AreInByteOrder self }
    {
        let OrderedPairs { pairs } = self;
        List::from(pairs)
    }
}

/// Where the pair of a name stands, or where it would have to stand.
fn search(pairs: &[Pair], name: &Text) -> Result<usize, usize>
    requires { AreInByteOrder pairs.now }
    ensures { MatchResult result (λ at. StandsAt (λ pair. byte_cmp pair.name name.now) pairs.now at)
        (λ at. LacksAt (λ pair. byte_cmp pair.name name.now) pairs.now at) }
{
    pairs.binary_search_by(|pair| pair.name.cmp(name))
}
