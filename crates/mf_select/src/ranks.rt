//! Ranks, and the least of them.

ghost use Rattle.std.specs.Prelude.{◌≡◌, drop};
ghost use Rattle.std.specs.Option.{is_some};
ghost use Rattle.mf_select.specs.Ranks as ranked;

use mf_text::List;

/// How well a key matches the value of its selector, the least number being the best.
pub type Rank = u8;

/// The key is the value.
pub const EXACT: Rank = 0;
/// The key is the value's category.
pub const KEYWORD: Rank = 1;
/// The key is `*`.
pub const ANY: Rank = 2;

/// The ranks of the keys of variants: column by column, and in each by variants. A key that doesn't
/// match has none.
#[derive(Drop)]
pub struct Ranks {
    pub ranks: List<Option<Rank>>,
    /// How many columns there are.
    pub columns: usize,
    /// How many variants there are.
    pub variants: usize,
}

impl Ranks {
    /// The first of the variants that match whose ranks are least, the first column counting most.
    pub fn least(&self) -> Option<usize>
        ensures { ranked.IsBest (ranked.row_of self.now) self.now.variants result }
    {
        let mut best = None;
        for place in 0..self.variants {
            if self.is_match(place) && self.is_better(place, best) {
                best = Some(place);
            }
        }
        best
    }

    /// Whether each key of a variant matches.
    fn is_match(&self, place: usize) -> bool
        ensures { result ≡ is_some (ranked.row_of self.now place) }
    {
        let mut rest = self.ranks.as_slice();
        for _ in 0..self.columns {
            if rank_at(rest, place).is_none() {
                return false;
            }
            rest = behind(rest, self.variants);
        }
        true
    }

    /// Whether a variant is better than the best so far.
    fn is_better(&self, place: usize, best: Option<usize>) -> bool
        ensures { result ≡ ranked.is_better self.now place best }
    {
        match best {
            Some(best) => self.is_less(place, best),
            None => true,
        }
    }

    /// Whether the ranks of one variant are less than those of another.
    fn is_less(&self, place: usize, other: usize) -> bool
        ensures { result ≡ ranked.is_less self.now place other }
    {
        let mut rest = self.ranks.as_slice();
        for _ in 0..self.columns {
            if let Some(less) = difference(rank_at(rest, place), rank_at(rest, other)) {
                return less;
            }
            rest = behind(rest, self.variants);
        }
        false
    }
}

/// Whether one rank is less than another, where they differ.
fn difference(rank: Option<Rank>, second: Option<Rank>) -> Option<bool>
    ensures { result ≡ ranked.difference rank second }
{
    match (rank, second) {
        (Some(rank), Some(second)) if rank != second => Some(rank < second),
        _ => None,
    }
}

/// The rank at a place, if there is one.
fn rank_at(ranks: &[Option<Rank>], at: usize) -> Option<Rank>
    ensures { result ≡ ranked.rank_at ranks.now at }
{
    match ranks.get(at) {
        Some(rank) => *rank,
        None => None,
    }
}

/// The ranks behind one column.
fn behind(ranks: &[Option<Rank>], column: usize) -> &[Option<Rank>]
    ensures { result.now ≡ drop column ranks.now }
{
    match ranks.get(column..) {
        Some(rest) => rest,
        None => &[],
    }
}
