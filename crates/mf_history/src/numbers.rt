//! The numbers that a reply line has, read from its front.
ghost use Rattle.std.specs.Prelude.{ℕ, List, ◌≡◌, ◌<◌, ◌++◌, ◌∷◌, ◌^◌, MatchOption};
ghost use Rattle.std.specs.Fmt.{decimal};
ghost use Rattle.mf_history.specs.Numbers.{FindsCounts, FindsEdition, FindsUsed, IsEnd};

/// The counts of an edition: how many compilations of its messages were begun, and how many of
/// these were given up.
#[derive(Debug, Drop)]
pub(crate) struct Counts {
    pub edition: u64,
    pub starts: u64,
    pub quits: u64,
}

/// The edition that a line names, if it names one.
pub(crate) fn edition_named(said: &str) -> Option<u64>
    ensures { FindsEdition said.now result }
{
    let (edition, _) = number_after(said, "{\"edition\":", ',')?;
    Some(edition)
}

/// The bytes used that the line of a full store has.
pub(crate) fn used_named(said: &str) -> Option<u64>
    ensures { FindsUsed said.now result }
{
    let (_, rest) = number_after(said, "{\"error\":\"store-full\",\"size\":", ',')?;
    let (used, _) = number_after(rest, "\"used\":", '}')?;
    Some(used)
}

/// The counts that a line has.
pub(crate) fn counts_named(said: &str) -> Option<Counts>
    ensures { FindsCounts said.now result }
{
    let (edition, rest) = number_after(said, "{\"edition\":", ',')?;
    let (quits, rest) = number_after(rest, "\"ok\":\"stat\",\"quits\":", ',')?;
    let (starts, _) = number_after(rest, "\"starts\":", '}')?;
    Some(Counts {
        edition,
        starts,
        quits,
    })
}

/// The number whose digits follow these words at the front of a line, up to the character that ends
/// it, and what follows that.
fn number_after<'a>(line: &'a str, words: &str, end: char) -> Option<(u64, &'a str)>
    requires { IsEnd end }
    ensures { (n : ℕ) (rest : List ℕ) → n < 2 ^ 64
        → line.now ≡ words.now ++ (decimal n ++ end ∷ rest)
        → MatchOption result ⊥ (λ read. (read.0 ≡ n) × (read.1.now ≡ rest)) }
{
    let (digits, rest) = line.strip_prefix(words)?.split_once(end)?;
    let number = digits.parse::<u64>().ok()?;
    Some((number, rest))
}
