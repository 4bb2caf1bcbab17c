//! What is so of every edition of every log. None of these does anything when it is called.
ghost use Rattle.mf_edition.specs.Edition.{ChangesAreBounded, EditionsAreNumbered, EditionsFollow, EditionsHaveDistinctNames, EditionsStay, NewestIsLast};
ghost use Rattle.mf_edition.specs.Equality.{IsExact};
ghost use Rattle.mf_edition.specs.Handlers.{HandlersAreByName};
ghost use Rattle.mf_edition.specs.Records.{RecordsAreByTag};
ghost use Rattle.mf_edition.specs.Sizes.{LongerLogsUseMore};
ghost use Rattle.mf_edition.specs.contracts.catalogue.CataloguePartialEq.TheImpl as catalogue;
ghost use Rattle.mf_edition.specs.contracts.change.ChangePartialEq.TheImpl as change;
ghost use Rattle.mf_edition.specs.contracts.change.EntryPartialEq.TheImpl as entry;
ghost use Rattle.mf_edition.specs.contracts.handler.HandlerPartialEq.TheImpl as handler;
ghost use Rattle.mf_edition.specs.contracts.item.ItemPartialEq.TheImpl as item;

/// No two messages of an edition have one tag and one id.
pub fn editions_have_distinct_names()
    ensures { EditionsHaveDistinctNames }
{}

/// Edition k of a log has the number k.
pub fn editions_are_numbered()
    ensures { EditionsAreNumbered }
{}

/// The newest edition of a log of k entries is edition k.
pub fn newest_is_last()
    ensures { NewestIsLast }
{}

/// The newest edition of a log with one more entry is the one before it, changed by that entry.
pub fn editions_follow()
    ensures { EditionsFollow }
{}

/// An edition stays what it is when the log grows.
pub fn editions_stay()
    ensures { EditionsStay }
{}

/// A change adds at most as many messages as it has.
pub fn changes_are_bounded()
    ensures { ChangesAreBounded }
{}

/// A record that is published for a tag is that of its tag, and every other tag keeps its own.
pub fn records_are_by_tag()
    ensures { RecordsAreByTag }
{}

/// A handler that is published is that of its name, and every other name keeps its own.
pub fn handlers_are_by_name()
    ensures { HandlersAreByName }
{}

/// Of two fronts of a log the longer one uses more bytes.
pub fn longer_logs_use_more()
    ensures { LongerLogsUseMore }
{}

/// Two messages, catalogues, handlers, changes or entries are equal exactly where they are the
/// same.
pub fn equality_is_exact()
    ensures items { IsExact item.ghosts.eq }
    ensures catalogues { IsExact catalogue.ghosts.eq }
    ensures handlers { IsExact handler.ghosts.eq }
    ensures changes { IsExact change.ghosts.eq }
    ensures entries { IsExact entry.ghosts.eq }
{}
