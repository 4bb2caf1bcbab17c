//! The desk of one caller.
ghost use Rattle.std.specs.Prelude.{◌≡◌, ◌<◌, [], ◌∷◌, None, IfErr, IfOk, OnErr, OnOk, length};
ghost use Rattle.std.specs.Arc.{arc_value};
ghost use Rattle.mf_edition.specs.Edition.{newest_edition};
ghost use Rattle.mf_edition.specs.Sizes.{refusal_of, IsDue};
ghost use Rattle.mf_hub.specs.Desks.{empty_desk, message_count, published, stat_of, Forgoes, Gains, IsPlanAt};

use crate::compiling::plan_among;
use crate::stat::Stat;
use mf_edition::{Change, Edition, Entry, Publications, PublishError};
use mf_flight::Flights;
use mf_plan::Plan;
use std::alloc::{AllocError, Global};
use std::marker::Model;
use std::sync::Arc;

/// The desk of one caller: the log of its publications, the newest edition, and the plans of those
/// of its messages that were asked for. A message is compiled when it is first asked for.
///
/// It is seen as the log, the indexes of the messages that are ready, and the edition's quits.
#[derive(Debug, Drop)]
pub struct Alone {
    alloc: Global,
    publications: Publications,
    flights: Flights<Arc<Plan>>,
}

impl Model for Alone {
    ghost use Rattle.std.specs.Arc.{arc_value};
    ghost use Rattle.mf_edition.specs.Edition.{newest_edition};
    ghost use Rattle.mf_hub.specs.Kept.{desk_of, AreOf};
    ghost use Rattle.mf_transcript.specs.Sole.{Desk};

    ghost Value = { Desk };

    ghost view = { λ a. desk_of a.publications a.flights };

    ghost invariant = { λ a. AreOf arc_value (newest_edition a.publications) a.flights };
}

impl Alone {
    /// A desk at which nothing was published.
    pub fn new(alloc: Global) -> Result<Alone, AllocError>
        ensures { IfOk result (λ desk. desk ≡ empty_desk) }
    {
        let publications = Publications::new(alloc)?;
        Ok(Alone {
            alloc,
            publications,
            flights: Flights::new(alloc),
        })
    }

    /// Publishes a change, as an entry of caller 0, and gives the number of the edition that it
    /// makes. No message of that edition is compiled. After an error everything is as it was.
    pub fn publish(&mut self, change: Change) -> Result<u64, PublishError>
        ensures edition { IfOk result (λ edition. edition ≡ length self.new.log) }
        ensures ok { OnOk result (self.new ≡ published self.old change) }
        ensures accepted { OnOk result (refusal_of self.old.log change ≡ None) }
        ensures refused { IfErr result (IsDue (refusal_of self.old.log change)) }
        ensures err { OnErr result (self.new ≡ self.old) }
    {
        let newest = self.publications.log().len();
        self.publications.publish(Entry {
            caller: 0,
            nth: newest + 1,
            change,
        })?;
        self.flights.retire(newest);
        Ok(newest + 1)
    }

    /// The newest edition.
    pub fn edition(&self) -> &Edition
        ensures { result.now ≡ newest_edition self.now.log }
    {
        self.publications.newest()
    }

    /// The plan of the message at an index of the newest edition: it is compiled unless it is
    /// ready. Where there is no memory for that, the edition has one more quit; where there is none
    /// to share the plan, the message is ready.
    pub fn plan(&mut self, index: u32) -> Result<Arc<Plan>, AllocError>
        requires { index < message_count self.old }
        ensures plan { IfOk result (λ plan. IsPlanAt (newest_edition self.old.log) index (arc_value plan)) }
        ensures ok { OnOk result (Gains self.old (index ∷ []) self.new) }
        ensures err { OnErr result (Forgoes self.old (index ∷ []) self.new) }
    {
        plan_among(
            self.alloc,
            self.publications.newest(),
            &mut self.flights,
            index,
        )
    }

    /// How far the messages of the newest edition are compiled. It takes no memory.
    pub fn stat(&self) -> Stat
        ensures { result ≡ stat_of self.now }
    {
        let edition = self.publications.newest().number();
        let (starts, quits) = self.flights.totals(edition);
        Stat {
            edition,
            starts,
            quits,
        }
    }
}
