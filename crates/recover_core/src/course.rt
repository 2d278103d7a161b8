//! How far the log of a partition has come into its state.

ghost use Rattle.std.specs.Prelude.{◌≡◌, ◌≤◌, ℕ, List, [], false, Err, IfOk};
ghost use Rattle.site_model.specs.History.{Step};
ghost use Rattle.site_model.specs.Calls.{HasRisen};
ghost use Rattle.dura_model.specs.Partition.{Partition, fresh};
ghost use Rattle.dura_value.specs.Items.{Entry as PlainEntry};
ghost use Rattle.recover_core.specs.Courses.{IsOpenedOr, IsFromFirst, IsCourse, ReadsCourse, FitsCourse, GoesOnFrom, HasCome, IsStill, is_refused};
ghost use Rattle.flow_syntax.specs.Syntax.{Flows};

use commit_gate::Past;
use commit_log::{FrameError, OpenedLog, Resting};
use log_files::{Ahead, EntryReader};
use log_items::Entry;
use site_model::Site;
use std::alloc::Global;

/// What comes next of a partition's log.
#[derive(Drop)]
pub(crate) enum Comes {
    /// It is to be read.
    More(EntryReader),
    /// This entry, and the log behind it.
    Waits(Entry, EntryReader),
    /// This entry, which its partition never accepts.
    Refused(Entry, EntryReader),
    /// Nothing: the log rests here, or there is none yet.
    End(Option<Resting>),
}

/// How far the log of a partition has come into its state.
#[derive(Drop)]
pub(crate) struct Course {
    /// The log, if there is one.
    pub log: Option<OpenedLog>,
    /// What comes next of it.
    pub comes: Comes,
    /// The incarnation of each entry that was placed.
    pub past: Past,
    /// The incarnation that goes on behind them.
    pub incarnation: u64,
}

impl Course {
    /// Nothing of a log was placed.
    pub fn begin(alloc: Global, log: Option<OpenedLog>) -> Course
        ensures begins { (steps : List Step) → IsOpenedOr steps log → IsCourse steps [] result }
        ensures fits { (partition : ℕ) → IsFromFirst log → FitsCourse (fresh partition) result }
        ensures going { is_refused result.comes ≡ false }
        ensures none { HasCome [] result }
        ensures log { result.log ≡ log }
    {
        let comes = match log {
            Some(log) => Comes::More(EntryReader::begin(alloc, log)),
            None => Comes::End(None),
        };
        Course {
            log,
            comes,
            past: Past::none(alloc),
            incarnation: 0,
        }
    }

    /// The next entry is read, where it wasn't yet.
    pub fn read_on<V: Site>(self, alloc: Global, site: &mut V) -> Result<Course, FrameError>
        ensures tells { V.tells site.new → V.tells site.old }
        ensures reads { V.tells site.new → (done : List PlainEntry)
            → IsCourse (V.history site.old) done self
            → ReadsCourse (V.history site.old) done self result }
        ensures fits { (p : Partition) → FitsCourse p self → IfOk result (GoesOnFrom p self) }
        ensures still { (flows : Flows) (count : ℕ) (p : Partition)
            → IsStill flows count p self.comes
            → IfOk result (λ next. IsStill flows count p next.comes) }
        ensures unchanged { V.history site.new ≡ V.history site.old }
        ensures fault { result ≡ Err FrameError.SiteFault
            → HasRisen (V.disk_faults site.old) (V.disk_faults site.new) }
        ensures later { V.disk_faults site.old ≤ V.disk_faults site.new }
        ensures say_faults { V.say_faults site.new ≡ V.say_faults site.old }
    {
        let Course {
            log,
            comes,
            past,
            incarnation,
        } = self;
        let comes = match comes {
            Comes::More(reader) => match reader.next(alloc, site)? {
                Ahead::Entry(entry, behind) => Comes::Waits(entry, behind),
                Ahead::End(end) => Comes::End(Some(end)),
            },
            Comes::Waits(entry, behind) => Comes::Waits(entry, behind),
            Comes::Refused(entry, behind) => Comes::Refused(entry, behind),
            Comes::End(end) => Comes::End(end),
        };
        Ok(Course {
            log,
            comes,
            past,
            incarnation,
        })
    }

    /// Lets go of what comes next.
    pub fn let_go(self) {
        let Course { comes, .. } = self;
        match comes {
            Comes::Waits(entry, _) => entry.let_go(),
            Comes::Refused(entry, _) => entry.let_go(),
            Comes::More(_) => {}
            Comes::End(_) => {}
        }
    }
}
