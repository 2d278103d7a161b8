//! How a machine leaves its section, how it faults, and how it ends.

ghost use Rattle.std.specs.Prelude.{◌≡◌, ◌∷◌, [], OnOk};
ghost use Rattle.dura_value.specs.Messages.{result as told, to_task};
ghost use Rattle.dura_value.specs.Views.{answer_of};
ghost use Rattle.flow_syntax.specs.Machine.{says, leaving, telling, ended};
ghost use Rattle.flow_machine.specs.Views.{machine_of, progress_of};
ghost use Rattle.flow_machine.specs.Steps.{Makes};

use crate::machine::{Machine, Progress, put};
use dura_value::{Answer, Body, Reply, with};
use flow_messages::{Made, copy_id, copy_text, copy_value, release_all};
use flow_tasks::Section;
use std::alloc::AllocError;

impl<'f> Machine<'f> {
    /// Leaves the section that it is inside of, with a release to each entity. After want of memory some of the releases may have been
    /// made, and it is still inside.
    pub fn leave(&mut self, made: &mut Made) -> Result<(), AllocError>
        ensures makes { OnOk result (Makes made.old made.new self.new
            (leaving (machine_of self.old) (machine_of self.old).section)) }
        ensures rest { self.new.rest.items ≡ self.old.rest.items }
    {
        if let Section::Inside(set) = &self.section {
            release_all(&mut made.messages, &self.id, set.as_slice())?;
            self.section = Section::Outside;
        }
        Ok(())
    }

    /// Tells its starter, where a task of it waits.
    fn answer_starter(&self, made: &mut Made, number: u32, answer: Answer) -> Result<(), AllocError>
        ensures { OnOk result (Makes made.old made.new self.now
            (record {
              machine = machine_of self.now;
              sent = says (machine_of self.now)
                  (machine_of self.now).starter (told (to_task number) (answer_of answer))
                  ∷ [];
              asked = [];
            })) }
    {
        let (to, answer) = with(copy_id(&self.starter), answer)?;
        self.send(made, to, Body::Result(Reply::Task(number), answer))
    }

    /// Tells the instance that waits for its end, where there is one, what it came to.
    fn tell(&self, made: &mut Made) -> Result<(), AllocError>
        ensures { OnOk result (Makes made.old made.new self.now
            (record {
              machine = machine_of self.now;
              sent = telling (machine_of self.now)
                  (machine_of self.now).reply (machine_of self.now).progress;
              asked = [];
            })) }
    {
        let Reply::Task(number) = self.reply else {
            return Ok(());
        };
        match &self.progress {
            Progress::Done(value) => {
                self.answer_starter(made, number, Answer::Done(copy_value(value)?))
            }
            Progress::Failed(text) => {
                self.answer_starter(made, number, Answer::Failed(copy_text(text)?))
            }
            Progress::Unborn | Progress::Running => Ok(()),
        }
    }

    /// Ends: it leaves its section, and then its starter is told. After want of memory it may have ended with its starter untold.
    pub fn end(&mut self, made: &mut Made, progress: Progress) -> Result<(), AllocError>
        ensures { OnOk result (Makes made.old made.new self.new
            (ended (machine_of self.old) (progress_of progress))) }
    {
        self.rest.clear();
        put(&mut self.progress, progress);
        self.leave(made)?;
        self.tell(made)
    }
}
