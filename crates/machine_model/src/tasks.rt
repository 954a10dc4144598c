//! The runnable tasks of a processor, for a machine with threads.

use std::alloc::{AllocError, Global};
use std::collections::VecDeque;
use std::marker::Model;

/// A task that is runnable.
#[derive(Clone, Copy, Debug, PartialEq, Eq)]
pub enum RunnableTask {
    /// The application.
    Application,
    /// The thread that polls a queue (`napi_threaded_poll`).
    Thread(u32),
}

/// The runnable tasks; the first one runs next. A thread that is polling isn't among them.
#[derive(Drop)]
pub(crate) struct RunQueue {
    queue: VecDeque<RunnableTask>,
    has_application: bool,
}

impl Model for RunQueue {
    ghost use Rattle.std.specs.Prelude.{◌≡◌, List, if◌then◌else◌};
    ghost use Rattle.machine_model.specs.declared.tasks.RunnableTask.{RunnableTask};
    ghost use Rattle.machine_model.specs.Tasks.{applications};

    ghost Value = { List RunnableTask };

    ghost view = { λ t. t.queue.items };

    ghost invariant = { λ t. applications t.queue.items ≡ (if t.has_application then 1 else 0) };
}

impl RunQueue {
    ghost use Rattle.std.specs.Prelude.{◌≡◌, ◌∷◌, ◌++◌, [], OnErr, OnOk, slice_get};
    ghost use Rattle.machine_model.specs.declared.tasks.RunnableTask.TheVariants.{Thread};
    ghost use Rattle.machine_model.specs.Tasks.{after_first, runnable, with_application};

    /// Returns an empty list.
    pub(crate) fn new(alloc: Global) -> RunQueue
        ensures { result ≡ [] }
    {
        RunQueue {
            queue: VecDeque::new(alloc),
            has_application: false,
        }
    }

    /// Appends the thread of a queue. Fails if the allocation fails; then the tasks are unchanged.
    pub(crate) fn push_thread(&mut self, number: u32) -> Result<(), AllocError>
        ensures appended { OnOk result (self.new ≡ self.old ++ Thread number ∷ []) }
        ensures kept { OnErr result (self.new ≡ self.old) }
    {
        self.queue.push_back(RunnableTask::Thread(number))?;
        Ok(())
    }

    /// Puts the thread of a queue first. Fails if the allocation fails; then the tasks are unchanged.
    pub(crate) fn push_first(&mut self, number: u32) -> Result<(), AllocError>
        ensures first { OnOk result (self.new ≡ Thread number ∷ self.old) }
        ensures kept { OnErr result (self.new ≡ self.old) }
    {
        self.queue.push_front(RunnableTask::Thread(number))?;
        Ok(())
    }

    /// Appends the application, unless it is in the list. Fails if the allocation fails; then the tasks are unchanged.
    #[tactic(auto, unfolding(crate::specs::Tasks::with_application))]
    pub(crate) fn push_application(&mut self) -> Result<(), AllocError>
        ensures appended { OnOk result (self.new ≡ with_application self.old) }
        ensures kept { OnErr result (self.new ≡ self.old) }
    {
        if !self.has_application {
            self.queue.push_back(RunnableTask::Application)?;
            self.has_application = true;
        }
        Ok(())
    }

    /// Returns the task that runs next. It removes an application that is first and idle, and a thread that it returns; an
    /// application that it returns stays in the list.
    pub(crate) fn next(&mut self, idle: bool) -> Option<RunnableTask>
        ensures first { result ≡ slice_get (runnable idle self.old) 0 }
        ensures tasks { self.new ≡ after_first (runnable idle self.old) }
    {
        self.remove_idle(idle);
        match self.queue.front() {
            Some(RunnableTask::Thread(number)) => {
                let thread = RunnableTask::Thread(*number);
                self.queue.pop_front();
                Some(thread)
            }
            Some(RunnableTask::Application) => Some(RunnableTask::Application),
            None => None,
        }
    }

    // Removes an idle application if it is first.
    fn remove_idle(&mut self, idle: bool)
        ensures { self.new ≡ runnable idle self.old }
    {
        if !idle {
            return;
        }
        if let Some(RunnableTask::Application) = self.queue.front() {
            self.queue.pop_front();
            self.has_application = false;
        }
    }
}
