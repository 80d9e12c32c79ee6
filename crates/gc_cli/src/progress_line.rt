//! A line on a terminal that shows the progress of a command.

use gc_command::{Progress, Stage};
use std::sync::{Condvar, Mutex, Wait};
use std::thread::{self, Threads};
use std::time::{Clock, Duration, Instant};

/// How many milliseconds a command is at work before the line is shown.
const PATIENCE: u64 = 2_000;

/// How many milliseconds the line stays as it is.
const PAUSE: u64 = 500;

/// A step of a command.
#[derive(Clone, Copy, Drop)]
struct Step {
    step: u32,
    steps: u32,
    stage: Stage,
}

/// What the line is drawn by.
#[derive(Drop)]
struct State {
    at: Option<Step>,
    is_shown: bool,
    has_ended: bool,
}

/// A line on standard error that shows the progress of a command. [`ProgressLine::during`] shows it once the command
/// has been at work for two seconds, and it goes away before anything is printed. It is no output of the command, and
/// no contract speaks of it. The caller ensures that standard error is a terminal.
#[derive(Drop)]
pub struct ProgressLine<'r, R> {
    rt: &'r R,
    begun: Option<Instant>,
    state: Mutex<State>,
    ended: Condvar,
}

impl<'r, R: Wait + Clock + Eprint> ProgressLine<'r, R> {
    /// A line that is not shown.
    pub fn new(rt: &'r R) -> ProgressLine<'r, R> {
        ProgressLine {
            rt,
            begun: Instant::now(rt).ok(),
            state: Mutex::new(State {
                at: None,
                is_shown: false,
                has_ended: false,
            }),
            ended: Condvar::new(),
        }
    }

    /// Does the work, which reports to this line, while a further thread shows the line. Where none can be started the
    /// line isn't shown.
    pub fn during<T, F: FnOnce() -> T>(&self, work: F) -> T
    where
        R: Threads + Sync,
        requires { F.pre work }
        ensures { F.post work result }
    {
        let (_, result) = thread::join(self.rt, || self.show(), || self.until_done(work));
        result
    }

    /// Does the work, and ends the line.
    fn until_done<T, F: FnOnce() -> T>(&self, work: F) -> T
        requires { F.pre work }
        ensures { F.post work result }
    {
        let result = work();
        self.end();
        result
    }

    /// Draws the line again and again, until the command ends.
    fn show(&self) {
        let mut pause = PATIENCE;
        for _ in self.rt.forever() {
            let state = self.state.lock(self.rt);
            let limit = Duration::from_millis(pause);
            let (mut state, _) = self
                .ended
                .wait_timeout_while(self.rt, state, limit, |state| !state.has_ended);
            if state.has_ended {
                return;
            }
            self.draw(&mut state);
            pause = PAUSE;
        }
    }

    /// Draws the line over what it was. A terminal that can't be written shows none.
    fn draw(&self, state: &mut State) {
        let (Some(begun), Some(at)) = (self.begun, state.at) else {
            return;
        };
        let Ok(elapsed) = begun.elapsed(self.rt) else {
            return;
        };
        let Step { step, steps, stage } = at;
        let seconds = elapsed.as_secs();
        state.is_shown = true;
        let _ = eprint!(self.rt; "\r\x1b[Khalfgates: step {step} of {steps}, {stage}, {seconds} s");
    }
}

impl<'r, R: Wait + Clock + Eprint> Progress for ProgressLine<'r, R> {
    fn begin(&self, step: u32, steps: u32, stage: Stage) {
        self.state.lock(self.rt).at = Some(Step { step, steps, stage });
    }

    fn end(&self) {
        let mut state = self.state.lock(self.rt);
        state.has_ended = true;
        if state.is_shown {
            state.is_shown = false;
            let _ = eprint!(self.rt; "\r\x1b[K");
        }
        self.ended.notify_all();
    }
}
