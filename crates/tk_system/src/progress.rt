//! A host before another one, which it hands every call on to, and which tells a person each step's start and end.
ghost use Rattle.std.specs.Prelude.{◌≡◌, ℕ, ◌≤◌};

use std::alloc::Global;
use std::io::Eprint;
use std::sync::atomic::{AtomicU64, Ordering};
use std::time::{Clock, Instant};
use tk_edge::{Failed, Host, Miss, Order, Poll, Watch};
use tk_types::{Bytes, Text, TryCopy};

/// How many steps all hosts armed so far, and how many of these ended.
#[derive(Drop)]
pub struct Tally {
    armed: AtomicU64,
    ended: AtomicU64,
}

impl Tally {
    /// Nothing was armed yet.
    pub fn new() -> Self {
        Tally {
            armed: AtomicU64::new(0),
            ended: AtomicU64::new(0),
        }
    }
}

/// A step of which is told: its pod and place, when it started, and whether its end was told.
#[derive(Drop)]
struct Told {
    child: u64,
    pod: Text,
    step: u32,
    since: Option<Instant>,
    over: bool,
}

/// A host that tells on standard error what the steps of the one behind it do, where that is wanted. What can't be told for
/// want of memory isn't told.
#[derive(Drop)]
pub struct Progress<'a, H, R> {
    host: H,
    rt: &'a R,
    alloc: Global,
    tally: &'a Tally,
    wanted: bool,
    steps: Vec<Told>,
}

impl<'a, H: Host, R: Eprint + Clock> Progress<'a, H, R> {
    /// A host before this one.
    pub fn new(host: H, rt: &'a R, alloc: Global, tally: &'a Tally, wanted: bool) -> Self
        ensures told { ⟦<Progress<'a, H, R> as Host>⟧.told result ≡ H.told host }
        ensures killed { ⟦<Progress<'a, H, R> as Host>⟧.killed result ≡ H.killed host }
        ensures watches { ⟦<Progress<'a, H, R> as Host>⟧.watches result ≡ H.watches host }
        ensures files { ⟦<Progress<'a, H, R> as Host>⟧.files result ≡ H.files host }
        ensures plays { ⟦<Progress<'a, H, R> as Host>⟧.plays result ≡ H.plays host }
        ensures faults { ⟦<Progress<'a, H, R> as Host>⟧.faults result ≡ H.faults host }
    {
        Progress {
            host,
            rt,
            alloc,
            tally,
            wanted,
            steps: Vec::new(alloc),
        }
    }
}

/// Notes a step that was armed.
fn note(alloc: Global, steps: &mut Vec<Told>, child: u64, order: &Order) {
    if let Ok(pod) = order.pod.copy(alloc) {
        let _ = steps.push(Told {
            child,
            pod,
            step: order.step,
            since: None,
            over: false,
        });
    }
}

/// The step of this child that isn't over. The newest are asked first, since older ones are mostly over.
fn open_step(steps: &mut Vec<Told>, child: u64) -> Option<&mut Told> {
    for place in (0..steps.len()).rev() {
        if steps[place].child == child {
            return if steps[place].over {
                None
            } else {
                Some(&mut steps[place])
            };
        }
    }
    None
}

/// Tells what a watch showed, the first time that it does.
fn tell<R: Eprint + Clock>(rt: &R, tally: &Tally, steps: &mut Vec<Told>, child: u64, watch: Watch) {
    let Some(step) = open_step(steps, child) else {
        return;
    };
    match watch {
        Watch::Started => {
            step.since = Instant::now(rt).ok();
            let pod = step.pod.as_str();
            let place = step.step;
            let _ = eprintln!(rt; "tkn: {pod} step {place}: started");
        }
        Watch::Passed { exit } => tell_end(rt, tally, step, exit),
        Watch::Broke { exit: Some(exit) } => tell_end(rt, tally, step, exit),
        Watch::Broke { exit: None } => {
            step.over = true;
            tally.ended.fetch_add(1, Ordering::SeqCst);
        }
        Watch::Waits | Watch::Runs => {}
    }
}

/// Tells a step's end.
fn tell_end<R: Eprint + Clock>(rt: &R, tally: &Tally, step: &mut Told, exit: u8) {
    step.over = true;
    let ended = tally.ended.fetch_add(1, Ordering::SeqCst).saturating_add(1);
    let armed = tally.armed.load(Ordering::SeqCst);
    let millis = match &step.since {
        Some(since) => match since.elapsed(rt) {
            Ok(elapsed) => elapsed.as_millis(),
            Err(_) => 0,
        },
        None => 0,
    };
    let pod = step.pod.as_str();
    let place = step.step;
    let seconds = millis / 1000;
    let tenths = millis % 1000 / 100;
    let _ = eprintln!(rt;
        "tkn: [{ended}/{armed}] {pod} step {place}: exit {exit} in {seconds}.{tenths} s"
    );
}

impl<'a, H: Host, R: Eprint + Clock> Host for Progress<'a, H, R> {
    ghost told = { λ p. H.told p.host };

    ghost killed = { λ p. H.killed p.host };

    ghost watches = { λ p. H.watches p.host };

    ghost files = { λ p. H.files p.host };

    ghost plays = { λ p. H.plays p.host };

    ghost faults = { λ p. H.faults p.host };

    fn clear(&mut self, folder: &str) -> Result<(), Miss> {
        self.host.clear(folder)
    }

    fn put(&mut self, path: &str, bytes: &[u8]) -> Result<(), Miss> {
        self.host.put(path, bytes)
    }

    fn look(&mut self, path: &str) -> Result<bool, Miss> {
        self.host.look(path)
    }

    fn fetch(&mut self, path: &str, limit: u64) -> Result<Option<Bytes>, Miss> {
        self.host.fetch(path, limit)
    }

    fn start(&mut self, order: &Order) -> Result<u64, Miss> {
        self.host.start(order)
    }

    fn poll(&mut self, child: u64) -> Result<Poll, Miss> {
        self.host.poll(child)
    }

    fn launch(
        &mut self,
        order: &Order,
        wait: &str,
        post: &str,
        keep_going: bool,
    ) -> Result<u64, Miss> {
        let child = self.host.launch(order, wait, post, keep_going)?;
        if self.wanted {
            self.tally.armed.fetch_add(1, Ordering::SeqCst);
            note(self.alloc, &mut self.steps, child, order);
        }
        Ok(child)
    }

    fn watch(&mut self, child: u64) -> Result<Watch, Miss> {
        let watch = self.host.watch(child)?;
        if self.wanted {
            tell(self.rt, self.tally, &mut self.steps, child, watch);
        }
        Ok(watch)
    }

    fn kill(&mut self, child: u64) -> Result<(), Failed> {
        self.host.kill(child)
    }
}
