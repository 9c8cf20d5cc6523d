//! Benches in memory, as the options of a row say.

ghost use Rattle.std.specs.Prelude.{◌≡◌, ◌<◌, ◌≤◌, length, IfOk, None};
ghost use Rattle.tk_run.specs.Begun.{IsNewBench, IsNewController, IsNewNode};
ghost use Rattle.tk_program_tests.specs.Each.{Each};

use crate::rows::{failing, number, option};
use std::alloc::{AllocError, Global};
use std::hint::spin_loop;
use std::sync::Arc;
use std::sync::atomic::{AtomicU32, Ordering};
use tk_edge::{Fresh, Gate, GateTurn, Host, ListGate, ManualClock};
use tk_rounds::{Bench, Controller, Node};
use tk_script::{PodScript, ScriptHost};
use tk_types::{Kind, List, Pair, Text};

/// The pods of a run that builds, a result of each and its file.
const FILES: &str = r#"build-00001-fetch-pod-1 commit abc123
build-00001-test-0-pod-1 log ok-linux
build-00001-test-1-pod-1 log ok-mac
build-00001-package-pod-1 image img-abc123
build-00001-package-pod-1 logs ["ok-linux","ok-mac"]"#;

/// The result files of a pod.
fn files_of(alloc: Global, pod: &str) -> Result<List<Pair>, AllocError> {
    let mut files = List::new(alloc);
    for line in FILES.split('\n') {
        let (of, file) = line.split_once(' ').unwrap_or((line, ""));
        let (name, text) = file.split_once(' ').unwrap_or((file, ""));
        if of == pod {
            files.push(Pair {
                key: Text::from_str(alloc, name)?,
                value: Text::from_str(alloc, text)?,
            })?;
        }
    }
    Ok(files)
}

/// What the pods play: each of these leaves its result files, and all steps end with the exit 0.
fn scripts(alloc: Global) -> Result<List<PodScript>, AllocError> {
    let mut scripts = Vec::new(alloc);
    for line in FILES.split('\n') {
        let (pod, _) = line.split_once(' ').unwrap_or((line, ""));
        scripts.push(PodScript {
            pod: Text::from_str(alloc, pod)?,
            exits: List::new(alloc),
            files: files_of(alloc, pod)?,
        })?;
    }
    Ok(List::from_vec(scripts))
}

/// Answers of a gate that delivers one entry at a time, and lets its member work behind each.
fn single(alloc: Global) -> Result<ListGate, AllocError> {
    let mut answers = Vec::new(alloc);
    for _ in 0..400 {
        for kind in [Kind::Runs, Kind::TaskRuns, Kind::Pods] {
            answers.push(GateTurn::Deliver { kind, n: 1 })?;
            answers.push(GateTurn::Work)?;
        }
    }
    Ok(ListGate::new(List::from_vec(answers)))
}

/// Answers of a gate that delivers all, lets its member work, and lists each kind from nothing at every seventh question in
/// turn, and once from a position that the journal never has.
fn lists(alloc: Global) -> Result<ListGate, AllocError> {
    let mut answers = Vec::new(alloc);
    for round in 0..400 {
        for kind in [Kind::Runs, Kind::TaskRuns, Kind::Pods] {
            answers.push(GateTurn::Deliver { kind, n: 100 })?;
        }
        for _ in 0..3 {
            answers.push(GateTurn::Work)?;
        }
        let kind = match round % 3 {
            0 => Kind::Runs,
            1 => Kind::TaskRuns,
            _ => Kind::Pods,
        };
        let position = if round == 20 { 1_000_000 } else { 0 };
        answers.push(GateTurn::Relist { kind, position })?;
    }
    Ok(ListGate::new(List::from_vec(answers)))
}

/// How often a gate looks for another that is asked meanwhile.
const LOOKS: u32 = 2_000_000;

/// A gate with answers of its own, one that pauses so many times and then keeps its cache fresh, or one that pauses until it
/// was asked while another was. Behind a round that came to nothing controllers and nodes are asked in threads now and then,
/// so members whose gates pause first work there, and there alone two of them are asked at once.
#[derive(Drop)]
pub(crate) enum TestGate {
    Listed(ListGate),
    Late {
        pauses: u64,
        fresh: Fresh,
    },
    Meeting {
        asked: Arc<AtomicU32>,
        met: bool,
        fresh: Fresh,
    },
}

/// Whether two gates are asked at once, this one among them. Where they are, it counts as asked from then on.
fn meets(asked: &AtomicU32) -> bool {
    asked.fetch_add(1, Ordering::SeqCst);
    for _ in 0..LOOKS {
        if asked.load(Ordering::SeqCst) > 1 {
            return true;
        }
        spin_loop();
    }
    asked.fetch_sub(1, Ordering::SeqCst);
    false
}

impl Gate for TestGate {
    ghost answers = { λ _. None };

    fn next(&mut self, lag: u64) -> GateTurn {
        match self {
            TestGate::Listed(gate) => gate.next(lag),
            TestGate::Late { pauses, fresh } => {
                if *pauses > 0 {
                    *pauses -= 1;
                    return GateTurn::Pause;
                }
                fresh.next(lag)
            }
            TestGate::Meeting { asked, met, fresh } => {
                *met = *met || meets(asked);
                if *met {
                    fresh.next(lag)
                } else {
                    GateTurn::Pause
                }
            }
        }
    }
}

/// The gate that the options say. Gates that meet count those that are asked in `asked`.
fn gate(alloc: Global, options: &str, asked: &Arc<AtomicU32>) -> Result<TestGate, AllocError> {
    match option(options, "gate") {
        Some("single") => Ok(TestGate::Listed(single(alloc)?)),
        Some("lists") => Ok(TestGate::Listed(lists(alloc)?)),
        Some("meets") => Ok(TestGate::Meeting {
            asked: Arc::try_clone(asked)?,
            met: false,
            fresh: Fresh::new(),
        }),
        _ => Ok(TestGate::Late {
            pauses: number(options, "pauses").unwrap_or(0),
            fresh: Fresh::new(),
        }),
    }
}

/// A controller over a clock that stands still.
fn controller(
    alloc: Global,
    options: &str,
    asked: &Arc<AtomicU32>,
) -> Result<Controller<ManualClock, TestGate>, AllocError>
    ensures { IfOk result IsNewController }
{
    let gate = gate(alloc, options, asked)?;
    Ok(Controller::new(alloc, ManualClock::new(alloc), gate))
}

/// A node over such a clock and a host that plays the scripts, of which a call may fail.
fn node(
    alloc: Global,
    options: &str,
    asked: &Arc<AtomicU32>,
) -> Result<Node<ManualClock, ScriptHost, TestGate>, AllocError>
    ensures { IfOk result (IsNewNode (⟦<ScriptHost as Host>⟧.told)) }
{
    let root = Text::from_str(alloc, "/work")?;
    let failing = failing(alloc, options, "host")?;
    let host = ScriptHost::new(alloc, root, scripts(alloc)?, failing)?;
    let gate = gate(alloc, options, asked)?;
    Ok(Node::new(alloc, ManualClock::new(alloc), host, gate))
}

/// So many controllers.
fn controllers(
    alloc: Global,
    count: usize,
    options: &str,
    asked: &Arc<AtomicU32>,
) -> Result<Vec<Controller<ManualClock, TestGate>>, AllocError>
    ensures count { IfOk result (λ made. length made.items ≡ count) }
    ensures new { IfOk result (λ made. Each IsNewController made.items) }
{
    let mut made = Vec::new(alloc);
    for _ in 0..count {
        let controller = controller(alloc, options, asked)?;
        made.push(controller)?;
    }
    Ok(made)
}

/// So many nodes.
fn nodes(
    alloc: Global,
    count: usize,
    options: &str,
    asked: &Arc<AtomicU32>,
) -> Result<Vec<Node<ManualClock, ScriptHost, TestGate>>, AllocError>
    ensures count { IfOk result (λ made. length made.items ≡ count) }
    ensures new { IfOk result (λ made. Each (IsNewNode (⟦<ScriptHost as Host>⟧.told)) made.items) }
{
    let mut made = Vec::new(alloc);
    for _ in 0..count {
        let node = node(alloc, options, asked)?;
        made.push(node)?;
    }
    Ok(made)
}

/// How many controllers there are, and how many nodes: two, where the options don't say it.
fn members(options: &str) -> usize
    ensures { (0 < result) × (result ≤ 64) }
{
    match number(options, "members") {
        Some(count) if 0 < count && count <= 64 => count as usize,
        _ => 2,
    }
}

/// A bench as the options say it.
pub(crate) fn bench(
    alloc: Global,
    options: &str,
) -> Result<Bench<ManualClock, ScriptHost, TestGate>, AllocError>
    ensures { IfOk result (IsNewBench (⟦<ScriptHost as Host>⟧.told)) }
{
    let count = members(options);
    let asked = Arc::new(alloc, AtomicU32::new(0))?;
    Ok(Bench {
        controllers: controllers(alloc, count, options, &asked)?,
        kubelets: nodes(alloc, count, options, &asked)?,
        user: ManualClock::new(alloc),
    })
}
