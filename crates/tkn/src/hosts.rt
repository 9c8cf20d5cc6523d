//! The bench over the machine: its clocks, its folders and its programs.
ghost use Rattle.std.specs.Prelude.{◌≡◌, [], IfOk};
ghost use Rattle.tk_run.specs.Begun.{IsNewBench, IsNewController, IsNewNode};

use std::alloc::{AllocError, Global};
use std::io::IsTerminal;
use std::{env, process};
use tk_edge::{Fresh, Host};
use tk_process::{ProcessHost, Teller, Unexplained};
use tk_rounds::{Bench, Controller, Node};
use tk_system::{Progress, RealHost, Root, SystemClock, Tally};

/// The folders in which programs are looked for.
pub(crate) fn path_of(rt: &HostRuntime, alloc: Global) -> Result<String, AllocError> {
    match env::var(rt, "PATH") {
        Ok(path) => Ok(path),
        Err(_) => String::from_str(alloc, "/usr/local/bin:/usr/bin:/bin"),
    }
}

/// Whether a variable is this text.
pub(crate) fn is_set_to(rt: &HostRuntime, variable: &str, text: &str) -> bool {
    match env::var(rt, variable) {
        Ok(found) => found.as_str() == text,
        Err(_) => false,
    }
}

/// Whether each step's start and end is told: where `TKN_PROGRESS` is 1, or where it isn't 0 and a person looks on.
pub(crate) fn wants_progress(rt: &HostRuntime) -> bool {
    if is_set_to(rt, "TKN_PROGRESS", "0") {
        false
    } else {
        is_set_to(rt, "TKN_PROGRESS", "1") || rt.stderr().is_terminal()
    }
}

/// A controller over the system's clock, whose gate keeps its cache fresh.
fn controller(rt: &HostRuntime, alloc: Global) -> Controller<SystemClock<&HostRuntime>, Fresh>
    ensures { IsNewController result }
{
    Controller::new(alloc, SystemClock::new(rt), Fresh::new())
}

/// A node over the system's clock and this host, whose gate keeps its cache fresh.
fn node<'a, H: Host>(
    rt: &'a HostRuntime,
    alloc: Global,
    host: H,
) -> Node<SystemClock<&'a HostRuntime>, H, Fresh>
    requires { H.told host ≡ [] }
    ensures { IsNewNode H.told result }
{
    Node::new(alloc, SystemClock::new(rt), host, Fresh::new())
}

/// Two controllers, and two nodes over these hosts.
pub(crate) fn bench<'a, H: Host + Drop>(
    rt: &'a HostRuntime,
    alloc: Global,
    first: H,
    second: H,
) -> Result<Bench<SystemClock<&'a HostRuntime>, H, Fresh>, AllocError>
    requires first { H.told first ≡ [] }
    requires second { H.told second ≡ [] }
    ensures { IfOk result (IsNewBench H.told) }
{
    let mut controllers = Vec::new(alloc);
    controllers.push(controller(rt, alloc))?;
    controllers.push(controller(rt, alloc))?;
    let mut kubelets = Vec::new(alloc);
    kubelets.push(node(rt, alloc, first))?;
    kubelets.push(node(rt, alloc, second))?;
    Ok(Bench {
        controllers,
        kubelets,
        user: SystemClock::new(rt),
    })
}

/// A host over the machine's folders and programs, of this number below a root. Where the root has room for old folders, they
/// are moved there.
pub(crate) fn real_host<'a>(
    rt: &'a HostRuntime,
    alloc: Global,
    root: Option<&Root>,
    number: u32,
) -> Result<RealHost<'a, HostRuntime>, AllocError>
    ensures { IfOk result (λ host. ⟦<RealHost<'a, HostRuntime> as Host>⟧.told host ≡ []) }
{
    let path = path_of(rt, alloc)?;
    let mut host = RealHost::new(rt, alloc, path.as_str())?;
    if let Some(root) = root {
        if let Ok(old) = root.make_old(rt, alloc, number) {
            host.move_old_to(old);
        }
    }
    Ok(host)
}

/// What takes the turns of entrypoints, by `TKN_ENTRYPOINT`.
pub(crate) enum Entrypoints {
    /// This process, where it is unset or empty.
    Own,
    /// Processes of the program at this path, a whole path.
    Program(String),
    /// It is no whole path.
    Faulty,
    NoMemory,
}

/// What the variable says.
pub(crate) fn wanted_entrypoints(rt: &HostRuntime) -> Entrypoints {
    match env::var(rt, "TKN_ENTRYPOINT") {
        Ok(path) => {
            if path.is_empty() {
                Entrypoints::Own
            } else if path.as_str().starts_with('/') {
                Entrypoints::Program(path)
            } else {
                Entrypoints::Faulty
            }
        }
        Err(env::VarError::NotPresent) => Entrypoints::Own,
        Err(env::VarError::OutOfMemory) => Entrypoints::NoMemory,
        Err(_) => Entrypoints::Faulty,
    }
}

/// Standard error, which is told of each step whose files nothing explains.
#[derive(Drop)]
pub(crate) struct Stderr<'a> {
    rt: &'a HostRuntime,
}

impl<'a> Teller for Stderr<'a> {
    fn tell(&self, pod: &str, step: u32, what: Unexplained) {
        let what = match what {
            Unexplained::Marker => {
                "a file that lets it begin, or refuses it, was left by another one than the step before: a step writes below `run`"
            }
            Unexplained::Gone => "its entrypoint is gone and left no exit: something ended it",
            Unexplained::Exit => "the files of its exit were changed: a step writes below `run`",
        };
        let _ = eprintln!(self.rt; "tkn: {pod}: step {step}: {what}");
    }
}

/// The host of `process_host`.
pub(crate) type Processes<'a> = ProcessHost<
    RealHost<'a, HostRuntime>,
    SystemClock<&'a HostRuntime>,
    Stderr<'a>,
>;

/// A host whose entrypoints are processes of the program at a path, over a real host whose children are heard.
pub(crate) fn process_host<'a>(
    rt: &'a HostRuntime,
    alloc: Global,
    root: Option<&Root>,
    number: u32,
    program: &str,
) -> Result<Processes<'a>, AllocError>
    ensures { IfOk result (λ host. ⟦<ProcessHost<RealHost<'a, HostRuntime>, SystemClock<&'a HostRuntime>, Stderr<'a>> as Host>⟧.told host ≡ []) }
{
    let path = path_of(rt, alloc)?;
    let id = process::id(rt.process());
    let mut host = real_host(rt, alloc, root, number)?;
    host.hear_children();
    ProcessHost::new(
        alloc,
        path.as_str(),
        program,
        id,
        host,
        SystemClock::new(rt),
        Stderr { rt },
    )
}

/// The same host, whose steps are told where that is wanted.
pub(crate) fn watched<'a, H: Host>(
    rt: &'a HostRuntime,
    alloc: Global,
    tally: &'a Tally,
    host: H,
) -> Progress<'a, H, HostRuntime>
    requires { H.told host ≡ [] }
    ensures { ⟦<Progress<'a, H, HostRuntime> as Host>⟧.told result ≡ [] }
{
    Progress::new(host, rt, alloc, tally, wants_progress(rt))
}
