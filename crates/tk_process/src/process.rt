ghost use Rattle.std.specs.Prelude.{◌≡◌, ◌++◌, codes, IfOk};
ghost use Rattle.tk_process.specs.Processes.{AreBeside, IsBeside, IsOfArming, IsProcessOrder};

use crate::starter::{Starter, in_folder};
use std::alloc::{AllocError, Global};
use tk_edge::{Arming, Order, broken};
use tk_enter::EntryWords;
use tk_types::{List, Text, TryCopy};

/// The process of an armed entry: its number at the host below, once that started it, the files by which it tells how it goes,
/// and the child that posts where it waits, if any. A child that was started, and not armed, has neither.
#[derive(Drop)]
pub(crate) struct Process {
    pub(crate) number: Option<u64>,
    pub(crate) files: Option<Told>,
    pub(crate) poster: Option<u64>,
}

/// The files of a process: that its command was started, its exit, what cancels it, and the post file with `.err`.
#[derive(Drop)]
pub(crate) struct Told {
    pub(crate) began: Text,
    pub(crate) exit: Text,
    pub(crate) cancel: Text,
    pub(crate) failed: Text,
}

/// A file beside another one.
fn beside(alloc: Global, path: &str, name: &str) -> Result<Text, AllocError>
    ensures { IfOk result (IsBeside path.now name.now) }
{
    match path.rsplit_once('/') {
        Some((folder, _)) => in_folder(alloc, folder, name),
        None => Text::from_str(alloc, name),
    }
}

impl Told {
    /// The files beside this post file.
    pub(crate) fn beside(alloc: Global, post: &str) -> Result<Told, AllocError>
        ensures { IfOk result (AreBeside post.now) }
    {
        Ok(Told {
            began: beside(alloc, post, "began")?,
            exit: beside(alloc, post, "exit")?,
            cancel: beside(alloc, post, "cancel")?,
            failed: broken(alloc, post)?,
        })
    }
}

/// The words of the process of an entry that is armed so.
fn words_of(alloc: Global, arming: &Arming, told: &Told) -> Result<EntryWords, AllocError>
    ensures { IfOk result (IsOfArming arming.now told.now) }
{
    Ok(EntryWords {
        wait: arming.wait.copy(alloc)?,
        post: arming.post.copy(alloc)?,
        began: told.began.copy(alloc)?,
        exit: told.exit.copy(alloc)?,
        cancel: told.cancel.copy(alloc)?,
        keep_going: arming.keep_going,
        argv: arming.order.argv.copy(alloc)?,
    })
}

/// The order of the process of an entry that is armed so: the program with its words, in the environment and the folder of the
/// entry's order.
pub(crate) fn process_order(
    alloc: Global,
    starter: &Starter,
    arming: &Arming,
    told: &Told,
) -> Result<Order, AllocError>
    ensures { IfOk result (IsProcessOrder starter.now arming.now told.now) }
{
    let words = words_of(alloc, arming, told)?.spelled(alloc)?;
    let mut argv = starter.words.copy(alloc)?;
    argv.push_all(alloc, words.as_slice())?;
    let mut env = arming.order.env.copy(alloc)?;
    env.push(starter.parent.copy(alloc)?)?;
    Ok(Order {
        pod: arming.order.pod.copy(alloc)?,
        step: arming.order.step,
        argv,
        env,
        dir: arming.order.dir.copy(alloc)?,
    })
}
