ghost use Rattle.std.specs.Prelude.{◌≡◌, ◌<◌, ◌≤◌, ℕ, length, IfOk, OnErr, IsTrue};
ghost use Rattle.tk_journal.specs.Legal.{IsLegal};
ghost use Rattle.tk_rounds.specs.Growth.{GrowsBy};
ghost use Rattle.tk_run.specs.Asks.{AreTried, ClockTold, IsEachTried, IsNoneTried, IsOfUser, TriesWord, UserFollows, clock_told};
ghost use Rattle.tk_edge.specs.Readings.{AddsWhileTold, last_moment};

use std::alloc::{AllocError, Global};
use tk_edge::Clock;
use tk_store::Store;
use tk_types::{Asked, Text, TryCopy};
use tk_user::{ask, refused};

/// What is asked of the run or TaskRun of a name, and how many milliseconds after the call began.
#[derive(Drop)]
pub struct AskWord {
    pub run: Text,
    pub status: Asked,
    pub delay: u64,
}

impl TryCopy for AskWord {
    fn copy(&self, alloc: Global) -> Result<AskWord, AllocError> {
        Ok(AskWord {
            run: self.run.copy(alloc)?,
            status: self.status,
            delay: self.delay,
        })
    }
}

/// When a call began, and which of its words were tried, by their places.
#[derive(Drop)]
pub(crate) struct Asking {
    pub start: u64,
    pub tried: Vec<bool>,
}

/// That none of so many words was tried. The only error is want of memory.
pub(crate) fn untried(alloc: Global, count: usize) -> Result<Vec<bool>, AllocError>
    ensures count { IfOk result (λ tried. length tried.items ≡ count) }
    ensures none { IfOk result (λ tried. IsNoneTried tried.items) }
{
    let mut tried = Vec::new(alloc);
    for _ in 0..count {
        tried.push(false)?;
    }
    Ok(tried)
}

/// Whether each word was tried.
pub(crate) fn all_tried(tried: &[bool]) -> bool
    ensures { IsTrue result → IsEachTried tried.now }
{
    !tried.contains(&false)
}

/// Asks what a word says where its time has come, by one reading of the user's clock. It tells whether the word was tried.
/// The only error is want of memory; the store is then as before.
fn try_word<K: Clock>(
    alloc: Global,
    user: &mut K,
    start: u64,
    word: &AskWord,
    store: &mut Store,
) -> Result<bool, AllocError>
    ensures late { K.last user.old ≤ K.last user.new }
    ensures within { K.last user.new ≤ last_moment }
    ensures told { AddsWhileTold (K.last user.new) (K.readings user.old) (K.readings user.new) }
    ensures tried { IfOk result (λ tried. TriesWord tried start word.now (K.last user.new) store.old.history store.new.history) }
    ensures err { OnErr result (store.new.history ≡ store.old.history) }
{
    let moment = user.now();
    if moment < start.saturating_add(word.delay) {
        return Ok(false);
    }
    ask(alloc, store, word.run.as_str(), word.status, moment)?;
    Ok(true)
}

/// Tries the word at a place, unless it was tried.
fn ask_word<K: Clock>(
    alloc: Global,
    user: &mut K,
    words: &[AskWord],
    place: usize,
    asking: &mut Asking,
    store: &mut Store,
) -> Result<(), AllocError>
    requires place { place < length words.now }
    requires count { length asking.old.tried.items ≡ length words.now }
    ensures count { length asking.new.tried.items ≡ length asking.old.tried.items }
    ensures start { asking.new.start ≡ asking.old.start }
    ensures legal { IsLegal store.new.history }
    ensures grows { GrowsBy IsOfUser store.old.history store.new.history }
    ensures asks { (since : ℕ) → since ≤ asking.old.start → AreTried since words.now asking.old.tried.items store.old.history → AreTried since words.now asking.new.tried.items store.new.history }
    ensures user { (since : ClockTold) → UserFollows since (clock_told K.readings K.last user.old) store.old.history → UserFollows since (clock_told K.readings K.last user.new) store.new.history }
{
    store.legal();
    if asking.tried[place] {
        return Ok(());
    }
    let tried = try_word(alloc, user, asking.start, &words[place], store);
    store.legal();
    if tried? {
        asking.tried[place] = true;
    }
    Ok(())
}

/// Tries each word whose time has come and that wasn't tried, in order. The only error is want of memory.
pub(crate) fn ask_due<K: Clock>(
    alloc: Global,
    user: &mut K,
    words: &[AskWord],
    asking: &mut Asking,
    store: &mut Store,
) -> Result<(), AllocError>
    requires count { length asking.old.tried.items ≡ length words.now }
    ensures count { length asking.new.tried.items ≡ length asking.old.tried.items }
    ensures start { asking.new.start ≡ asking.old.start }
    ensures legal { IsLegal store.new.history }
    ensures grows { GrowsBy IsOfUser store.old.history store.new.history }
    ensures asks { (since : ℕ) → since ≤ asking.old.start → AreTried since words.now asking.old.tried.items store.old.history → AreTried since words.now asking.new.tried.items store.new.history }
    ensures user { (since : ClockTold) → UserFollows since (clock_told K.readings K.last user.old) store.old.history → UserFollows since (clock_told K.readings K.last user.new) store.new.history }
{
    store.legal();
    for place in 0..words.len() {
        ask_word(alloc, user, words, place, asking, store)?;
    }
    Ok(())
}

/// Counts the word at a place as tried where it is refused now, and so for good. The only error is want of memory.
fn refuse_word(
    alloc: Global,
    words: &[AskWord],
    place: usize,
    asking: &mut Asking,
    store: &Store,
) -> Result<(), AllocError>
    requires place { place < length words.now }
    requires count { length asking.old.tried.items ≡ length words.now }
    ensures count { length asking.new.tried.items ≡ length asking.old.tried.items }
    ensures start { asking.new.start ≡ asking.old.start }
    ensures asks { (since : ℕ) → AreTried since words.now asking.old.tried.items store.now.history → AreTried since words.now asking.new.tried.items store.now.history }
{
    if asking.tried[place] {
        return Ok(());
    }
    let word = &words[place];
    if let Some(_) = refused(alloc, store.journal(), word.run.as_str(), word.status)? {
        asking.tried[place] = true;
    }
    Ok(())
}

/// Counts each word as tried that is refused now, and so for good: at the first round that came to nothing behind an entry,
/// since no later one finds another journal. The only error is want of memory.
pub(crate) fn refuse_rest(
    alloc: Global,
    words: &[AskWord],
    asking: &mut Asking,
    store: &Store,
    idle: u64,
) -> Result<(), AllocError>
    requires count { length asking.old.tried.items ≡ length words.now }
    ensures count { length asking.new.tried.items ≡ length asking.old.tried.items }
    ensures start { asking.new.start ≡ asking.old.start }
    ensures asks { (since : ℕ) → AreTried since words.now asking.old.tried.items store.now.history → AreTried since words.now asking.new.tried.items store.now.history }
{
    if idle != 1 {
        return Ok(());
    }
    for place in 0..words.len() {
        refuse_word(alloc, words, place, asking, store)?;
    }
    Ok(())
}
