ghost use Rattle.std.specs.Prelude.{◌≡◌, true, false};
ghost use Rattle.tk_cache.specs.Fronts.{Shows};
ghost use Rattle.tk_cache.specs.Views.{seen};
ghost use Rattle.tk_choice.specs.Took.{IsAnswered, MayTry, entry_of};
ghost use Rattle.tk_journal.specs.Effects.{is_create};
ghost use Rattle.tk_store.specs.Writes.{MayBeTried, version_seen};

use tk_cache::Cache;
use tk_journal::{Act, Actor, Entry};
use tk_store::{Create, Store, Turn, Update};

/// Tries an entry that makes an object.
fn create(store: &mut Store, entry: Entry) -> Turn
    requires create { is_create entry.act ≡ true }
    requires tried { MayBeTried store.old.history entry }
    ensures { IsAnswered store.old entry result store.new }
{
    match store.create(entry) {
        Create::Ok { version } => Turn::Wrote { version },
        Create::Exists { holder, version } => Turn::Exists { holder, version },
        Create::Memory => Turn::Memory,
    }
}

/// Tries an entry that changes an object.
fn update(store: &mut Store, entry: Entry, expected: u64) -> Turn
    requires update { is_create entry.act ≡ false }
    requires tried { MayBeTried store.old.history entry }
    requires expected { expected ≡ version_seen store.old.history entry }
    ensures { IsAnswered store.old entry result store.new }
{
    match store.update(entry, expected) {
        Update::Ok { version } => Turn::Wrote { version },
        Update::Conflict { found } => Turn::Conflict { found },
        Update::Memory => Turn::Memory,
    }
}

/// Tries an act at a cache's fronts: the store's answer to it. An update expects the version that the cache shows. It
/// takes no memory.
pub fn try_act(actor: Actor, cache: &Cache, store: &mut Store, moment: u64, act: Act) -> Turn
    requires shows { Shows (seen cache.now) store.old.history }
    requires may { MayTry (seen cache.now).view actor moment act }
    ensures { IsAnswered store.old (entry_of actor cache.now.fronts moment act) result store.new }
{
    let expected = cache.version(act.kind(), act.name());
    let entry = Entry {
        actor,
        fronts: cache.front(),
        moment,
        act,
    };
    if entry.act.is_create() {
        create(store, entry)
    } else {
        update(store, entry, expected)
    }
}
