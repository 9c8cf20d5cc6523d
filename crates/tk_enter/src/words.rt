ghost use Rattle.std.specs.Prelude.{◌≡◌, ◌≢◌, ℕ, Bool, true, false, List, [], ◌∷◌, ◌++◌, IfOk, OnOk, OnErr, MatchOption};
ghost use Rattle.tk_enter.specs.Words.{IsNoForm, ReadsAs, Spells, on_error, spelled as spelled_words};

use std::alloc::{AllocError, Global};
use tk_types::{List, Text, TryCopy};

/// The variable of the environment that tells the number of the process that started the program.
pub const PARENT: &str = "TKN_PARENT";

/// The words of an entrypoint's program. It waits for the file `wait` and leaves `post` behind its command; it puts `began` once
/// that was started, and its exit at `exit` before `post`; it ends once `cancel` stands. With `keep_going` each exit passes.
/// Each file is a whole path, and `argv` has a word.
#[derive(Drop)]
pub struct EntryWords {
    pub wait: Text,
    pub post: Text,
    pub began: Text,
    pub exit: Text,
    pub cancel: Text,
    pub keep_going: bool,
    pub argv: List<Text>,
}

/// The words behind the first one, where that is this.
fn behind<'a>(words: &'a [Text], name: &str) -> Option<&'a [Text]>
    ensures { MatchOption result ((rest : List (List ℕ)) → words.now ≡ name.now ∷ rest → ⊥) (λ rest. words.now ≡ name.now ∷ rest.now) }
{
    match words.split_first() {
        Some((word, rest)) if word.as_str() == name => Some(rest),
        _ => None,
    }
}

/// The value behind a name, and the words behind it.
fn option<'a>(words: &'a [Text], name: &str) -> Option<(&'a Text, &'a [Text])>
    ensures { MatchOption result ((value : List ℕ) (rest : List (List ℕ)) → words.now ≡ name.now ∷ value ∷ rest → ⊥) (λ found. words.now ≡ name.now ∷ found.0.now ∷ found.1.now) }
{
    behind(words, name)?.split_first()
}

/// The command behind `--`, which has a word.
fn argv(words: &[Text]) -> Option<&[Text]>
    ensures { MatchOption result ((argv : List (List ℕ)) → words.now ≡ on_error false argv → argv ≢ [] → ⊥) (λ argv. (words.now ≡ on_error false argv.now) × (argv.now ≢ [])) }
{
    match behind(words, "--") {
        Some(argv) if !argv.is_empty() => Some(argv),
        _ => None,
    }
}

/// The command behind the words by which each exit passes.
fn going_on(words: &[Text]) -> Option<&[Text]>
    ensures { MatchOption result ((argv : List (List ℕ)) → words.now ≡ on_error true argv → argv ≢ [] → ⊥) (λ argv. (words.now ≡ on_error true argv.now) × (argv.now ≢ [])) }
{
    let Some(rest) = behind(words, "-on_error") else {
        return None;
    };
    let Some(rest) = behind(rest, "continue") else {
        return None;
    };
    argv(rest)
}

/// The command, and whether each exit passes.
fn command(words: &[Text]) -> Option<(bool, &[Text])>
    ensures { MatchOption result ((keep_going : Bool) (argv : List (List ℕ)) → words.now ≡ on_error keep_going argv → argv ≢ [] → ⊥) (λ found. (words.now ≡ on_error found.0 found.1.now) × (found.1.now ≢ [])) }
{
    match argv(words) {
        Some(argv) => Some((false, argv)),
        None => match going_on(words) {
            Some(argv) => Some((true, argv)),
            None => None,
        },
    }
}

/// What words say that are of their form.
#[derive(Clone, Copy)]
struct Parts<'a> {
    wait: &'a Text,
    post: &'a Text,
    began: &'a Text,
    exit: &'a Text,
    cancel: &'a Text,
    keep_going: bool,
    argv: &'a [Text],
}

/// What the words say, where they are of their form.
fn parts_of(words: &[Text]) -> Option<Parts<'_>>
    ensures { MatchOption result (IsNoForm words.now) (λ f. Spells words.now (record { wait = f.wait.now; post = f.post.now; began = f.began.now; exit = f.exit.now; cancel = f.cancel.now; keep_going = f.keep_going; argv = f.argv.now })) }
{
    let Some((wait, rest)) = option(words, "-wait_file") else {
        return None;
    };
    let Some((post, rest)) = option(rest, "-post_file") else {
        return None;
    };
    let Some((began, rest)) = option(rest, "-began_file") else {
        return None;
    };
    let Some((exit, rest)) = option(rest, "-exit_file") else {
        return None;
    };
    let Some((cancel, rest)) = option(rest, "-cancel_file") else {
        return None;
    };
    let Some((keep_going, argv)) = command(rest) else {
        return None;
    };
    Some(Parts {
        wait,
        post,
        began,
        exit,
        cancel,
        keep_going,
        argv,
    })
}

/// A copy of what was found.
fn copied(alloc: Global, parts: &Parts<'_>) -> Result<EntryWords, AllocError>
    ensures { IfOk result (λ w. w ≡ record { wait = parts.now.wait.now; post = parts.now.post.now; began = parts.now.began.now; exit = parts.now.exit.now; cancel = parts.now.cancel.now; keep_going = parts.now.keep_going; argv = parts.now.argv.now }) }
{
    let mut argv = List::new(alloc);
    argv.push_all(alloc, parts.argv)?;
    Ok(EntryWords {
        wait: parts.wait.copy(alloc)?,
        post: parts.post.copy(alloc)?,
        began: parts.began.copy(alloc)?,
        exit: parts.exit.copy(alloc)?,
        cancel: parts.cancel.copy(alloc)?,
        keep_going: parts.keep_going,
        argv,
    })
}

/// What the words say, where they are of their form. The only error is want of memory, which comes only where they are.
pub fn read_words(alloc: Global, words: &[Text]) -> Result<Option<EntryWords>, AllocError>
    ensures read { IfOk result (ReadsAs words.now) }
    ensures memory { OnErr result (IsNoForm words.now → ⊥) }
{
    match parts_of(words) {
        Some(parts) => match copied(alloc, &parts) {
            Ok(words) => Ok(Some(words)),
            Err(AllocError) => Err(AllocError),
        },
        None => Ok(None),
    }
}

/// Adds a word.
fn add(alloc: Global, words: &mut List<Text>, word: &str) -> Result<(), AllocError>
    ensures { OnOk result (words.new ≡ words.old ++ word.now ∷ []) }
{
    words.push(Text::from_str(alloc, word)?)
}

/// Adds a name and its value.
fn add_option(
    alloc: Global,
    words: &mut List<Text>,
    name: &str,
    value: &Text,
) -> Result<(), AllocError>
    ensures { OnOk result (words.new ≡ words.old ++ name.now ∷ value.now ∷ []) }
{
    add(alloc, words, name)?;
    words.push(value.copy(alloc)?)
}

/// Adds a command, and whether each exit passes.
fn add_command(
    alloc: Global,
    words: &mut List<Text>,
    keep_going: bool,
    argv: &List<Text>,
) -> Result<(), AllocError>
    ensures { OnOk result (words.new ≡ words.old ++ on_error keep_going argv.now) }
{
    if keep_going {
        add(alloc, words, "-on_error")?;
        add(alloc, words, "continue")?;
    }
    add(alloc, words, "--")?;
    words.push_all(alloc, argv.as_slice())
}

impl EntryWords {
    /// The words as they are spelled. The only error is want of memory.
    pub fn spelled(&self, alloc: Global) -> Result<List<Text>, AllocError>
        ensures { IfOk result (λ words. words ≡ spelled_words self.now) }
    {
        let mut words = List::new(alloc);
        add_option(alloc, &mut words, "-wait_file", &self.wait)?;
        add_option(alloc, &mut words, "-post_file", &self.post)?;
        add_option(alloc, &mut words, "-began_file", &self.began)?;
        add_option(alloc, &mut words, "-exit_file", &self.exit)?;
        add_option(alloc, &mut words, "-cancel_file", &self.cancel)?;
        add_command(alloc, &mut words, self.keep_going, &self.argv)?;
        Ok(words)
    }
}
