ghost use Rattle.std.specs.Prelude.{◌≡◌};
ghost use Rattle.tk_words.specs.Line.{json_is_for, name_of, others_are_for, root_is_for, run_is_for, stands_alone};
ghost use Rattle.tk_words.specs.Ordered.{name_text};

use tk_types::{List, Text};

/// A command of `tkn`.
#[derive(Clone, Copy, Debug, PartialEq, Eq)]
pub enum Name {
    /// Admits the objects of an input.
    Check,
    /// Decides a PipelineRun with the outcomes of its tasks.
    Decide,
    /// Plays the runs of an input by its Scenario.
    Simulate,
    /// Runs the steps as processes.
    Run,
    /// Prints a large manifest that is made from two numbers.
    Generate,
}

/// What the words say: the command, its options, and the words that are none of these, in their order. The root is an absolute
/// path.
#[derive(Drop)]
pub struct Line {
    pub name: Name,
    pub json: bool,
    pub run: bool,
    pub root: Option<Text>,
    pub others: List<Text>,
}

impl Name {
    /// The command with this name.
    pub(crate) fn of(word: &str) -> Option<Name>
        ensures { result ≡ name_of word.now }
    {
        match word {
            "check" => Some(Name::Check),
            "decide" => Some(Name::Decide),
            "simulate" => Some(Name::Simulate),
            "run" => Some(Name::Run),
            "generate" => Some(Name::Generate),
            _ => None,
        }
    }

    /// The command's name.
    pub(crate) fn text(self) -> &'static str
        ensures { result.now ≡ name_text self }
    {
        match self {
            Name::Check => "check",
            Name::Decide => "decide",
            Name::Simulate => "simulate",
            Name::Run => "run",
            Name::Generate => "generate",
        }
    }

    /// Whether the command takes no further word.
    pub(crate) fn stands_alone(self) -> bool
        ensures { result ≡ stands_alone self }
    {
        matches!(self, Name::Check | Name::Decide)
    }

    /// Whether `--json` is an option of the command.
    pub(crate) fn takes_json(self) -> bool
        ensures { result ≡ json_is_for self }
    {
        matches!(self, Name::Simulate | Name::Run)
    }

    /// Whether `--run` is an option of the command.
    pub(crate) fn takes_run(self) -> bool
        ensures { result ≡ run_is_for self }
    {
        self == Name::Generate
    }

    /// Whether `--root` is an option of the command.
    pub(crate) fn takes_root(self) -> bool
        ensures { result ≡ root_is_for self }
    {
        self == Name::Run
    }

    /// Whether the command takes words that are no options.
    pub(crate) fn takes_others(self) -> bool
        ensures { result ≡ others_are_for self }
    {
        matches!(self, Name::Run | Name::Generate)
    }
}
