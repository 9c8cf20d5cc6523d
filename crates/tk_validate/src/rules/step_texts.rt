ghost use Rattle.std.specs.Prelude.{◌≡◌, ◌++◌, [], false, IfOk, OnOk};
ghost use Rattle.tk_types.specs.Rejected.{Reads};
ghost use Rattle.tk_bind.specs.Fits.{result_words, space_words, words_of_space};
ghost use Rattle.tk_validate.specs.Scoped.{scope_with};
ghost use Rattle.tk_validate.specs.Seen.{keys};
ghost use Rattle.tk_validate.specs.Sited.{in_steps};
ghost use Rattle.tk_validate.specs.Texts.{step_texts, text_finding};

use crate::rule::{Checked, Rule};
use crate::rules::text_rule::InScope;
use crate::seen::Seen;
use crate::seen::layers::Layers;
use crate::seen::outside::declared_seen;
use crate::seen::scope::LayeredNames;
use std::alloc::{AllocError, Global};
use tk_types::{FirstNamed, List, Location, NameSet, ResultSpec, SpaceSpec, TaskSpec, Text};

/// A name with a text in front of it and one behind.
fn name_around(alloc: Global, front: &str, name: &Text, end: &str) -> Result<Text, AllocError>
    ensures { IfOk result (λ text. text ≡ front.now ++ (name.now ++ end.now)) }
{
    let mut text = String::new(alloc);
    text.push_str(front)?;
    text.push_str(name.as_str())?;
    text.push_str(end)?;
    Ok(Text::from_string(text))
}

/// Adds the variables of a workspace.
fn add_space(alloc: Global, words: &mut List<Text>, name: &Text) -> Result<(), AllocError>
    ensures { OnOk result (words.new ≡ words.old ++ keys (words_of_space name.now)) }
{
    words.push(name_around(alloc, "workspaces.", name, ".path")?)?;
    words.push(name_around(alloc, "workspaces.", name, ".bound")?)?;
    words.push(name_around(alloc, "workspaces.", name, ".claim")?)?;
    Ok(())
}

/// The words that the texts of a Task's steps may name, beside these context variables.
fn step_words(
    alloc: Global,
    context: List<Text>,
    spaces: &[SpaceSpec],
) -> Result<List<Text>, AllocError>
    ensures { IfOk result (λ words. words ≡ context ++ keys (space_words spaces.now)) }
{
    let mut words = context;
    for space in spaces {
        add_space(alloc, &mut words, &space.name)?;
    }
    Ok(words)
}

/// The paths of results.
fn result_paths(alloc: Global, results: &[ResultSpec]) -> Result<List<Text>, AllocError>
    ensures { IfOk result (λ paths. paths ≡ keys (result_words results.now)) }
{
    let mut paths = List::new(alloc);
    for spec in results {
        paths.push(name_around(alloc, "results.", &spec.name, ".path")?)?;
    }
    Ok(paths)
}

/// Refuses the first text of a Task's steps with which something is wrong, by what they see and name.
fn check_indexed<'x>(
    alloc: Global,
    seen: &[Seen],
    words: &[Text],
    paths: &[Text],
    middle: &'x FirstNamed<'_, Seen>,
    outer: &'x FirstNamed<'_, Seen>,
    spec: &TaskSpec,
    place: &Location<'_>,
) -> Checked
    ensures { Reads (in_steps (text_finding [] (scope_with (seen.now ++ (middle.now ++ outer.now)) words.now paths.now [] false false)) place.now spec.now) tt result }
{
    let inner = FirstNamed::new(alloc, seen)?;
    let words = FirstNamed::new(alloc, words)?;
    let paths = FirstNamed::new(alloc, paths)?;
    let none = NameSet::new(alloc);
    let layers = Layers::new(&inner, &*middle, &*outer);
    let names = LayeredNames {
        seen: layers,
        words: &words,
        paths: &paths,
        tasks: &none,
        results: false,
        finally_results: false,
    };
    let rule = InScope {
        names: &names,
        firsts: &none,
    };
    rule.check(alloc, spec, place)
}

/// Refuses the first text of a Task's steps with which something is wrong; they see two layers behind the Task's own
/// parameters, and these context variables.
pub(crate) fn check_step_texts<'x>(
    alloc: Global,
    spec: &TaskSpec,
    middle: &'x FirstNamed<'_, Seen>,
    outer: &'x FirstNamed<'_, Seen>,
    context: List<Text>,
    place: &Location<'_>,
) -> Checked
    ensures { Reads (step_texts (middle.now ++ outer.now) context place.now spec.now) tt result }
{
    let seen = declared_seen(alloc, spec.params.as_slice())?;
    let words = step_words(alloc, context, spec.spaces.as_slice())?;
    let paths = result_paths(alloc, spec.results.as_slice())?;
    check_indexed(
        alloc,
        seen.as_slice(),
        words.as_slice(),
        paths.as_slice(),
        middle,
        outer,
        spec,
        place,
    )
}
