//! Whether all texts of steps have values.

ghost use Rattle.std.specs.Prelude.{IfOk};
ghost use Rattle.tk_bind.specs.Readings.{ReadsStep};

use crate::given::env;
use std::alloc::{AllocError, Global};
use std::test::Fail;
use tk_bind::{Lookup, index_of};
use tk_shape::steps_have_values;
use tk_types::{List, Step, Text};
use tk_vars::{ScanError, scan};

/// A step whose command is a text.
fn step(alloc: Global, words: &str) -> Result<Step, ScanError>
    ensures { IfOk result ReadsStep }
{
    scan(alloc, words)?;
    Ok(Step {
        name: None,
        command: List::from_vec(vec![in alloc; Text::from_str(alloc, words)?]?),
        args: List::new(alloc),
        script: None,
        env: List::new(alloc),
        dir: None,
        keep_going: false,
    })
}

/// A text, and behind `=> ` whether it has values as an element of a command.
const COMMANDS: &str = "$(params.t)$(params.x[1]) => true
$(params.x[*]) => true
$(params.t)$(params.z) => false";

/// Whether a command has values.
fn has_values(alloc: Global, lookup: &Lookup, words: &str) -> Result<bool, ScanError> {
    let steps = [step(alloc, words)?];
    Ok(steps_have_values(alloc, lookup, &steps)?)
}

/// Whether a command has values, as a row tells it.
fn told(alloc: Global, words: &str) -> Result<&'static str, AllocError> {
    let env = env(alloc)?;
    let index = index_of(alloc, &env)?;
    match has_values(alloc, &Lookup::new(&index, &[]), words) {
        Ok(true) => Ok("true"),
        Ok(false) => Ok("false"),
        Err(ScanError::BadReference { .. }) => Ok("no reading"),
        Err(ScanError::Memory) => Err(AllocError),
    }
}

#[test]
fn commands_have_values(rt: HostRuntime) -> Result<(), Fail> {
    for row in COMMANDS.split('\n') {
        let (words, wanted) = row.split_once(" => ").unwrap_or((row, "no answer"));
        assert_eq!(rt; told(rt.alloc(), words)?, wanted, "of {words}");
    }
    Ok(())
}
