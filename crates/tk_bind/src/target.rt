ghost use Rattle.std.specs.Prelude.{◌≡◌, ◌||◌, None, option_map, bytes_eq, codes, if◌then◌else◌};
ghost use Rattle.tk_vars.specs.Target.{param_target, result_target, target_of};
ghost use Rattle.tk_bind.specs.Found.{meant};

use tk_vars::{Part, Word};

/// What a reference refers to, by its parts.
#[derive(Clone, Copy)]
pub enum Target<'a> {
    /// A parameter, and the selector.
    Param {
        name: &'a Part<'a>,
        selector: &'a [Part<'a>],
    },
    /// A task, a result of it, and the selector.
    Result {
        task: &'a Word<'a>,
        name: &'a Part<'a>,
        selector: &'a [Part<'a>],
    },
    /// A context, status, path or workspace variable.
    Word {
        parts: &'a [Part<'a>],
    },
}

fn param_target<'a>(parts: &'a [Part<'a>]) -> Option<Target<'a>>
    ensures { option_map meant result ≡ param_target parts.now }
{
    match parts {
        [name, selector @ ..] => Some(Target::Param { name, selector }),
        [] => None,
    }
}

fn result_target<'a>(parts: &'a [Part<'a>]) -> Option<Target<'a>>
    ensures { option_map meant result ≡ result_target parts.now }
{
    match parts {
        [first, second, name, selector @ ..] => match (first, second) {
            (Part::Name(task), Part::Name(field)) if field.as_str() == "results" => {
                Some(Target::Result {
                    task,
                    name,
                    selector,
                })
            }
            _ => None,
        },
        _ => None,
    }
}

fn headed<'a>(head: &str, parts: &'a [Part<'a>]) -> Option<Target<'a>>
    ensures { option_map meant result ≡ (if bytes_eq head.now (codes "params") then param_target parts.now else (if bytes_eq head.now (codes "tasks") || bytes_eq head.now (codes "finally") then result_target parts.now else None)) }
{
    if head == "params" {
        param_target(parts)
    } else if head == "tasks" || head == "finally" {
        result_target(parts)
    } else {
        None
    }
}

/// What a reference with these parts refers to.
pub fn target_of<'a>(parts: &'a [Part<'a>]) -> Target<'a>
    ensures { meant result ≡ target_of parts.now }
{
    match parts {
        [first, rest @ ..] => match first {
            Part::Name(head) => headed(head.as_str(), rest).unwrap_or(Target::Word { parts }),
            _ => Target::Word { parts },
        },
        [] => Target::Word { parts },
    }
}
