ghost use Rattle.std.specs.Prelude.{◌≡◌, ◌++◌, map, IfOk, OnOk};
ghost use Rattle.tk_journal.specs.Effects.{kind_of_admission};
ghost use Rattle.tk_report.specs.Admitted.{named};
ghost use Rattle.tk_report.specs.Objects.{admitted, admitted_by};

use std::alloc::{AllocError, Global};
use tk_journal::{Act, Admission, Journal};
use tk_types::Kind;

/// An object that was admitted: its kind and its name.
#[derive(Clone, Copy)]
pub(crate) struct Named<'a> {
    pub kind: Kind,
    pub name: &'a str,
}

/// The kind of what is admitted.
fn kind_of(spec: &Admission) -> Kind
    ensures { result ≡ kind_of_admission spec.now }
{
    match spec {
        Admission::Run(_) => Kind::Runs,
        Admission::Task(_) => Kind::TaskRuns,
    }
}

/// Adds what an entry admits.
fn push_admitted<'a>(found: &mut Vec<Named<'a>>, act: &'a Act) -> Result<(), AllocError>
    ensures { OnOk result (map named found.new.items ≡ map named found.old.items ++ admitted_by act.now) }
{
    match act {
        Act::Admit { name, spec, .. } => {
            found.push(Named {
                kind: kind_of(spec),
                name: name.as_str(),
            })?;
            Ok(())
        }
        _ => Ok(()),
    }
}

/// All that is admitted, in order.
pub(crate) fn admitted(alloc: Global, journal: &Journal) -> Result<Vec<Named<'_>>, AllocError>
    ensures { IfOk result (λ found. map named found.items ≡ admitted journal.now.history) }
{
    let mut found = Vec::new(alloc);
    for place in 0..journal.len() {
        push_admitted(&mut found, &journal.entry(place + 1).act)?;
    }
    Ok(found)
}
