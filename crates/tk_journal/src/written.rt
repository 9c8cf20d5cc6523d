ghost use Rattle.std.specs.Prelude.{◌≡◌};
ghost use Rattle.tk_journal.specs.Effects.{name_of, kind_of, same_kind, writes, kind_of_admission, kind_of_asked, kind_of_closing, is_create};

use crate::act::{Act, Admission, Closing};
use crate::entry::Entry;
use tk_types::{Asked, Kind};

/// The kind of what is admitted.
fn kind_of_admission(spec: &Admission) -> Kind
    ensures { result ≡ kind_of_admission spec.now }
{
    match spec {
        Admission::Run(_) => Kind::Runs,
        Admission::Task(_) => Kind::TaskRuns,
    }
}

/// The kind of what can be asked so.
fn kind_of_asked(status: Asked) -> Kind
    ensures { result ≡ kind_of_asked status }
{
    match status {
        Asked::TaskRunCancelled => Kind::TaskRuns,
        Asked::Start | Asked::StoppedRunFinally | Asked::CancelledRunFinally | Asked::Cancelled =>
            Kind::Runs,
    }
}

/// The kind of what is closed.
fn kind_of_closing(closing: &Closing) -> Kind
    ensures { result ≡ kind_of_closing closing.now }
{
    match closing {
        Closing::Attempt(_) | Closing::TaskRun => Kind::TaskRuns,
        Closing::Run { .. } => Kind::Runs,
    }
}

impl Act {
    /// The name of the object that it writes.
    pub fn name(&self) -> &str
        ensures { result.now ≡ name_of self.now }
    {
        match self {
            Act::Admit { name, .. } => name.as_str(),
            Act::Ask { name, .. } => name.as_str(),
            Act::Start { name } => name.as_str(),
            Act::Schedule { name, .. } => name.as_str(),
            Act::MakeTaskRun { name, .. } => name.as_str(),
            Act::Halt { name, .. } => name.as_str(),
            Act::CancelTaskRun { name } => name.as_str(),
            Act::OpenAttempt { name } => name.as_str(),
            Act::MakePod { name, .. } => name.as_str(),
            Act::ClaimPod { name } => name.as_str(),
            Act::EndPod { name, .. } => name.as_str(),
            Act::Close { name, .. } => name.as_str(),
        }
    }

    /// The kind of the object that it writes.
    pub fn kind(&self) -> Kind
        ensures { result ≡ kind_of self.now }
    {
        match self {
            Act::Admit { spec, .. } => kind_of_admission(spec),
            Act::Ask { status, .. } => kind_of_asked(*status),
            Act::Start { .. } | Act::Schedule { .. } | Act::Halt { .. } => Kind::Runs,
            Act::MakeTaskRun { .. } | Act::CancelTaskRun { .. } | Act::OpenAttempt { .. } => {
                Kind::TaskRuns
            }
            Act::MakePod { .. } | Act::ClaimPod { .. } | Act::EndPod { .. } => Kind::Pods,
            Act::Close { closing, .. } => kind_of_closing(closing),
        }
    }

    /// Whether it makes an object.
    pub fn is_create(&self) -> bool
        ensures { result ≡ is_create self.now }
    {
        match self {
            Act::Admit { .. } | Act::MakeTaskRun { .. } | Act::MakePod { .. } => true,
            _ => false,
        }
    }
}

/// Whether two kinds are the same.
fn same_kind(one: Kind, other: Kind) -> bool
    ensures { result ≡ same_kind one other }
{
    match (one, other) {
        (Kind::Runs, Kind::Runs) | (Kind::TaskRuns, Kind::TaskRuns) | (Kind::Pods, Kind::Pods) =>
            true,
        _ => false,
    }
}

impl Entry {
    /// Whether it writes this object.
    pub fn writes(&self, kind: Kind, name: &str) -> bool
        ensures { result ≡ writes kind name.now self.now }
    {
        same_kind(kind, self.act.kind()) && self.act.name() == name
    }
}
