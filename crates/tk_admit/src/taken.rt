ghost use Rattle.std.specs.Prelude.{◌≡◌, All, IfOk, None, Some, if◌then◌else◌};
ghost use Rattle.tk_types.specs.declared.object.Asked.TheVariants.{TaskRunCancelled};
ghost use Rattle.tk_types.specs.declared.object.Item.{Item as I};
ghost use Rattle.tk_bind.specs.Readings.{ReadsObject};
ghost use Rattle.tk_admit.specs.Taken.{asked_of as asked_of_object, is_pending as is_pending_object, resolved as resolved_object, taken_of};

use std::alloc::{AllocError, Global};
use tk_journal::Admission;
use tk_resolve::Resolver;
use tk_types::{Asked, Item, ItemObject, Place, TryCopy};

/// A run of the input that is taken in, with all that it refers to: the place of its object, whether it waits for its
/// start, and what is asked of it from the start.
#[derive(Drop)]
pub struct Taken {
    pub place: Place,
    pub pending: bool,
    pub asked: Option<Asked>,
    pub spec: Admission,
}

/// A run with all that it refers to among the earlier objects, if the object is one.
fn resolved<'a>(
    alloc: Global,
    earlier: &mut Resolver<'a>,
    object: &'a ItemObject,
) -> Result<Option<Admission>, AllocError>
    requires own { ReadsObject object.now }
    requires earlier { All (λ (i : I). ReadsObject i.object) earlier.old }
    ensures resolved { IfOk result (λ spec. spec ≡ resolved_object earlier.old object.now) }
    ensures kept { earlier.new ≡ earlier.old }
{
    match object {
        ItemObject::PipelineRun(run) => Ok(Some(Admission::Run(earlier.run(alloc, run)?))),
        ItemObject::TaskRun(run) => Ok(Some(Admission::Task(earlier.task(alloc, run)?))),
        _ => Ok(None),
    }
}

/// Whether a run waits for its start.
fn is_pending(object: &ItemObject) -> bool
    ensures { result ≡ is_pending_object object.now }
{
    match object {
        ItemObject::PipelineRun(run) => run.pending,
        _ => false,
    }
}

/// What is asked of a run from the start.
fn asked_of(object: &ItemObject) -> Option<Asked>
    ensures { result ≡ asked_of_object object.now }
{
    match object {
        ItemObject::PipelineRun(run) => run.status,
        ItemObject::TaskRun(run) => asked_by(run.cancelled),
        _ => None,
    }
}

/// A TaskRun that is cancelled from the start.
fn asked_by(cancelled: bool) -> Option<Asked>
    ensures { result ≡ (if cancelled then Some TaskRunCancelled else None) }
{
    if cancelled {
        Some(Asked::TaskRunCancelled)
    } else {
        None
    }
}

/// An object as a run that is taken in, if it is one.
pub(crate) fn taken_item<'a>(
    alloc: Global,
    earlier: &mut Resolver<'a>,
    item: &'a Item,
) -> Result<Option<Taken>, AllocError>
    requires own { ReadsObject item.now.object }
    requires earlier { All (λ (i : I). ReadsObject i.object) earlier.old }
    ensures run { IfOk result (λ run. run ≡ taken_of (earlier.old, item.now)) }
    ensures kept { earlier.new ≡ earlier.old }
{
    match resolved(alloc, earlier, &item.object)? {
        Some(spec) => Ok(Some(Taken {
            place: item.place.copy(alloc)?,
            pending: is_pending(&item.object),
            asked: asked_of(&item.object),
            spec,
        })),
        None => Ok(None),
    }
}
