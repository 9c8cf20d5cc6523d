use std::alloc::{AllocError, Global};
use tk_advice::{Unready, warnings};
use tk_journal::{Act, Admission, Entry};
use tk_types::Start;

/// What an entry admits, where it can't start.
fn unready_of(entry: &Entry) -> Option<Unready<'_>> {
    let Act::Admit { name, spec, .. } = &entry.act else {
        return None;
    };
    let (is_task_run, start) = match spec {
        Admission::Run(run) => (false, &run.start),
        Admission::Task(task_run) => (true, &task_run.start),
    };
    match start {
        Start::Unstartable(reason) => Some(Unready {
            is_task_run,
            name: name.as_str(),
            reason: reason.as_str(),
        }),
        Start::Ready => None,
    }
}

/// What is said of what these entries admit, where some of it can't start.
fn said(alloc: Global, entries: &[Entry], bytes: &[u8]) -> Result<Option<String>, AllocError> {
    let mut unready = Vec::new(alloc);
    for entry in entries {
        if let Some(one) = unready_of(entry) {
            unready.push(one)?;
        }
    }
    if unready.is_empty() {
        return Ok(None);
    }
    Ok(Some(warnings(alloc, unready.as_slice(), bytes)?))
}

/// What is said to people of what the entries of an input admit, where some of it can't start and there is memory to say it.
pub(crate) fn said_of(alloc: Global, entries: &[Entry], bytes: &[u8]) -> Option<String> {
    match said(alloc, entries, bytes) {
        Ok(said) => said,
        Err(_) => None,
    }
}
