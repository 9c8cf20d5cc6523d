use std::alloc::{AllocError, Global};
use tk_edge::{Host, Miss};
use tk_results::{Fetched, GatherError, gather};
use tk_types::{MOST_RESULT_BYTES, ParamType, ResultSpec, Text, TryCopy};

/// How many bytes of a result's file are looked at: one more than the results of an attempt may have together.
const LIMIT: u64 = 4_097;

/// What a result of a type has to be.
fn form_of(kind: ParamType) -> &'static str {
    match kind {
        ParamType::Str => "text in UTF-8",
        ParamType::Arr => "a JSON array of strings",
        ParamType::Obj => "a JSON object of strings",
    }
}

/// The form that the result of a name has to have.
fn form_named(specs: &[ResultSpec], name: &str) -> &'static str {
    match specs.iter().find(|spec| spec.name.as_str() == name) {
        Some(spec) => form_of(spec.kind),
        None => "of its type",
    }
}

/// The files of the results that are there; nothing where one can't be read.
fn files_of<H: Host>(
    alloc: Global,
    host: &mut H,
    folder: &str,
    specs: &[ResultSpec],
) -> Result<Option<Vec<Fetched>>, AllocError> {
    let mut files = Vec::new(alloc);
    for spec in specs {
        let name = spec.name.as_str();
        let path = format!(in alloc; "{folder}/results/{name}")?;
        match host.fetch(path.as_str(), LIMIT) {
            Ok(bytes) => files.push(Fetched {
                name: spec.name.copy(alloc)?,
                bytes,
            })?,
            Err(Miss::Memory) => return Err(AllocError),
            Err(Miss::Failed) => return Ok(None),
        }
    }
    Ok(Some(files))
}

/// Why the results of a pod whose steps all passed were refused, by the files in its folder.
pub(crate) fn why_refused<H: Host>(
    alloc: Global,
    host: &mut H,
    folder: &str,
    specs: &[ResultSpec],
) -> Result<Text, AllocError> {
    let Some(files) = files_of(alloc, host, folder, specs)? else {
        return Text::from_str(alloc, "a result can't be read");
    };
    match gather(alloc, specs, files.as_slice()) {
        Ok(_) => Text::from_str(alloc, "a result couldn't be read"),
        Err(GatherError::Memory) => Err(AllocError),
        Err(GatherError::TooMany { .. }) => Ok(Text::from_string(format!(in alloc;
            "its results have more than the {MOST_RESULT_BYTES} bytes that they may have together"
        )?)),
        Err(GatherError::Bad { name }) => {
            let form = form_named(specs, name.as_str());
            let name = name.as_str();
            Ok(Text::from_string(format!(in alloc; "its result {name} isn't {form}")?))
        }
    }
}
