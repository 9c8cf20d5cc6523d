ghost use Rattle.std.specs.Prelude.{◌≡◌};
ghost use Rattle.tk_runrec.specs.Found.{is_before, sooner};

use tk_types::Text;

/// A child of a run, with the name of its TaskRun.
#[derive(Drop)]
pub(crate) struct Found {
    pub(crate) task: u32,
    pub(crate) index: u32,
    pub(crate) name: Text,
}

fn is_earlier(a: &Found, b: &Found) -> bool
    ensures { result ≡ is_before a.now b.now }
{
    a.task < b.task || (a.task == b.task && a.index < b.index)
}

/// The earlier of two, by task and index.
pub(crate) fn earlier(best: Option<Found>, found: Option<Found>) -> Option<Found>
    ensures { result ≡ sooner best found }
{
    match found {
        None => best,
        Some(found) => match best {
            None => Some(found),
            Some(best) => {
                if is_earlier(&found, &best) {
                    Some(found)
                } else {
                    Some(best)
                }
            }
        },
    }
}
