//! Laws of admission over the definitions of the journal.

ghost use Rattle.tk_sound.specs.Laws.{AdmittedHasRoot, AdmittedIsLegal, AdmittedIsSound, AdmittedWeighs};

use tk_admit::laws::taken_is_sound;

/// Where an input has no fault, the entries that admit it, the newest first, are a legal history.
pub fn admitted_is_legal()
    ensures { AdmittedIsLegal }
{
    taken_is_sound();
}

/// Each of these entries admits a sound run or a sound standalone TaskRun, and no two names that their TaskRuns may have
/// are equal.
pub fn admitted_is_sound()
    ensures { AdmittedIsSound }
{
    taken_is_sound();
}

/// All that is admitted has the root that was handed in.
pub fn admitted_has_root()
    ensures { AdmittedHasRoot }
{}

/// Where an input has no fault, the weight that is told is exactly that of the entries, with the asks of the caller and
/// those of the Scenarios. By the weight of its entries `within_weight` of `tk_journal` bounds a journal.
pub fn admitted_weighs()
    ensures { AdmittedWeighs }
{}
