//! The laws of legal histories: each call promises its law and does nothing.

ghost use Rattle.tk_journal.specs.Folders.{FoldersApart};
ghost use Rattle.tk_journal.specs.Laws.{EndedStays, RunsGrow, LabelsStay, Lasts, LegalIsRight};
ghost use Rattle.tk_journal.specs.Made.{EntriesWrite};
ghost use Rattle.tk_journal.specs.Progress.{NeverStuck};
ghost use Rattle.tk_journal.specs.Weight.{WithinWeight};

/// What is closed or ended is the same at every later position.
pub fn ended_stays()
    ensures { EndedStays }
{}

/// A run's children, stops and asks are the first ones of those later.
pub fn run_grows()
    ensures { RunsGrow }
{}

/// A label on which nothing can act any more stays.
pub fn label_stays()
    ensures { LabelsStay }
{}

/// The facts by which the induction over a history goes.
pub fn lasting()
    ensures { Lasts }
{}

/// An entry makes its object where that isn't there yet, and only changes it where it is.
pub fn entries_write()
    ensures { EntriesWrite }
{}

/// Each legal history is right at each of its positions.
pub fn legal_is_right()
    ensures { LegalIsRight }
{}

/// Where something is open, some entry of a worker or kubelet that sees all goes through, or a claimed pod hasn't ended.
pub fn never_stuck()
    ensures { NeverStuck }
{}

/// The entries are at most as many as the admitted runs and the asks allow.
pub fn within_weight()
    ensures { WithinWeight }
{}

/// Where all that is admitted has one root, the folder of an attempt's `emptyDir` neither is nor lies under a folder of
/// another attempt.
pub fn folders_apart()
    ensures { FoldersApart }
{}
