//! The laws of the machine: each call promises its law and does nothing.

ghost use Rattle.tk_machine.specs.Fair.{RoundMoves, RoundsEnd, RoundsClose, RoundsSimulate};
ghost use Rattle.tk_machine.specs.Hosts.{Script};
ghost use Rattle.tk_machine.specs.Kills.{SettledLasts};
ghost use Rattle.tk_machine.specs.Machine.{RunsAreLegal, RunsAreRight, StartIsSound, TurnIsStep};
ghost use Rattle.tk_machine.specs.Prompt.{WatchedMoves};
ghost use Rattle.tk_machine.specs.Turns.{WorkersTake};

/// A worker's turn adds one step of a legal history, or nothing.
pub fn turn_is_step()
    ensures { TurnIsStep }
{}

/// The store's answer to a worker's choice, by what its cache shows, is such a turn, unless memory was wanting.
pub fn workers_take()
    ensures { WorkersTake }
{}

/// A pod that was seen as marked or late is so at the end of the history, now and later, however it goes on.
pub fn settled_lasts()
    ensures { SettledLasts }
{}

/// A world that begins with admitted entries is sound.
pub fn start_is_sound()
    ensures { (script : Script) → StartIsSound script }
{}

/// Whatever the events, it stays sound, so its history stays legal.
pub fn runs_are_legal()
    ensures { (script : Script) → RunsAreLegal script }
{}

/// And that is right at each of its positions.
pub fn runs_are_right()
    ensures { (script : Script) → RunsAreRight script }
{}

/// In a fair round that begins while something is open, an entry is added, or a step starts or ends.
pub fn fair_rounds_move()
    ensures { (script : Script) → RoundMoves script }
{}

/// So there are at most as many such rounds as the weight, less what had happened before them.
pub fn fair_rounds_end()
    ensures { (script : Script) → RoundsEnd script }
{}

/// After as many of them as the weight nothing is open.
pub fn fair_rounds_close()
    ensures { (script : Script) → RoundsClose script }
{}

/// A kubelet's turn that watches each step of its held pods, over a host whose children end at once, moves.
pub fn watched_pods_move()
    ensures { (script : Script) → WatchedMoves script }
{}

/// A run over a scenario's events, and then such rounds, are what `simulate` answers.
pub fn rounds_simulate()
    ensures { (script : Script) → RoundsSimulate script }
{}
