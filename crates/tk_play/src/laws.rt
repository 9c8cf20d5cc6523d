//! The laws of such turns: each call promises its law and does nothing.

ghost use Rattle.tk_machine.specs.Hosts.{AreGathered};
ghost use Rattle.tk_play.specs.Scripts.{script_of};
ghost use Rattle.tk_play.specs.Start.{NextLifeIsOwn, NothingIsOwn};
ghost use Rattle.tk_play.specs.Turn.{TurnIsPlayed};
ghost use Rattle.tk_script.specs.ScriptHost.{Scripts};

/// What the files of a script come to are declared results.
pub fn scripts_gather()
    ensures { (scripts : Scripts) → AreGathered (script_of scripts) }
{}

/// A kubelet's turn over a host that plays its script is the machine's turn, and keeps what it needs.
pub fn turn_is_played()
    ensures { TurnIsPlayed }
{}

/// A new kubelet beside a host that did nothing has that.
pub fn nothing_is_own()
    ensures { NothingIsOwn }
{}

/// So does a kubelet in its next life, once what ran of its pods was killed.
pub fn next_life_is_own()
    ensures { NextLifeIsOwn }
{}
