//! A kubelet's turn over a host that plays a script is the machine's turn.
//!
//! `specs/Turn.antt` has the law, `Own.antt` what a turn keeps, `Scripts.antt` what the host's scripts are to the
//! machine; in `proofs/`, `Tries.antt` that it tries the first entry that it may, `Watches.antt` and `Spared.antt` that
//! held pods go on and that kills are right, `Exits.antt`, `Results.antt`, `Paths.antt`, `Markers.antt` and
//! `Spaces.antt` that exits and files are the script's.
#![tactic(auto)]

pub mod laws;
