//! Laws of a kubelet's choice: each call promises its law and does nothing.
ghost use Rattle.tk_kubelet.specs.Laws.{ClaimIsJustified, LostIsJustified, NoClaimIsLeft, NoneIsLost};

/// The claim that a kubelet finds is justified.
pub fn claim_is_justified()
    ensures { ClaimIsJustified }
{}

/// The first pod that it ends is justified as Lost where an earlier life claimed it.
pub fn lost_is_justified()
    ensures { LostIsJustified }
{}

/// Where it finds no claim, none is justified.
pub fn no_claim_is_left()
    ensures { NoClaimIsLeft }
{}

/// Where it finds no pod to end, no pod is to end as Lost.
pub fn none_is_lost()
    ensures { NoneIsLost }
{}
