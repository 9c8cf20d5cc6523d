use tk_kubelet::KubeletTurn;
use tk_store::Turn;
use tk_user::AskAnswer;

/// What a step came to: the answer of the worker's or the kubelet's turn or of the ask, and for all else that it was done.
#[derive(Clone, Copy, Debug, PartialEq, Eq)]
pub enum Stepped {
    Worker(Turn),
    Kubelet(KubeletTurn),
    Asked(AskAnswer),
    Moved,
}
