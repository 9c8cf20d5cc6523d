/// Why a call doesn't go on from a file.
#[derive(Clone, Copy, Debug, PartialEq, Eq)]
pub enum Unfit {
    /// The file's Admit entries and the input's differ, first at this position, from 1.
    Differs { position: u64 },
    /// The bench lacks the kubelet of this number, which claimed a pod that hasn't ended, or this kubelet has had its last
    /// life.
    Nodes { number: u32 },
}
