/// How many controllers and kubelets there are, each counted from 0.
#[derive(Clone, Copy, Debug, PartialEq, Eq)]
pub struct Counts {
    pub controllers: u32,
    pub kubelets: u32,
}
