/// How far a plan is carried out: the steps taken and the facts that hold, as masks.
#[derive(Drop)]
pub struct Progress {
    pub(super) taken: u64,
    pub(super) facts: u64,
}
