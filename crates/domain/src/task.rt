use crate::{FactList, Kind};

/// A task: its kind, and the facts that it needs, adds and deletes.
#[derive(Clone, Copy)]
pub struct Task {
    pub(super) kind: Kind,
    pub(super) needs: FactList,
    pub(super) adds: FactList,
    pub(super) deletes: FactList,
}
