use crate::Steps;
use fixed::Fixed;
use semantics::Link;

/// Links of a plan, at most 256.
pub type Links = Fixed<Link, 256>;

/// The steps and links of a plan. The order lies in a keeper.
#[derive(Drop)]
pub struct Plan {
    pub(super) steps: Steps,
    pub(super) links: Links,
}
