/// A causal link from an add of the producer to a need of the consumer, each by its label.
#[derive(Clone, Copy, PartialEq, Eq, Debug, Default)]
pub struct Link {
    pub producer: u8,
    pub add: u8,
    pub consumer: u8,
    pub need: u8,
}
