//! What a rebalance aims at.

/// The hash that a rebalance leads to.
#[derive(Clone, Copy, Debug, PartialEq, Eq)]
pub enum Aim {
    /// The one that is created for the live nodes.
    Create,
    /// The one that balances the primaries over the live nodes and moves as few as it can.
    Least,
}
