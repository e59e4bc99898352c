//! The three guarantees of a call.

ghost use Rattle.std.specs.Prelude.{◌≡◌};
ghost use Rattle.delivery_mode.specs.Guarantee.{keeps_lost, asks_again};

/// What a call promises of each entry that the cluster holds throughout the call. The names follow
/// Infinispan's `DeliveryGuarantee`.
#[derive(Clone, Copy, Debug, PartialEq, Eq)]
pub enum Guarantee {
    /// The entry is processed once.
    Exact,
    /// The entry is processed, and again where its segment was lost while it was being read.
    AtLeast,
    /// The entry is processed once or, where its segment was lost while it was being read, not at
    /// all.
    AtMost,
}

impl Guarantee {
    /// Whether the entries count that a unit read before it was lost: they do for `AtLeast` and
    /// `AtMost`. For `Exact` they are left out, since the segment is read anew.
    pub fn keeps_lost(self) -> bool
        ensures { result ≡ keeps_lost self }
    {
        match self {
            Guarantee::Exact => false,
            Guarantee::AtLeast => true,
            Guarantee::AtMost => true,
        }
    }

    /// Whether segments that were lost are asked for again: they are for `Exact` and `AtLeast`.
    /// `AtMost` asks once.
    pub fn asks_again(self) -> bool
        ensures { result ≡ asks_again self }
    {
        match self {
            Guarantee::Exact => true,
            Guarantee::AtLeast => true,
            Guarantee::AtMost => false,
        }
    }
}
