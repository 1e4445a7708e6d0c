//! What tokens are asked.

/// What a token is asked.
#[derive(Clone, Copy)]
pub enum Ask {
    /// To register a number of members at a tier.
    Register(u16, u32),
    /// To register a member beside the crew of the first token.
    Beside,
    /// To go on with a registration.
    Open,
    /// To let a member arrive.
    Arrive,
    /// To let a member leave.
    Leave,
    /// To go on with an arrival or a departure.
    Resume,
    /// To see whether its phase has passed.
    Poll,
    /// To end the tree.
    Force,
}
