//! Why a call of the memory is refused.
ghost use Rattle.std.specs.Prelude.{◌≡◌};
ghost use Rattle.state.specs.Refusals.{refusal_number};

#[derive(Clone, Copy, PartialEq, Eq, Debug)]
pub enum Refusal {
    /// the post is smaller than the plan, or at the making a mark waits in it
    PostUnfit,
    /// no such message: its sender, its letter, their pairing or an unused field
    Malformed,
    /// no such register
    NoRegister,
    /// no such area, or not a lowest one
    NotLowest,
    /// a block of more than eight words
    TooLarge,
    /// the register holds no pointer
    NoPointer,
    /// the block has no such word
    NoWord,
    /// the area has no free slot
    NoSlot,
    /// the block has 255 holds
    TooManyHolds,
    /// the block that is given back has no hold here
    NoHold,
}

impl Refusal {
    /// The refusal's number, which the product prescribes.
    pub fn number(self) -> u8
        ensures { result ≡ refusal_number self }
    {
        match self {
            Refusal::PostUnfit => 5,
            Refusal::Malformed => 6,
            Refusal::NoRegister => 7,
            Refusal::NotLowest => 8,
            Refusal::TooLarge => 9,
            Refusal::NoPointer => 10,
            Refusal::NoWord => 11,
            Refusal::NoSlot => 12,
            Refusal::TooManyHolds => 13,
            Refusal::NoHold => 14,
        }
    }
}
