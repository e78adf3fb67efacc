// The seventeen refusals: the variants of `FormatError` (error.rs) that this library needs, each with its values, and
// those that stand for what the Rust asserts or leaves to the caller. They stand in the order in which they are given; the last
// two are a strict reading's, which has an order of its own.
#![tactic(auto)]

ghost use Rattle.std.specs.Prelude.{◌≡◌};
ghost use Rattle.error.specs.Refusals.{number_of};

#[derive(Clone, Copy, Debug, PartialEq, Eq)]
pub enum Refusal {
    // An offset size or a length size is outside 1 to 8.
    Width,
    // A page size to cut or to round by is 0.
    Page,
    // A run of pairs and a count are no list.
    NotAList,
    // A sum or a rounded-up value exceeds 2^64 - 1.
    Overflow,
    // A byte is free already, or in two lists.
    SharedAddress,
    // A length is no multiple of its unit.
    PartUnit,
    // A freed byte lies in a page that is not marked with the kind.
    OtherKind,
    // Fewer bytes than the fixed part needs.
    Short { expected: u64, available: u64 },
    // The version byte of the File Space Info message is not 1.
    MessageVersion(u8),
    // The strategy byte of the message is above 3.
    Strategy(u8),
    // A free-space manager's blocks are malformed.
    InvalidManager,
    Checksum { stored: u32, computed: u32 },
    // An address to be written does not fit the offset size.
    WideAddress,
    // Message, blocks or free regions of a save are out of place.
    Place,
    // The lent memory holds fewer than the result has.
    OverCapacity { needed: u64, given: u64 },
    // The version byte of a manager's block is not 0, or the client byte of its header is not 1.
    VersionOrClient(u8),
    // A section list names another header than the one that names it.
    BackAddress,
}

impl Refusal {
    // The refusal's number, 1 to 17.
    pub fn number(self) -> u8
        ensures { result ≡ number_of self }
    {
        match self {
            Refusal::Width => 1,
            Refusal::Page => 2,
            Refusal::NotAList => 3,
            Refusal::Overflow => 4,
            Refusal::SharedAddress => 5,
            Refusal::PartUnit => 6,
            Refusal::OtherKind => 15,
            Refusal::Short {
                expected: _,
                available: _,
            } => 7,
            Refusal::MessageVersion(_) => 8,
            Refusal::Strategy(_) => 9,
            Refusal::InvalidManager => 10,
            Refusal::Checksum {
                stored: _,
                computed: _,
            } => 11,
            Refusal::WideAddress => 12,
            Refusal::Place => 13,
            Refusal::OverCapacity {
                needed: _,
                given: _,
            } => 14,
            Refusal::VersionOrClient(_) => 16,
            Refusal::BackAddress => 17,
        }
    }
}
