// Why a call is refused. Whoever holds the answer in bytes, as a host in C or a script, is given the refusal's number.
#![tactic(auto)]

ghost use Rattle.std.specs.Prelude.{◌≡◌};
ghost use Rattle.refusal.specs.Numbers.{number_of, number_in};

#[derive(Clone, Copy, PartialEq, Eq, Debug)]
pub enum Refusal {
    // A clock not finite, negative or above 1,000,000,000.
    Clock,
    // A level not finite or outside -200 to 200.
    Level,
    // Words malformed.
    Words,
    // An output too small.
    SmallOut,
    // A setting outside its span.
    Setting,
    // A cell number not below the count.
    CellNumber,
    // A lent memory too small.
    SmallMemory,
    // A slot above 61.
    Slot,
    // A closing count above 15.
    Closing,
    // No member in the slot.
    NoMember,
    // No landed message in the cell.
    NotLanded,
    // The net is full and the call unknown.
    Full,
    // Bytes kept for the boat and new ones above 2,048.
    NoSpace,
    // The total posted to the boat would pass 16,777,215.
    Total,
    // A figure above 1,000,000,000, or not 62 of them.
    Figures,
    // A fault in the marks of a log.
    Marks,
    // The sending end holds eight messages.
    Eight,
    // A message above 2,046 bytes.
    Long,
}

impl From<Refusal> for u8 {
    ghost from_gives = { λ r n. n ≡ number_of r };

    fn from(r: Refusal) -> u8 {
        match r {
            Refusal::Clock => 1,
            Refusal::Level => 2,
            Refusal::Words => 3,
            Refusal::SmallOut => 4,
            Refusal::Setting => 5,
            Refusal::CellNumber => 6,
            Refusal::SmallMemory => 7,
            Refusal::Slot => 8,
            Refusal::Closing => 9,
            Refusal::NoMember => 21,
            Refusal::NotLanded => 22,
            Refusal::Full => 23,
            Refusal::NoSpace => 24,
            Refusal::Total => 25,
            Refusal::Figures => 26,
            Refusal::Marks => 27,
            Refusal::Eight => 28,
            Refusal::Long => 29,
        }
    }
}

// The number of an answer's refusal, 0 for none.
pub fn number_in<T>(answer: &Result<T, Refusal>) -> u8
    ensures { result ≡ number_in answer.now }
{
    match answer {
        Ok(_) => 0,
        Err(r) => u8::from(*r),
    }
}
