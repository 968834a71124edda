// The sixteen refusals: why a call gives no result, and the row of the tree that it names.
#![tactic(auto)]

ghost use Rattle.std.specs.Prelude.{◌≡◌, ◌≤◌};
ghost use Rattle.refusals.specs.Refusals.{refusal_number};

// Why, in the order of the numbers that callers in other languages are told.
#[derive(Clone, Copy, PartialEq, Eq, Debug)]
pub enum Reason {
    // 1: the mode is neither text nor math
    NoMode,
    // 2: the rule file breaks its layout
    BadRules,
    // 3: the tree file breaks its layout or is over a limit
    BadLayout,
    // 4: the tree is nested too deep
    TooDeep,
    // 5: an element lacks a part that its kind needs
    BadShape,
    // 6: what is named is not there, or the kept text and ledger do not fit the document
    NoFit,
    // 7: an element stands where it cannot be converted
    Misplaced,
    // 8: the two ends of a formula do not match
    UnlikeEnds,
    // 9: a command is not in the rules
    NoCommand,
    // 10: an environment is not in the rules
    NoEnvironment,
    // 11: `\item` stands outside of a list
    NoList,
    // 12: an argument is missing
    NoArgument,
    // 13: a column letter is not l, c, r or |
    BadColumn,
    // 14: a label is too long to be held
    LongLabel,
    // 15: a buffer is too short
    TooShort,
    // 16: a step of the writer is out of place
    OutOfPlace,
}

// Why a call was refused, and at which row; 0 where it names none.
#[derive(Clone, Copy, PartialEq, Eq, Debug)]
pub struct Refusal {
    pub reason: Reason,
    pub row: usize,
}

impl From<Reason> for u8 {
    ghost from_gives = { λ reason number. number ≡ refusal_number reason };

    fn from(reason: Reason) -> u8 {
        match reason {
            Reason::NoMode => 1,
            Reason::BadRules => 2,
            Reason::BadLayout => 3,
            Reason::TooDeep => 4,
            Reason::BadShape => 5,
            Reason::NoFit => 6,
            Reason::Misplaced => 7,
            Reason::UnlikeEnds => 8,
            Reason::NoCommand => 9,
            Reason::NoEnvironment => 10,
            Reason::NoList => 11,
            Reason::NoArgument => 12,
            Reason::BadColumn => 13,
            Reason::LongLabel => 14,
            Reason::TooShort => 15,
            Reason::OutOfPlace => 16,
        }
    }
}

// The refusal for a reason that names no row.
pub fn no_row(reason: Reason) -> Refusal
    ensures { result ≡ record { reason = reason; row = 0 } }
{
    Refusal { reason, row: 0 }
}
