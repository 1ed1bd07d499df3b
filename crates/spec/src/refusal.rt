// Why a call is refused: the conditions of document 01 and document 02, each with its number.
ghost use Rattle.std.specs.Prelude.{◌≡◌};
ghost use Rattle.spec.specs.Refusals.{number, outcome};

use std::error::Error;
use std::fmt;

// In the order of their numbers, from 1 on.
#[derive(Clone, Copy, Debug, PartialEq, Eq)]
pub enum Refusal {
    TooLong = 1,
    ZeroWidth,
    TooFar,
    TooHeavy,
    BadSides,
    OtherPixels,
    OtherOutput,
    TooFewCells,
    BadState,
    NotDue,
    TooBright,
    ParityDiffers,
    ProductTooHeavy,
    BadFile,
    Outside,
    BadLevel,
}

impl Refusal {
    // Its number in the papers.
    pub fn number(self) -> u8
        ensures { result ≡ number self }
    {
        self as u8
    }
}

impl fmt::Display for Refusal {
    fn fmt<W: fmt::Write>(&self, f: &mut fmt::Formatter<W>) -> fmt::Result {
        f.write_str(match self {
            Refusal::TooLong => "a list is longer than 48 widths",
            Refusal::ZeroWidth => "a width is 0",
            Refusal::TooFar => "a reach is above 255",
            Refusal::TooHeavy => "the weight is above 2^44",
            Refusal::BadSides => "a side of the picture is 0 or above 1024",
            Refusal::OtherPixels => "the pixels are not as many as the row or the picture has",
            Refusal::OtherOutput => "an output has another length than the call asks for",
            Refusal::TooFewCells => "there are fewer work cells than the call needs",
            Refusal::BadState => {
                "not a state: its recipe or sides would be refused, or more rows are yielded than there are"
            }
            Refusal::NotDue => {
                "a row when all are in, a drain before that, or a drain when all rows are out"
            }
            Refusal::TooBright => "a sum is above 255 times the weight",
            Refusal::ParityDiffers => "the reaches of the two recipes differ in parity on an axis",
            Refusal::ProductTooHeavy => "the product of the two weights is above 2^44",
            Refusal::BadFile => "the mark, the version or the length of the job is wrong",
            Refusal::Outside => "the place is outside the picture",
            Refusal::BadLevel => "the level is outside 1 to 8",
        })
    }
}

impl Error for Refusal {}

// The number of a call's answer, 0 where it is accepted.
pub fn outcome(answer: Result<(), Refusal>) -> u8
    ensures { result ≡ outcome answer }
{
    match answer {
        Ok(()) => 0,
        Err(refusal) => refusal.number(),
    }
}
