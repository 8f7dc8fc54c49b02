// A change of one factor or one shape.
ghost use Rattle.market.specs.Lowest.{Lowest, turned_down};
ghost use Rattle.rules.specs.Places.{RevisedAbove, GivenAbove};

use market::refusal::Refusal;

// The largest line loss factor, in thousandths.
pub const LARGEST_FACTOR: u16 = 9_999;

// The largest load shape, in Wh.
pub const LARGEST_SHAPE: u32 = 1_000_000_000;

// A loss class with its new factor, or a shape class with its new shape: any numbers.
#[derive(Clone, Copy)]
pub enum Revision {
    Factor { class: u8, factor: u16 },
    Shape { class: u8, shape: u32 },
}

impl Revision {
    // The fault of what is given: it is above its limit.
    pub(crate) fn check(self) -> Result<(), Refusal>
        ensures { Lowest (GivenAbove self) (turned_down result) }
    {
        let above = match self {
            Revision::Factor { factor, .. } => factor > LARGEST_FACTOR,
            Revision::Shape { shape, .. } => shape > LARGEST_SHAPE,
        };
        if above {
            Err(Refusal::AboveLimit)
        } else {
            Ok(())
        }
    }
}
