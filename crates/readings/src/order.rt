// Which of two readings stands.
ghost use Rattle.std.specs.Prelude.{Decides};
ghost use Rattle.readings.specs.Order.{Ahead, TotalOrder};

use crate::reading::Reading;
use std::cmp::Reverse;

impl Reading {
    // Whether this reading stands before the other: it has the later stamp; at equal stamps the larger volume; at equal volumes the
    // lower quality number.
    #[tactic(auto, using(crate::proofs::Orders::total_order))]
    pub fn is_ahead_of(self, other: Reading) -> bool
        ensures value { Decides result (Ahead self other) }
        ensures order { TotalOrder }
    {
        // by number: with the derived order of the 35 qualities themselves the proof does not close
        let mine = (self.stamp, self.volume, Reverse(self.quality.number()));
        let others = (other.stamp, other.volume, Reverse(other.quality.number()));
        mine > others
    }
}
