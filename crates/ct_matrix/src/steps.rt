ghost use Rattle.std.specs.Prelude.{◌≡◌, ◌+◌};
ghost use Rattle.ct_matrix.specs.Conflicts.{demand_of};

use crate::demands::demand;
use crate::held::{Demand, Held};
use std::marker::Model;
use std::sync::ledger::{Blank, Book, Ledger, Share};

/// How many demands were made with this counter. It takes no bytes, and nothing else changes it.
#[derive(Drop)]
pub struct Steps<L: Ledger> {
    book: Book<L>,
    share: Share<L>,
}

impl<L: Ledger> Model for Steps<L> {
    ghost use Rattle.std.specs.Prelude.{ℕ, ◌<◌};

    ghost Value = { ℕ };

    ghost view = { λ s. s.book.total };

    ghost invariant = { λ s. 0 < s.share.parts };
}

impl<L: Ledger> Steps<L> {
    /// A counter for a ledger of one part.
    pub fn new(blank: Blank) -> Steps<L>
        requires name { blank.name ≡ L.name }
        requires parts { blank.parts ≡ L.parts }
        requires one { L.parts ≡ 1 }
        ensures { result ≡ 0 }
    {
        let (book, share) = blank.open::<L>();
        Steps { book, share }
    }

    fn tick(&mut self)
        ensures { self.new ≡ self.old + 1 }
    {
        self.book.add(&mut self.share, 1);
    }
}

/// What `demand` answers, which counts as one step.
pub fn demand_counted<L: Ledger>(
    a: &Held,
    b: &Held,
    ahead: bool,
    free_order: bool,
    steps: &mut Steps<L>,
) -> Demand
    ensures answer { result ≡ demand_of free_order ahead a.now b.now }
    ensures count { steps.new ≡ steps.old + 1 }
{
    steps.tick();
    demand(a, b, ahead, free_order)
}
