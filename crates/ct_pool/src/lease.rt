use std::marker::Model;

/// Some blocks of a pool, which go back to it. A lease that is not given back can't be dropped.
#[derive(Debug)]
pub struct Lease {
    pub(crate) key: usize,
    pub(crate) count: u32,
}

impl Model for Lease {
    ghost use Rattle.ct_pool.specs.Leases.{LeaseState};

    ghost Value = { LeaseState };

    ghost view = { λ l. record { key = l.key; count = l.count } };
}

impl Lease {
    ghost use Rattle.std.specs.Prelude.{◌≡◌};

    /// How many blocks it has.
    pub fn count(&self) -> u32
        ensures { result ≡ self.now.count }
    {
        self.count
    }

    /// Lets go of a lease whose pool is let go too: its blocks don't go back.
    pub fn abandon(self) {
        let Lease { key: _, count: _ } = self;
    }
}
