ghost use Rattle.std.specs.Prelude.{◌≡◌, length};
ghost use Rattle.ct_ua.specs.Attentions.{no_attentions, power_on_attentions, codes_of, with_codes, first_code};
ghost use Rattle.ct_ua.specs.Attentions.{after_take, after_raise, after_raise_for_all, after_raise_for_others};
ghost use Rattle.ct_ua.specs.Attentions.{after_raise_for, after_clear};

use crate::code_set::CodeSet;
use ct_word::{Code, Nexus, NexusSet};
use std::marker::Model;

/// I_T nexuses that there are.
const NEXUSES: usize = 256;

/// The unit attention conditions (SAM-5, 5.14) of each of the 256 I_T nexuses, of fixed size. Contracts see a list of
/// sets, that of each nexus at its place. Where a nexus has no place among them, it has no condition and gets none.
#[derive(Debug, Drop)]
pub struct Attentions {
    sets: [CodeSet; NEXUSES],
}

impl Model for Attentions {
    ghost use Rattle.std.specs.Prelude.{◌≡◌, List, length};
    ghost use Rattle.ct_ua.specs.declared.code_set.CodeSet.{CodeSet};

    ghost Value = { List CodeSet };

    ghost view = { λ a. a.sets };

    ghost invariant = { λ a. length a.sets ≡ 256 };
}

impl Attentions {
    /// No nexus has a condition.
    #[tactic(auto, unfolding(crate::specs::Attentions::no_attentions))]
    pub fn open() -> Attentions
        ensures { result ≡ no_attentions }
    {
        Attentions {
            sets: [CodeSet::none(); NEXUSES],
        }
    }

    /// Every nexus has 29h/01h, power on, alone.
    #[tactic(auto, unfolding(crate::specs::Attentions::power_on_attentions))]
    pub fn at_power_on() -> Attentions
        ensures { result ≡ power_on_attentions }
    {
        Attentions {
            sets: [CodeSet::none().with(Code::PowerOn); NEXUSES],
        }
    }

    /// The code that a nexus is told first, which it keeps. None exactly where it has none.
    #[tactic(auto, unfolding(crate::specs::Attentions::first_code))]
    pub fn first(&self, n: Nexus) -> Option<Code>
        ensures { result ≡ first_code self.now n }
    {
        self.codes(n).first()
    }

    /// Takes the code that a nexus is told first. None exactly where it has none; then nothing changes.
    #[tactic(auto, unfolding(crate::specs::Attentions::first_code, crate::specs::Attentions::after_take))]
    pub fn take(&mut self, n: Nexus) -> Option<Code>
        ensures first { result ≡ first_code self.old n }
        ensures taken { self.new ≡ after_take self.old n }
    {
        let codes = self.codes(n);
        match codes.first() {
            Some(first) => {
                self.put(n, codes.without(first));
                Some(first)
            }
            None => None,
        }
    }

    /// Raises a code for a nexus. One that it has already stays as it is.
    #[tactic(auto, unfolding(crate::specs::Attentions::after_raise))]
    pub fn raise(&mut self, n: Nexus, c: Code)
        ensures { self.new ≡ after_raise self.old n c }
    {
        self.put(n, self.codes(n).with(c));
    }

    /// Raises a code for every nexus.
    #[tactic(auto, unfolding(crate::specs::Attentions::after_raise_for_all))]
    pub fn raise_for_all(&mut self, c: Code)
        ensures { self.new ≡ after_raise_for_all self.old c }
    {
        for place in 0..self.sets.len() {
            self.sets[place] = self.sets[place].with(c);
        }
    }

    /// Raises a code for every nexus but one.
    #[tactic(auto, unfolding(crate::specs::Attentions::after_raise_for_others))]
    pub fn raise_for_others(&mut self, n: Nexus, c: Code)
        ensures { self.new ≡ after_raise_for_others self.old n c }
    {
        let own = self.codes(n);
        self.raise_for_all(c);
        self.put(n, own);
    }

    /// Raises a code for each nexus of a set.
    #[tactic(auto, unfolding(crate::specs::Attentions::after_raise_for))]
    pub fn raise_for(&mut self, set: &NexusSet, c: Code)
        ensures { self.new ≡ after_raise_for self.old set.now c }
    {
        for place in 0..NEXUSES {
            if set.has_place(place) {
                self.sets[place] = self.sets[place].with(c);
            }
        }
    }

    /// Drops all codes of a nexus.
    #[tactic(auto, unfolding(crate::specs::Attentions::after_clear))]
    pub fn clear_nexus(&mut self, n: Nexus)
        ensures { self.new ≡ after_clear self.old n }
    {
        self.put(n, CodeSet::none());
    }

    fn codes(&self, n: Nexus) -> CodeSet
        ensures { result ≡ codes_of self.now n }
    {
        match self.sets.get(n.place()) {
            Some(codes) => *codes,
            None => CodeSet::none(),
        }
    }

    fn put(&mut self, n: Nexus, codes: CodeSet)
        ensures { self.new ≡ with_codes self.old n codes }
    {
        let place = n.place();
        if place < self.sets.len() {
            self.sets[place] = codes;
        }
    }
}
