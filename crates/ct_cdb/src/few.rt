ghost use Rattle.std.specs.Prelude.{◌≡◌, ◌≤◌, [], ◌∷◌, length, slice_get};
ghost use Rattle.std.specs.Option.{option_copied};

use std::marker::Model;

/// At most two items, in order. Contracts see a list.
#[derive(Debug, Drop)]
pub struct Few<T> {
    first: Option<T>,
    second: Option<T>,
}

impl<T> Model for Few<T> {
    ghost use Rattle.std.specs.Prelude.{List};
    ghost use Rattle.std.specs.Coded.{coded_list};
    ghost use Rattle.ct_cdb.specs.Few.{few_items};

    ghost Value = { List T };

    ghost coded = { coded_list T.code };

    ghost view = { λ f. few_items f.first f.second };
}

impl<T> Few<T> {
    ghost use Rattle.ct_cdb.specs.Few.{few_items};

    pub fn none() -> Few<T>
        ensures { result ≡ [] }
    {
        Few {
            first: None,
            second: None,
        }
    }

    pub fn one(item: T) -> Few<T>
        ensures { result ≡ item ∷ [] }
    {
        Few {
            first: Some(item),
            second: None,
        }
    }

    pub fn two(first: T, second: T) -> Few<T>
        ensures { result ≡ first ∷ second ∷ [] }
    {
        Few {
            first: Some(first),
            second: Some(second),
        }
    }

    /// The first item and the second, as far as there are any.
    pub fn items(&self) -> (Option<&T>, Option<&T>)
        ensures { few_items (option_copied result.0) (option_copied result.1) ≡ self.now }
    {
        (self.first.as_ref(), self.second.as_ref())
    }

    pub fn len(&self) -> usize
        ensures len { result ≡ length self.now }
        ensures few { result ≤ 2 }
    {
        match (&self.first, &self.second) {
            (None, _) => 0,
            (Some(_), None) => 1,
            (Some(_), Some(_)) => 2,
        }
    }
}

impl<T: Copy> Few<T> {
    /// An item by its place, from 0.
    pub fn get(&self, at: usize) -> Option<T>
        ensures { result ≡ slice_get self.now at }
    {
        match at {
            0 => self.first,
            1 if self.first.is_some() => self.second,
            _ => None,
        }
    }
}

#[cfg(test)]
mod tests {
    use super::*;

    #[test]
    fn holds_up_to_two(rt: HostRuntime) {
        let none: Few<u8> = Few::none();
        let (one, two) = (Few::one(7), Few::two(7, 8));
        assert_eq!(rt; none.items(), (None, None));
        assert_eq!(rt; one.items(), (Some(&7), None));
        assert_eq!(rt; two.items(), (Some(&7), Some(&8)));
        assert_eq!(rt; (none.len(), one.len(), two.len()), (0, 1, 2));
        assert_eq!(rt; [none.get(0), none.get(1), none.get(2)], [None; 3]);
        assert_eq!(rt; [one.get(0), one.get(1), one.get(2)], [Some(7), None, None]);
        assert_eq!(rt;
            [two.get(0), two.get(1), two.get(2)],
            [Some(7), Some(8), None]
        );
    }
}
