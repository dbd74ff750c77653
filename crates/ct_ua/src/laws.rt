//! Laws of the definitions of this crate, each the contract of a function with an empty body.

ghost use Rattle.std.specs.Prelude.{◌≡◌, ◌<◌, List, Bool, length, false, true, IfSome, IfNone};
ghost use Rattle.ct_word.specs.Nexuses.{IsNexus, place_of, is_same_nexus, contains};
ghost use Rattle.ct_word.specs.declared.names.Nexus.{Nexus};
ghost use Rattle.ct_word.specs.declared.names.Code.{Code};
ghost use Rattle.ct_ua.specs.declared.code_set.CodeSet.{CodeSet as AnySet};
ghost use Rattle.ct_ua.specs.CodeSets.{told_in_order, has_code, no_codes, first_of, IsFirst};
ghost use Rattle.ct_ua.specs.Attentions.{codes_of, first_code, after_take, after_raise, after_raise_for, after_raise_for_others};

/// The code that is told first is in the set, and none that stands before it in the order; only the empty set has none.
pub fn first_of_several()
    ensures { (set : AnySet) →
        IfSome (first_of set) (λ first. IsFirst told_in_order set first) × IfNone (first_of set) (set ≡ no_codes) }
{}

/// Taking for one nexus leaves what another has, and the order of takes for two nexuses doesn't matter.
pub fn taken_apart()
    ensures leaves { (attentions : List AnySet) (a b : Nexus) → IsNexus a → IsNexus b → is_same_nexus b a ≡ false →
        codes_of (after_take attentions a) b ≡ codes_of attentions b }
    ensures commute { (attentions : List AnySet) (a b : Nexus) → IsNexus a → IsNexus b → is_same_nexus b a ≡ false →
        after_take (after_take attentions a) b ≡ after_take (after_take attentions b) a }
    ensures nothing { (attentions : List AnySet) (a : Nexus) →
        first_code attentions a ≡ None → after_take attentions a ≡ attentions }
{}

/// A nexus that had none is told of the code that is raised for it. A code that stands is raised without a change. What
/// is raised for the others leaves one's own, and what is raised for a set leaves what a nexus beside it has.
pub fn raised_once()
    ensures first { (attentions : List AnySet) (a : Nexus) (code : Code) → place_of a < length attentions →
        first_code attentions a ≡ None → first_code (after_raise attentions a code) a ≡ Some code }
    ensures again { (attentions : List AnySet) (a : Nexus) (code : Code) →
        has_code (codes_of attentions a) code ≡ true → after_raise attentions a code ≡ attentions }
    ensures spares { (attentions : List AnySet) (a : Nexus) (code : Code) →
        codes_of (after_raise_for_others attentions a code) a ≡ codes_of attentions a }
    ensures beside { (attentions : List AnySet) (set : List Bool) (a : Nexus) (code : Code) → contains set a ≡ false →
        codes_of (after_raise_for attentions set code) a ≡ codes_of attentions a }
{}
