//! Laws of the definitions of this crate, each the contract of a function with an empty body.

ghost use Rattle.std.specs.Prelude.{◌≡◌, ◌↔◌, List, true};
ghost use Rattle.ct_param.specs.declared.unmap.UnmapDescriptor.{UnmapDescriptor as AnyDescriptor};
ghost use Rattle.ct_param.specs.UnmapLists.{are_apart, ShareNoBlock};

/// The descriptors of a list are apart exactly where no block is among those of two.
pub fn apart()
    ensures { (list : List AnyDescriptor) → (are_apart list ≡ true) ↔ ShareNoBlock list }
{}
