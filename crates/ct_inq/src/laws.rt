//! Laws of the definitions of this crate, each the contract of a function with an empty body.

ghost use Rattle.std.specs.Prelude.{◌≡◌, ◌≤◌, ◌+◌, ◌*◌, ℕ, length, min};
ghost use Rattle.ct_cdb.specs.declared.choices.InquiryPage.{InquiryPage as AnyPage};
ghost use Rattle.ct_cdb.specs.declared.choices.LunSelection.{LunSelection as AnySelection};
ghost use Rattle.ct_cdb.specs.declared.choices.LunSelection.TheVariants.{WellKnown};
ghost use Rattle.ct_cdb.specs.Commands.Inquiries.{page_length, luns_length};
ghost use Rattle.ct_inq.specs.Inquiries.{data_of_page, inquiry_data};
ghost use Rattle.ct_inq.specs.Capacities.{capacity_10_data, capacity_16_data};
ghost use Rattle.ct_inq.specs.Luns.{listed, luns_data};

/// How many bytes the data of each command have, before and after they are cut.
pub fn lengths()
    ensures page { (page : AnyPage) (lun : ℕ) → length (data_of_page page lun) ≡ page_length page }
    ensures inquiry { (page : AnyPage) (allocation lun : ℕ) →
        length (inquiry_data page allocation lun) ≡ min allocation (page_length page) }
    ensures capacity_10 { (blocks : ℕ) → length (capacity_10_data blocks) ≡ 8 }
    ensures capacity_16 { (blocks allocation : ℕ) →
        length (capacity_16_data blocks allocation) ≡ min allocation 32 }
    ensures luns { (select : AnySelection) (allocation visible : ℕ) →
        length (luns_data select allocation visible) ≡ min allocation (8 + 8 * length (listed select visible)) }
    ensures luns_most { (select : AnySelection) (allocation visible : ℕ) →
        length (luns_data select allocation visible) ≤ min allocation (luns_length select) }
    ensures well_known { (allocation visible : ℕ) →
        length (luns_data WellKnown allocation visible) ≡ min allocation 8 }
{}
