//! Laws of the definitions of this crate, each the contract of a function with an empty body.

ghost use Rattle.std.specs.Prelude.{◌≡◌, ◌+◌, ℕ, Bool, length, min};
ghost use Rattle.ct_cdb.specs.declared.op.Form.{Form};
ghost use Rattle.ct_cdb.specs.declared.choices.PageControl.{PageControl};
ghost use Rattle.ct_cdb.specs.declared.choices.ModePage.{ModePage};
ghost use Rattle.ct_cdb.specs.Commands.Modes.{header_length, descriptor_length, mode_length};
ghost use Rattle.ct_param.specs.ModeLists.{no_pages};
ghost use Rattle.ct_pages.specs.declared.pages.ModePages.{ModePages as AnyPages};
ghost use Rattle.ct_pages.specs.Pages.{caching_page, control_page};
ghost use Rattle.ct_pages.specs.Senses.{whole_mode_data, mode_data};
ghost use Rattle.ct_pages.specs.Selects.{selected_pages};

/// How many bytes MODE SENSE returns, before and after they are cut.
pub fn lengths()
    ensures whole { (pages : AnyPages) (blocks : ℕ) (form : Form) (no_descriptor : Bool) (control : PageControl)
        (page : ModePage) →
        length (whole_mode_data pages blocks form no_descriptor control page)
        ≡ header_length form + descriptor_length no_descriptor + mode_length page }
    ensures cut { (pages : AnyPages) (blocks : ℕ) (form : Form) (no_descriptor : Bool) (control : PageControl)
        (page : ModePage) (allocation : ℕ) →
        length (mode_data pages blocks form no_descriptor control page allocation)
        ≡ min allocation (header_length form + descriptor_length no_descriptor + mode_length page) }
{}

/// A list without a page changes nothing. Any values, as MODE SENSE would tell them, are accepted, and are the values
/// afterwards.
pub fn selects()
    ensures nothing { (pages : AnyPages) → selected_pages pages no_pages ≡ Ok pages }
    ensures told { (pages new : AnyPages) →
        selected_pages pages (record { caching = Some (caching_page new); control = Some (control_page new) })
        ≡ Ok new }
{}
