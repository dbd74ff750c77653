//! MODE SENSE: every form, DBD, page control and page, with allocation lengths 0, 4 and all.

use ct_cdb::{Form, ModePage, PageControl};
use ct_pages::{ModePages, lengths, sense_mode};
use ct_word::{NoMemory, Reserve};
use std::alloc::Global;
use std::process::Abort;

/// The current values, all of which differ from the default ones.
fn changed() -> ModePages {
    ModePages {
        descriptor: true,
        free_order: true,
        protect: true,
        tas: true,
        cache: false,
    }
}

/// Both pages under a page control.
fn pages(control: PageControl) -> &'static [u8; 32] {
    match control {
        PageControl::Current => {
            b"\x08\x12\0\0\0\0\0\0\0\0\0\0\0\0\0\0\0\0\0\0\x0a\x0a\x04\x10\x08\x40\0\0\0\0\0\0"
        }
        PageControl::Changeable => {
            b"\x08\x12\x04\0\0\0\0\0\0\0\0\0\0\0\0\0\0\0\0\0\x0a\x0a\x04\x10\x08\x40\0\0\0\0\0\0"
        }
        PageControl::Default | PageControl::Saved => {
            b"\x08\x12\x04\0\0\0\0\0\0\0\0\0\0\0\0\0\0\0\0\0\x0a\x0a\0\0\0\0\0\0\0\0\0\0"
        }
    }
}

/// Those of them that are asked for.
fn asked(control: PageControl, page: ModePage) -> &'static [u8] {
    let both = pages(control);
    match page {
        ModePage::Caching => &both[..20],
        ModePage::Control => &both[20..],
        ModePage::All | ModePage::AllAndSubpages => both,
    }
}

/// Header and descriptor of a unit of 65,536 blocks.
fn front(form: Form, no_descriptor: bool, page: ModePage) -> &'static [u8] {
    match (form, no_descriptor, page) {
        (Form::Six, false, ModePage::Caching) => b"\x1f\0\x90\x08\0\x01\0\0\0\0\x02\0",
        (Form::Six, false, ModePage::Control) => b"\x17\0\x90\x08\0\x01\0\0\0\0\x02\0",
        (Form::Six, false, _) => b"\x2b\0\x90\x08\0\x01\0\0\0\0\x02\0",
        (Form::Six, true, ModePage::Caching) => b"\x17\0\x90\0",
        (Form::Six, true, ModePage::Control) => b"\x0f\0\x90\0",
        (Form::Six, true, _) => b"\x23\0\x90\0",
        (_, false, ModePage::Caching) => b"\0\x22\0\x90\0\0\0\x08\0\x01\0\0\0\0\x02\0",
        (_, false, ModePage::Control) => b"\0\x1a\0\x90\0\0\0\x08\0\x01\0\0\0\0\x02\0",
        (_, false, _) => b"\0\x2e\0\x90\0\0\0\x08\0\x01\0\0\0\0\x02\0",
        (_, true, ModePage::Caching) => b"\0\x1a\0\x90\0\0\0\0",
        (_, true, ModePage::Control) => b"\0\x12\0\x90\0\0\0\0",
        (_, true, _) => b"\0\x26\0\x90\0\0\0\0",
    }
}

// What is returned with all of the data asked for, and with 4 bytes of it and none.
#[tactic(auto, using(ct_pages::proofs::Sizes::most_bytes))]
fn returns(
    rt: &impl Abort,
    alloc: Global,
    form: Form,
    no_descriptor: bool,
    control: PageControl,
    page: ModePage,
) -> Result<(), NoMemory> {
    let (front, asked) = (front(form, no_descriptor, page), asked(control, page));
    let current = changed();
    for allocation in [0, 4, 255] {
        let mut data = Reserve::open(alloc, 48)?;
        sense_mode(
            &current,
            65_536,
            form,
            no_descriptor,
            control,
            page,
            allocation,
            &mut data,
        );
        let wanted = front.iter().chain(asked).take(usize::from(allocation));
        assert!(rt;
            data.as_slice().iter().eq(wanted),
            "at {form:?} {control:?} {page:?}"
        );
    }
    Ok(())
}

#[test]
fn all_pages_are_told(rt: HostRuntime) -> Result<(), NoMemory> {
    let alloc = rt.alloc();
    let controls = [
        PageControl::Current,
        PageControl::Changeable,
        PageControl::Default,
    ];
    let pages = [
        ModePage::Caching,
        ModePage::Control,
        ModePage::All,
        ModePage::AllAndSubpages,
    ];
    for form in [Form::Six, Form::Ten] {
        for no_descriptor in [false, true] {
            for control in controls {
                for page in pages {
                    returns(&rt, alloc, form, no_descriptor, control, page)?;
                }
            }
        }
    }
    lengths();
    Ok(())
}
