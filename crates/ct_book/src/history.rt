ghost use Rattle.std.specs.Prelude.{◌≡◌, ◌≤◌, ◌<◌, ◌++◌, [], length, take, slice_get, IfOk};
ghost use Rattle.std.specs.List.{cons_option};
ghost use Rattle.ct_book.specs.Journals.{numbered};
ghost use Rattle.ct_book.specs.Histories.{history_of, entries_at, set_by, others_of, cut_by, with_other, with_cut};
ghost use Rattle.ct_book.specs.Kept.{IsSound, logged_in};

use crate::book::Book;
use crate::event::{Entry, Event, Why};
use crate::work::Work;
use ct_tmf::Function;
use ct_word::{CmdNo, Nexus, NexusSet, NoMemory};
use std::alloc::Global;

impl Book {
    /// How the works were done, in the order in which they were: an entry for each event that ended, cut or refused
    /// a command, or answered a function.
    pub fn history(&self, alloc: Global) -> Result<Vec<Entry>, NoMemory>
        ensures { IfOk result (λ entries. entries.items ≡ history_of self.now.journal) }
    {
        let mut entries = Vec::new(alloc);
        for place in 0..self.len() {
            let entry = self.entry(place, self.event(place));
            put(&mut entries, entry)?;
        }
        Ok(entries)
    }

    // The entry of an event, if it is one by which a work is done.
    fn entry(&self, place: u32, event: &Event) -> Option<Entry>
        requires sound { IsSound self.now }
        requires stands { slice_get self.now.journal place ≡ Some (logged_in self.now event.now) }
        ensures { cons_option result [] ≡ entries_at (take place self.now.journal) event.now }
    {
        match *event {
            Event::Ended { no } => Some(Entry::Ran(no)),
            Event::Cut { no, puts, why, .. } => Some(Entry::Cut(no, puts, why)),
            Event::Turned { no } => Some(Entry::Turned(no)),
            Event::Closed { no, .. } => Some(Entry::Func(no, self.set_by(no, place))),
            _ => None,
        }
    }

    // The set of a function's entry, of what it cut before an event.
    fn set_by(&self, no: CmdNo, before: u32) -> NexusSet
        requires { before ≤ length self.now.journal }
        ensures { result ≡ set_by (numbered no self.now.works) self.now.works (cut_by no (take before self.now.journal)) }
    {
        match self.work(no) {
            Some(Work::Ask(ask)) => match ask.function {
                Function::ClearTaskSet => self.others(ask.nexus, no, before),
                _ => NexusSet::open(),
            },
            _ => NexusSet::open(),
        }
    }

    // The nexuses, but the asker's, of which a work cut commands before an event.
    fn others(&self, asker: Nexus, by: CmdNo, before: u32) -> NexusSet
        requires { before ≤ length self.now.journal }
        ensures { result ≡ others_of asker self.now.works (cut_by by (take before self.now.journal)) }
    {
        let mut set = NexusSet::open();
        let mut place = before;
        while place > 0 {
            place -= 1;
            self.add_cut(asker, by, self.event(place), &mut set);
        }
        set
    }

    // Adds the nexus of what a work cut by an event, if it cut one of another than the asker's.
    fn add_cut(&self, asker: Nexus, by: CmdNo, event: &Event, set: &mut NexusSet)
        ensures { set.new ≡ with_cut by asker self.now.works event.now set.old }
    {
        if let Event::Cut {
            no,
            why: Why::By(cutter),
            ..
        } = *event
        {
            if cutter.number() == by.number() {
                self.add_other(asker, no, set);
            }
        }
    }

    fn add_other(&self, asker: Nexus, no: CmdNo, set: &mut NexusSet)
        ensures { set.new ≡ with_other asker (numbered no self.now.works) set.old }
    {
        if let Some(Work::Cmd(command)) = self.work(no) {
            if !command.nexus.is_same(asker) {
                set.add(command.nexus);
            }
        }
    }
}

// Puts an entry last, if there is one. The check makes a push of entries only where it sees a `Why`.
fn put(entries: &mut Vec<Entry>, entry: Option<Entry>) -> Result<(), NoMemory>
    ensures { IfOk result (λ _. entries.new.items ≡ entries.old.items ++ cons_option entry []) }
{
    let _why = Why::Medium;
    if let Some(entry) = entry {
        entries.push(entry)?;
    }
    Ok(())
}
