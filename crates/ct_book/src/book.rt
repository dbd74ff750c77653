ghost use Rattle.std.specs.Prelude.{◌≡◌, ◌+◌, ◌-◌, ◌<◌, ◌≤◌, ◌^◌, ◌++◌, ◌∷◌, [], length, slice_get, slice_set, true, false, is_some, IfOk, IfSome, IsSomeAnd, if◌then◌else◌};
ghost use Rattle.std.specs.Option.{option_copied};
ghost use Rattle.ct_book.specs.Journals.{numbered, has_room, with_work, with_event, with_reply, without_body, reply_of, is_command, line_of};
ghost use Rattle.ct_book.specs.Kept.{empty_book, events_for, IsBodyOf, IsKept, IsCommandNo, CanBePushed, HasNexus, IsFresh, IsSound, logged_in};

use crate::event::{Event, Why};
use crate::work::{Cmd, Command, Work};
use ct_sense::Reply;
use ct_word::{CmdNo, NoMemory, Node, Reserve, Room};
use std::alloc::Global;
use std::marker::Model;

/// The works of a logical unit by number, what happened to them, and how they were answered, in reserved room.
#[derive(Debug, Drop)]
pub struct Book {
    events: Reserve<Event>,
    works: Reserve<Work<Command>>,
    bodies: Reserve<Option<Reserve<u8>>>,
    replies: Reserve<Option<Reply>>,
    /// How many commands, functions and block operations can still come.
    commands: u32,
    functions: u32,
    pieces: u32,
}

impl Model for Book {
    ghost use Rattle.std.specs.Prelude.{map, is_some};
    ghost use Rattle.ct_book.specs.Journals.{BookState};
    ghost use Rattle.ct_book.specs.Kept.{logged_all, IsBook};

    ghost Value = { BookState };

    ghost view = { λ b. record {
      journal = logged_all b.works.items b.replies.items b.events.items;
      works = b.works.items;
      replies = b.replies.items;
      untaken = map is_some b.bodies.items;
      commands = b.commands;
      functions = b.functions;
      pieces = b.pieces;
      spare = b.events.room;
    } };

    ghost invariant = { λ b. IsBook b.events b.works b.bodies b.replies b.commands b.functions };
}

impl Book {
    /// An empty book, with places for the works of a room, their replies and their events.
    pub fn open(alloc: Global, room: Room) -> Result<Book, NoMemory>
        requires { events_for room < 2 ^ 32 }
        ensures { IfOk result (λ b. b ≡ empty_book room) }
    {
        let commands = room.commands as usize;
        let functions = room.functions as usize;
        let works = commands + functions;
        let events = room.pieces as usize + 10 * commands + 12 * functions;
        Ok(Book {
            events: Reserve::open(alloc, events)?,
            works: Reserve::open(alloc, works)?,
            bodies: Reserve::open(alloc, works)?,
            replies: Reserve::open(alloc, works)?,
            commands: room.commands,
            functions: room.functions,
            pieces: room.pieces,
        })
    }

    /// Whether there is room for one more work, and for so many block operations.
    pub fn room_for(&self, work: &Work<Cmd>, pieces: u32) -> bool
        ensures { result ≡ has_room self.now work.now pieces }
    {
        let left = match work {
            Work::Cmd(_) => self.commands,
            Work::Ask(_) => self.functions,
        };
        0 < left && pieces <= self.pieces
    }

    /// Gives a work the next number, and writes that it came. The work is handed back where there is no room for it.
    pub fn add(&mut self, node: Node, work: Work<Cmd>, pieces: u32) -> Result<CmdNo, Work<Cmd>>
        requires { has_room self.old work pieces ≡ true → 0 < self.old.spare }
        ensures answer { result ≡ (if has_room self.old work pieces then Ok (length self.old.works + 1) else Err work) }
        ensures after { self.new ≡ (if has_room self.old work pieces then with_work self.old node work pieces else self.old) }
        ensures fresh { IfOk result (λ no. IsFresh self.new no work) }
    {
        if !self.room_for(&work, pieces) {
            return Err(work);
        }
        Ok(self.take_in(node, work, pieces))
    }

    // Adds a work for which there is room.
    fn take_in(&mut self, node: Node, work: Work<Cmd>, pieces: u32) -> CmdNo
        requires room { has_room self.old work pieces ≡ true }
        requires spare { 0 < self.old.spare }
        ensures answer { result ≡ length self.old.works + 1 }
        ensures after { self.new ≡ with_work self.old node work pieces }
        ensures fresh { IsFresh self.new result work }
    {
        let no = CmdNo::new(self.works.len() as u32 + 1);
        let (work, body) = split(work);
        self.commands = commands_left(&work, self.commands);
        self.functions = functions_left(&work, self.functions);
        self.pieces -= pieces;
        let line = line_of(&work);
        write(&mut self.events, Event::Came { no, node, line });
        self.works.push(work);
        self.bodies.push(body);
        self.replies.push(None);
        no
    }

    /// Takes the empty list of a command, with room for its data.
    pub fn take_body(&mut self, no: CmdNo) -> Reserve<u8>
        requires { numbered no self.old.untaken ≡ Some true }
        ensures ready { IsSomeAnd (numbered no self.old.works) (λ work. IsBodyOf work result) }
        ensures after { self.new ≡ without_body self.old no }
    {
        match self.bodies.replace(no.number() as usize - 1, None) {
            Some(body) => body,
            None => unreachable!(),
        }
    }

    /// Keeps the reply of a command.
    pub fn answer(&mut self, no: CmdNo, reply: Reply)
        requires command { IsCommandNo self.old no }
        requires without { reply_of self.old no ≡ None }
        ensures { self.new ≡ with_reply self.old no reply }
    {
        self.replies.set(no.number() as usize - 1, Some(reply));
    }

    /// Writes an event that is no arrival.
    pub fn push(&mut self, event: Event)
        requires room { 0 < self.old.spare }
        requires settled { CanBePushed self.old event }
        ensures { self.new ≡ with_event self.old event }
    {
        write(&mut self.events, event);
    }

    /// How many events were written.
    pub fn len(&self) -> u32
        ensures len { result ≡ length self.now.journal }
        ensures sound { IsSound self.now }
    {
        self.events.len() as u32
    }

    /// An event by its place, from 0.
    pub fn event(&self, place: u32) -> &Event
        requires { place < length self.now.journal }
        ensures { slice_get self.now.journal place ≡ Some (logged_in self.now result.now) }
    {
        &self.events.as_slice()[place as usize]
    }

    /// A work by its number.
    pub fn work(&self, no: CmdNo) -> Option<&Work<Command>>
        ensures work { option_copied result ≡ numbered no self.now.works }
        ensures nexus { IfSome (option_copied result) HasNexus }
    {
        match no.number() {
            0 => None,
            number => self.works.get(number as usize - 1),
        }
    }

    /// The reply that stands under a number.
    pub fn reply(&self, no: CmdNo) -> Option<&Reply>
        ensures { option_copied result ≡ reply_of self.now no }
    {
        match no.number() {
            0 => None,
            number => match self.replies.get(number as usize - 1) {
                Some(reply) => reply.as_ref(),
                None => None,
            },
        }
    }

    /// How many works came.
    pub fn count(&self) -> u32
        ensures { result ≡ length self.now.works }
    {
        self.works.len() as u32
    }

    /// How many more events fit.
    pub fn spare(&self) -> u32
        ensures { result ≡ self.now.spare }
    {
        self.events.room() as u32
    }
}

// A work, and for a command the empty list with room for its data.
fn split(work: Work<Cmd>) -> (Work<Command>, Option<Reserve<u8>>)
    ensures work { result.0 ≡ work }
    ensures kept { IsKept work result.1 }
    ensures body { is_some result.1 ≡ is_command work }
{
    match work {
        Work::Cmd(cmd) => {
            let (command, body) = cmd.into_parts();
            (Work::Cmd(command), Some(body))
        },
        Work::Ask(ask) => (Work::Ask(ask), None),
    }
}

fn commands_left(work: &Work<Command>, commands: u32) -> u32
    requires { is_command work.now ≡ true → 0 < commands }
    ensures { result ≡ (if is_command work.now then commands - 1 else commands) }
{
    match work {
        Work::Cmd(_) => commands - 1,
        Work::Ask(_) => commands,
    }
}

fn functions_left(work: &Work<Command>, functions: u32) -> u32
    requires { is_command work.now ≡ false → 0 < functions }
    ensures { result ≡ (if is_command work.now then functions else functions - 1) }
{
    match work {
        Work::Cmd(_) => functions,
        Work::Ask(_) => functions - 1,
    }
}

fn line_of(work: &Work<Command>) -> u32
    ensures { result ≡ line_of work.now }
{
    match work {
        Work::Cmd(command) => command.line,
        Work::Ask(ask) => ask.line,
    }
}

// Puts an event last. The check makes a push of events only where it sees a `Why`.
fn write(events: &mut Reserve<Event>, event: Event)
    requires { 0 < events.old.room }
    ensures { events.new ≡ record { items = events.old.items ++ event ∷ []; room = events.old.room - 1 } }
{
    let _why = Why::Medium;
    events.push(event);
}
