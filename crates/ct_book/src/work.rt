ghost use Rattle.std.specs.Prelude.{◌≡◌, ◌≤◌, [], IfOk};
ghost use Rattle.ct_word.specs.Nexuses.{IsNexus};
ghost use Rattle.ct_cdb.specs.Forms.{cdb_of};
ghost use Rattle.ct_cdb.specs.Profiles.{Fits, reports};
ghost use Rattle.ct_book.specs.Works.{room_for, profile_in};

use ct_cdb::{Attr2, CdbBytes, Profile, rows_fit};
use ct_tmf::Ask;
use ct_word::{Bytes, Nexus, NoMemory, Reserve, Tag};
use std::alloc::Global;
use std::marker::Model;

/// What an initiator asks: a command with its data-out (SAM-5, 5.1), and the line of the script that says so.
#[derive(Debug, Drop)]
pub struct Command {
    pub line: u32,
    pub nexus: Nexus,
    /// The logical unit numbers that the nexus sees, as a set of bits.
    pub visible: u16,
    pub tag: Tag,
    pub attr: Attr2,
    /// Decoded.
    pub cdb: CdbBytes,
    pub out: Bytes,
}

/// A command with reserved room for all data that it can return. Contracts see the command.
#[derive(Debug, Drop)]
pub struct Cmd {
    command: Command,
    body: Reserve<u8>,
}

impl Model for Cmd {
    ghost use Rattle.ct_book.specs.declared.work.Command.{Command};

    ghost Value = { Command };

    ghost use Rattle.ct_book.specs.Works.{IsReady};

    ghost view = { λ c. c.command };

    ghost invariant = { λ c. IsReady c.command c.body };
}

/// What comes to a logical unit: a command, in one of two forms, or a task management function.
#[derive(Debug, Drop)]
pub enum Work<C> {
    Cmd(C),
    Ask(Ask),
}

impl Cmd {
    ghost use Rattle.ct_book.specs.Works.{IsReady};

    /// A command, with room for its data.
    pub fn new(
        alloc: Global,
        line: u32,
        nexus: Nexus,
        visible: u16,
        tag: Tag,
        attr: Attr2,
        cdb: CdbBytes,
        out: Bytes,
    ) -> Result<Cmd, NoMemory>
        requires { IsNexus nexus }
        ensures { IfOk result (λ c. c ≡ record {
          line = line;
          nexus = nexus;
          visible = visible;
          tag = tag;
          attr = attr;
          cdb = cdb;
          out = out;
        }) }
    {
        let body = Reserve::open(alloc, room_for(&cdb))?;
        Ok(Cmd {
            command: Command {
                line,
                nexus,
                visible,
                tag,
                attr,
                cdb,
                out,
            },
            body,
        })
    }

    pub fn command(&self) -> &Command
        ensures { result.now ≡ self.now }
    {
        &self.command
    }

    /// The command, and the empty list with room for its data.
    pub(crate) fn into_parts(self) -> (Command, Reserve<u8>)
        ensures command { result.0 ≡ self }
        ensures ready { IsReady self result.1 }
    {
        let Cmd { command, body } = self;
        (command, body)
    }
}

impl Command {
    /// What the command means, on a disk of so many blocks.
    #[tactic(auto, unfolding(crate::specs::Works::profile_in))]
    pub fn profile(&self, blocks: u32) -> Profile
        ensures row { result ≡ profile_in blocks self.now }
        ensures fits { Fits result }
        ensures reports { result.reports_attention ≡ reports (cdb_of self.now.cdb) }
    {
        rows_fit();
        Profile::by(self.cdb.decoded(), self.out.as_slice(), blocks)
    }
}

// The most bytes of data-in that a CDB can ask for.
#[tactic(auto, unfolding(crate::specs::Works::room_for))]
fn room_for(cdb: &CdbBytes) -> usize
    ensures { result ≡ room_for cdb.now }
{
    Profile::by(cdb.decoded(), &[], 0).data_in as usize
}
