ghost use Rattle.std.specs.Prelude.{◌≡◌, ◌≤◌, ◌++◌, min, IfOk};
ghost use Rattle.ct_cdb.specs.Commands.Reservations.{reserve_in_length};
ghost use Rattle.ct_pages.specs.Selects.{selected_pages};
ghost use Rattle.ct_ua.specs.Attentions.{first_code};
ghost use Rattle.ct_resv.specs.Access.{is_allowed};
ghost use Rattle.ct_resv.specs.Actions.{after_out};
ghost use Rattle.ct_resv.specs.Reports.{reserve_in_data};
ghost use Rattle.ct_exec.specs.Controls.{opening_control, is_unrestricted, has_descriptors, tells_aborts};
ghost use Rattle.ct_exec.specs.Reserving.{action_fault, aborted_by, told_of_action, after_action, cleared_by_answer};
ghost use Rattle.ct_exec.specs.Modes.{with_pages};
ghost use Rattle.ct_exec.specs.Changes.{attention_taken};
ghost use Rattle.ct_exec.specs.Closing.{closing_control};

use crate::action_faults::action_fault;
use ct_cdb::{Class, Op, ReserveIn, ReserveOut};
use ct_pages::{ModePages, select_mode};
use ct_param::{ModeList, ResvList};
use ct_resv::{Done, Reservations, ResvFault};
use ct_tmf::{Ask, Function};
use ct_ua::Attentions;
use ct_word::{Code, LunNo, Nexus, NexusSet, NoMemory, Reserve};
use std::alloc::Global;
use std::marker::Model;

/// All of a logical unit's disk but its blocks.
#[derive(Debug, Drop)]
pub struct Control {
    lun: LunNo,
    pages: ModePages,
    attentions: Attentions,
    is_started: bool,
    reservations: Reservations,
}

impl Model for Control {
    ghost use Rattle.ct_resv.specs.Soundness.{IsSound};
    ghost use Rattle.ct_exec.specs.Controls.{ControlState};

    ghost Value = { ControlState };

    ghost view = { λ c. record {
      lun = c.lun;
      pages = c.pages;
      attentions = c.attentions;
      is_started = c.is_started;
      reservations = c.reservations;
    } };

    ghost invariant = { λ c. IsSound c.reservations };
}

impl Control {
    /// The control of a logical unit as it is opened: the mode pages have their default values, each nexus has the unit
    /// attention of power on, the unit is started, and nothing is reserved.
    pub fn open(_alloc: Global, lun: LunNo) -> Result<Control, NoMemory>
        ensures { IfOk result (λ control. control ≡ opening_control lun) }
    {
        Ok(Control {
            lun,
            pages: ModePages::open(),
            attentions: Attentions::at_power_on(),
            is_started: true,
            reservations: Reservations::open(),
        })
    }

    /// The number of the logical unit.
    pub(crate) fn lun(&self) -> LunNo
        ensures { result ≡ self.now.lun }
    {
        self.lun
    }

    /// The values of the mode pages.
    pub(crate) fn pages(&self) -> ModePages
        ensures { result ≡ self.now.pages }
    {
        self.pages
    }

    /// Gives the mode pages the values of a list of a nexus, and tells the others of it. Nothing changes where a page
    /// is refused.
    pub(crate) fn select(&mut self, nexus: Nexus, list: &ModeList)
        ensures { self.new ≡ with_pages self.old nexus list.now (selected_pages self.old.pages list.now) }
    {
        if select_mode(&mut self.pages, list).is_ok() && !list.is_empty() {
            self.attentions.raise_for_others(nexus, Code::ModeChanged);
        }
    }

    /// Whether the unit is started (SBC-3, START STOP UNIT).
    pub(crate) fn is_started(&self) -> bool
        ensures { result ≡ self.now.is_started }
    {
        self.is_started
    }

    pub(crate) fn start(&mut self, is_started: bool)
        ensures { self.new ≡ record self.old { is_started = is_started } }
    {
        self.is_started = is_started;
    }

    /// The unit attention that a nexus is told first.
    pub(crate) fn first_attention(&self, nexus: Nexus) -> Option<Code>
        ensures { result ≡ first_code self.now.attentions nexus }
    {
        self.attentions.first(nexus)
    }

    /// Takes the unit attention that a nexus is told first.
    pub(crate) fn take_attention(&mut self, nexus: Nexus) -> Option<Code>
        ensures first { result ≡ first_code self.old.attentions nexus }
        ensures taken { self.new ≡ attention_taken self.old nexus }
    {
        self.attentions.take(nexus)
    }

    /// Whether a persistent reservation lets commands of a class through for a nexus.
    pub(crate) fn allows(&self, nexus: Nexus, class: Class) -> bool
        ensures { result ≡ is_allowed self.now.reservations nexus class }
    {
        self.reservations.allowed(nexus, class)
    }

    /// Why the action of a command of a nexus is refused, if it is a PERSISTENT RESERVE OUT.
    pub(crate) fn action_fault(&self, nexus: Nexus, out: &[u8], op: &Op) -> Option<ResvFault>
        ensures { result ≡ action_fault self.now.reservations nexus out.now op.now }
    {
        action_fault(&self.reservations, nexus, out, op)
    }

    /// Does an action of PERSISTENT RESERVE OUT of a nexus, and tells the nexuses that it concerns. Returns those whose
    /// commands it aborts.
    #[tactic(auto, unfolding(crate::specs::Controls::tells_aborts))]
    pub(crate) fn reserve(&mut self, nexus: Nexus, action: ReserveOut, list: &ResvList) -> NexusSet
        ensures changed { self.new ≡
            after_action self.old action (after_out self.old.reservations nexus action list.now) }
        ensures cleared { result ≡
            cleared_by_answer action (after_out self.old.reservations nexus action list.now).answer }
    {
        match self.reservations.out(nexus, action, list) {
            Ok(done) => {
                let aborted = aborted_by(action, &done);
                tell(&mut self.attentions, self.pages.tas, &done, &aborted);
                aborted
            }
            Err(_) => NexusSet::open(),
        }
    }

    /// What a task management function does when it is answered (SAM-5, clause 7), which cut commands of these other
    /// nexuses.
    #[tactic(auto, unfolding(crate::specs::Closing::closing_control, crate::specs::Controls::tells_aborts))]
    pub fn close(&mut self, ask: &Ask, others: &NexusSet)
        ensures { self.new ≡ closing_control ask.now others.now self.old }
    {
        match ask.function {
            Function::ClearTaskSet => {
                if !self.tells_aborts() {
                    self.attentions.raise_for(others, Code::CommandsCleared);
                }
            }
            Function::LunReset => {
                self.pages = ModePages::open();
                self.attentions.raise_for_all(Code::Reset);
                self.is_started = true;
            }
            Function::NexusReset => {
                self.attentions
                    .raise_for(&NexusSet::of(ask.nexus), Code::NexusLoss);
            }
            Function::AbortTask(_)
            | Function::AbortTaskSet
            | Function::QueryTask(_)
            | Function::QueryTaskSet
            | Function::ClearAca => {}
        }
    }

    /// Adds what PERSISTENT RESERVE IN returns.
    pub(crate) fn push_reservations(
        &self,
        action: ReserveIn,
        allocation: u16,
        into: &mut Reserve<u8>,
    )
        requires { min allocation (reserve_in_length action) ≤ into.old.room }
        ensures { into.new.items ≡ into.old.items ++ reserve_in_data self.now.reservations action allocation }
    {
        self.reservations.input(action, allocation, into);
    }

    /// Whether reordering is unrestricted (SPC-4, Control mode page).
    #[tactic(auto, unfolding(crate::specs::Controls::is_unrestricted))]
    pub fn is_unrestricted(&self) -> bool
        ensures { result ≡ is_unrestricted self.now }
    {
        self.pages.free_order
    }

    /// Whether a command that another nexus aborts ends with TASK ABORTED (SPC-4, Control mode page).
    #[tactic(auto, unfolding(crate::specs::Controls::tells_aborts))]
    pub fn tells_aborts(&self) -> bool
        ensures { result ≡ tells_aborts self.now }
    {
        self.pages.tas
    }

    /// Whether sense data have the descriptor form.
    #[tactic(auto, unfolding(crate::specs::Controls::has_descriptors))]
    pub(crate) fn has_descriptors(&self) -> bool
        ensures { result ≡ has_descriptors self.now }
    {
        self.pages.descriptor
    }
}

// The nexuses whose commands an action aborts.
fn aborted_by(action: ReserveOut, done: &Done) -> NexusSet
    ensures { result ≡ aborted_by action done.now }
{
    match action {
        ReserveOut::PreemptAndAbort(_) => done.removed,
        _ => NexusSet::open(),
    }
}

// Raises the unit attentions of an action, where TAS has this value.
fn tell(attentions: &mut Attentions, tells_aborts: bool, done: &Done, aborted: &NexusSet)
    ensures { attentions.new ≡ told_of_action tells_aborts done.now aborted.now attentions.old }
{
    attentions.raise_for(&done.removed, Code::RegistrationsPreempted);
    attentions.raise_for(&done.released, Code::ReservationsReleased);
    attentions.raise_for(&done.preempted, Code::ReservationsPreempted);
    if !tells_aborts {
        attentions.raise_for(aborted, Code::CommandsCleared);
    }
}
