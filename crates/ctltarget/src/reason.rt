//! What the program says on standard error.

ghost use Rattle.std.specs.Prelude.{◌≡◌, option_map};
ghost use Rattle.ctltarget.specs.Reasons.{fault_name, reason_text, reason_for};

use ct_top::{Exit, ScriptFault, Served, What};
use std::fmt::{self, Display, Formatter};

/// Why a call ended as it did, and how many bytes it had sent.
#[derive(Clone, Copy, Debug)]
pub struct Reason {
    exit: Exit,
    sent: u64,
}

/// Why a call ended otherwise than Done.
pub fn reason_for(served: &Served) -> Option<Reason>
    ensures { option_map (λ reason. reason_text reason.exit reason.sent) result ≡ reason_for served.now.exit served.now.sent }
{
    match served.exit {
        Exit::Done => None,
        exit => Some(Reason {
            exit,
            sent: served.sent,
        }),
    }
}

impl Display for Reason {
    ghost use Rattle.std.specs.Prelude.{Some};
    ghost use Rattle.ctltarget.specs.Reasons.{reason_text};

    ghost output = { λ reason. Some (reason_text reason.exit reason.sent) };

    fn fmt<W: fmt::Write>(&self, f: &mut Formatter<W>) -> fmt::Result {
        match self.exit {
            Exit::Done => Ok(()),
            Exit::Usage => write!(f, "usage"),
            Exit::Script(ScriptFault { line, what }) => {
                let what = name(what);
                write!(f, "script line {line}: {what}")
            }
            Exit::TooLong => write!(f, "script too long"),
            Exit::Read => write!(f, "read fault"),
            Exit::Write => {
                let sent = self.sent;
                write!(f, "write fault after {sent} bytes")
            }
            Exit::Memory => write!(f, "no memory"),
        }
    }
}

fn name(what: What) -> &'static str
    ensures { result.now ≡ fault_name what }
{
    match what {
        What::Form => "form",
        What::Name => "name",
        What::Limit => "limit",
    }
}
