//! The written commands: what the words of the command line ask for.

ghost use Rattle.std.specs.Prelude.{◌≡◌, map, string_bytes};
ghost use Rattle.ct_top.specs.Served.{command_of};

/// A written command.
#[derive(Clone, Copy, Debug, PartialEq, Eq)]
pub enum Command {
    /// Reads a script and prints its report.
    Play,
}

/// What the words ask for. None where they are no written command.
pub fn read_command(words: &[String]) -> Option<Command>
    ensures { result ≡ command_of (map string_bytes words.now) }
{
    match words {
        [word] if word.as_str() == "play" => Some(Command::Play),
        _ => None,
    }
}
