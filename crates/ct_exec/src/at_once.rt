ghost use Rattle.std.specs.Prelude.{◌≡◌, ◌≤◌, ℕ, List, [], length, None};
ghost use Rattle.ct_book.specs.Works.{room_for};
ghost use Rattle.ct_exec.specs.Executions.{refusal_of, plan_in, execute};

use crate::change::change;
use crate::control::Control;
use crate::data::push_data;
use crate::ended::Instant;
use crate::refusal::moved_reply;
use ct_book::Command;
use ct_word::Reserve;

/// Executes a command that nothing refuses and that has no block operation, on a disk of so many blocks. The empty list
/// with room for its data becomes its data-in.
pub fn instant(c: &mut Control, command: &Command, body: Reserve<u8>, blocks: u32) -> Instant
    requires unrefused { refusal_of c.old blocks command.now ≡ None }
    requires unplanned { plan_in blocks command.now ≡ [] }
    requires empty { body.items ≡ [] }
    requires room { room_for command.now.cdb ≤ body.room }
    ensures { (disk : List (List ℕ)) → length disk ≡ blocks →
        execute (record { control = c.old; blocks = disk }) command.now
        ≡ record {
          disk = record { control = c.new; blocks = disk };
          reply = result.reply;
          cleared = result.cleared;
        } }
{
    let mut body = body;
    push_data(c, command, blocks, &mut body);
    let cleared = change(c, command);
    Instant {
        reply: moved_reply(body),
        cleared,
    }
}
