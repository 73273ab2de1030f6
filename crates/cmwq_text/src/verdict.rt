//! How verdicts are spelled.

ghost use Rattle.std.specs.Prelude.{◌≡◌, ◌+◌, ◌≤◌, ◌++◌, length};
ghost use Rattle.cmwq_text.specs.VerdictText.{legal_text, illegal_text, wanted_text};

use crate::line::LineText;
use crate::spelling::push_reply;
use cmwq_model::{Illegal, Wanted};

/// The line of a legal history with this many entries, with its line feed.
pub fn legal_line(entries: u64) -> LineText
    ensures { result ≡ legal_text entries }
{
    let mut line = LineText::new();
    line.push("legal ");
    line.push_number(entries);
    line.push("\n");
    line
}

fn push_wanted(line: &mut LineText, wanted: Wanted)
    requires { length line.old + 77 ≤ 240 }
    ensures exact { line.new ≡ line.old ++ wanted_text wanted }
    ensures short { length line.new ≤ length line.old + 77 }
{
    match wanted {
        Wanted::Serial(serial) => {
            line.push(": serial ");
            line.push_number(serial);
        }
        Wanted::Reply(reply) => {
            line.push(": reply");
            push_reply(line, reply);
        }
    }
}

/// The line of an illegal history, with its line feed.
pub fn illegal_line(illegal: &Illegal) -> LineText
    ensures { result ≡ illegal_text illegal.now }
{
    let mut line = LineText::new();
    line.push("illegal at ");
    line.push_number(illegal.at);
    push_wanted(&mut line, illegal.wanted);
    line.push("\n");
    line
}
