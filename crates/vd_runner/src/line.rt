//! The lines of the report, each made on the stack.
ghost use Rattle.std.specs.Prelude.{◌≡◌, ◌+◌, ◌≤◌, ◌++◌, length, decimal};
ghost use Rattle.arrayvec.specs.ArrayString.{array_string_len};
ghost use Rattle.vd_runner.specs.Report.{queue_line, chain_line, epoch_line, drained_line, mode_word};

use arrayvec::ArrayString;
use itoa::Buffer;
use vd_model::Mode;

/// A line of at most 120 bytes.
pub type Line = ArrayString<120>;

/// Appends a number.
#[inline(always)]
pub fn push_number(line: &mut Line, number: u64)
    requires { array_string_len line.old + 20 ≤ 120 }
    ensures bytes { line.new.bytes ≡ line.old.bytes ++ decimal number }
    ensures len { array_string_len line.new ≤ array_string_len line.old + 20 }
{
    let mut buffer = Buffer::new();
    line.push_str(buffer.format(number));
}

/// Appends a text.
pub fn push_text(line: &mut Line, text: &str)
    requires { array_string_len line.old + length text.now ≤ 120 }
    ensures bytes { line.new.bytes ≡ line.old.bytes ++ text.now }
    ensures len { array_string_len line.new ≡ array_string_len line.old + length text.now }
{
    line.push_str(text);
}

/// A queue's number, its chains and the bytes that its device gave.
#[tactic(auto, unfolding(crate::specs::Report::queue_line))]
pub fn queue_line(queue: u64, chains: u64, bytes: u64) -> Line
    ensures { result.bytes ≡ queue_line queue chains bytes }
{
    let mut line = Line::new();
    push_text(&mut line, "queue ");
    push_number(&mut line, queue);
    push_text(&mut line, " chains ");
    push_number(&mut line, chains);
    push_text(&mut line, " bytes ");
    push_number(&mut line, bytes);
    push_text(&mut line, "\n");
    line
}

/// A chain's queue, its number and the length given for it.
#[tactic(auto, unfolding(crate::specs::Report::chain_line))]
pub fn chain_line(queue: u64, chain: u64, len: u32) -> Line
    ensures { result.bytes ≡ chain_line queue chain len }
{
    let mut line = Line::new();
    push_text(&mut line, "chain ");
    push_number(&mut line, queue);
    push_text(&mut line, " ");
    push_number(&mut line, chain);
    push_text(&mut line, " ");
    push_number(&mut line, len as u64);
    push_text(&mut line, "\n");
    line
}

fn push_mode(line: &mut Line, mode: Mode)
    requires { array_string_len line.old + 6 ≤ 120 }
    ensures bytes { line.new.bytes ≡ line.old.bytes ++ mode_word mode }
    ensures len { array_string_len line.new ≤ array_string_len line.old + 6 }
{
    match mode {
        Mode::Pass => push_text(line, "pass"),
        Mode::Shadow => push_text(line, "shadow"),
    }
}

/// An epoch of a queue, with its first chain and the one after its last.
#[tactic(auto, unfolding(crate::specs::Report::epoch_line))]
pub fn epoch_line(queue: u64, epoch: u64, mode: Mode, from: u64, to: u64) -> Line
    ensures { result.bytes ≡ epoch_line queue epoch mode from to }
{
    let mut line = Line::new();
    push_text(&mut line, "epoch ");
    push_number(&mut line, queue);
    push_text(&mut line, " ");
    push_number(&mut line, epoch);
    push_text(&mut line, " ");
    push_mode(&mut line, mode);
    push_text(&mut line, " ");
    push_number(&mut line, from);
    push_text(&mut line, " ");
    push_number(&mut line, to);
    push_text(&mut line, "\n");
    line
}

/// The number of chains that were returned.
#[tactic(auto, unfolding(crate::specs::Report::drained_line))]
pub fn drained_line(chains: u64) -> Line
    ensures { result.bytes ≡ drained_line chains }
{
    let mut line = Line::new();
    push_text(&mut line, "drained ");
    push_number(&mut line, chains);
    push_text(&mut line, "\n");
    line
}
