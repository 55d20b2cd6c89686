//! Printing a run as the chain text that writes it.
ghost use Rattle.std.specs.Prelude.{◌≡◌, ◌++◌, OnOk};
ghost use Rattle.vd_text.specs.Canonical.{piece_text, more_text, pieces_text, run_text};

use itoa::Buffer;
use std::alloc::AllocError;
use vd_model::{Piece, Run};

fn print_piece(piece: &Piece, out: &mut Vec<u8>) -> Result<(), AllocError>
    ensures { OnOk result (out.new.items ≡ out.old.items ++ piece_text piece.now) }
{
    let mut buffer = Buffer::new();
    out.push(if piece.write { b'w' } else { b'r' })?;
    out.extend_from_slice(buffer.format(piece.addr).as_bytes())?;
    out.push(b'+')?;
    out.extend_from_slice(buffer.format(piece.len).as_bytes())
}

fn print_more(pieces: &[Piece], out: &mut Vec<u8>) -> Result<(), AllocError>
    ensures { OnOk result (out.new.items ≡ out.old.items ++ more_text pieces.now) }
{
    for piece in pieces {
        out.push(b' ')?;
        print_piece(piece, out)?;
    }
    Ok(())
}

fn print_pieces(pieces: &[Piece], out: &mut Vec<u8>) -> Result<(), AllocError>
    ensures { OnOk result (out.new.items ≡ out.old.items ++ pieces_text pieces.now) }
{
    match pieces {
        [] => Ok(()),
        [first, rest @ ..] => {
            print_piece(first, out)?;
            print_more(rest, out)
        }
    }
}

/// Appends the canonical text of a run: a count where it isn't 1, and no leading zeros.
#[tactic(auto, unfolding(crate::specs::Canonical::run_text))]
pub fn print_run(run: &Run, out: &mut Vec<u8>) -> Result<(), AllocError>
    ensures { OnOk result (out.new.items ≡ out.old.items ++ run_text run.now) }
{
    if run.count != 1 {
        let mut buffer = Buffer::new();
        out.extend_from_slice(buffer.format(run.count).as_bytes())?;
        out.push(b'*')?;
    }
    print_pieces(run.chain.pieces(), out)
}
