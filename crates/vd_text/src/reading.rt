//! Reading a piece: `rADDR+LEN` for the device to read, `wADDR+LEN` for it to write.
ghost use Rattle.std.specs.Prelude.{◌≡◌, ◌<◌, ◌≤◌, ◌^◌, option_map, IfSome};
ghost use Rattle.vd_text.specs.Grammar.{cut, number, address, positive, range, piece};

use vd_model::Piece;

/// What stands before and after the first such byte.
pub fn cut_at(bytes: &[u8], at: u8) -> Option<(&[u8], &[u8])>
    ensures { option_map (λ p. (p.0.now, p.1.now)) result ≡ cut at bytes.now }
{
    for i in 0..bytes.len() {
        if bytes[i] == at {
            return Some((&bytes[..i], &bytes[i + 1..]));
        }
    }
    None
}

/// The number that 1 to 20 digits write, where it is at least `low` and at most `most`.
pub fn number_in(digits: &[u8], low: u64, most: u64) -> Option<u64>
    ensures value { result ≡ number low most digits.now }
    ensures least { IfSome result (λ n. low ≤ n) }
{
    if digits.is_empty() || digits.len() > 20 {
        return None;
    }
    let mut value = 0u64;
    for digit in digits {
        if !digit.is_ascii_digit() {
            return None;
        }
        let next = value as u128 * 10 + (*digit - b'0') as u128;
        if next > most as u128 {
            return None;
        }
        value = next as u64;
    }
    if value < low { None } else { Some(value) }
}

fn range_in(write: bool, text: &[u8]) -> Option<Piece>
    ensures value { result ≡ range write (cut 43 text.now) }
    ensures some { IfSome result (λ p. 1 ≤ p.len) }
{
    let (front, back) = cut_at(text, b'+')?;
    let addr = number_in(front, 0, 0x7fff_ffff_ffff_ffff)?;
    let len = number_in(back, 1, 0xffff_ffff)?;
    Some(Piece {
        addr,
        len: len as u32,
        write,
    })
}

/// The piece that the text writes, or `None` where it writes none.
pub fn read_piece(text: &[u8]) -> Option<Piece>
    ensures value { result ≡ piece text.now }
    ensures some { IfSome result (λ p. 1 ≤ p.len) }
{
    match text {
        [b'r', rest @ ..] => range_in(false, rest),
        [b'w', rest @ ..] => range_in(true, rest),
        _ => None,
    }
}
