//! Where texts are cut.

ghost use Rattle.std.specs.Prelude.{◌≡◌, ◌==◌, ◌<◌, IfSome, length};
ghost use Rattle.std.specs.List.{position_or_len};
ghost use Rattle.run_files.specs.Given.{lines_of};
ghost use Rattle.run_files.specs.Lines.{lines_with, halves_of, halves_view};

/// The place of the first such byte, or the number of bytes if there is none.
fn place_of(bytes: &[u8], mark: u8) -> usize
    ensures { result ≡ position_or_len (λ b. b == mark) bytes.now }
{
    for (i, byte) in bytes.iter().enumerate() {
        if *byte == mark {
            return i;
        }
    }
    bytes.len()
}

/// The first line, without its line feed, and what follows it; none if the text is empty.
#[tactic(auto, using(crate::proofs::Cutting::line_first, crate::proofs::Cutting::line_last))]
pub fn cut_line(text: &[u8]) -> Option<(&[u8], &[u8])>
    ensures lines { lines_of text.now ≡ lines_with result }
    ensures shorter { IfSome result (λ cut. length cut.1.now < length text.now) }
{
    if text.is_empty() {
        return None;
    }
    let end = place_of(text, b'\n');
    if end < text.len() {
        return Some((&text[..end], &text[end + 1..]));
    }
    Some((text, &[]))
}

/// What stands before the first space, and what stands after it; none if there is no space.
#[tactic(auto, using(crate::proofs::Cutting::halves_at, crate::proofs::Cutting::no_halves))]
pub fn cut_blank(line: &[u8]) -> Option<(&[u8], &[u8])>
    ensures { halves_view result ≡ halves_of line.now }
{
    let end = place_of(line, b' ');
    if end < line.len() {
        return Some((&line[..end], &line[end + 1..]));
    }
    None
}
