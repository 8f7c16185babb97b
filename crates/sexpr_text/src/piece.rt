//! What stands at a place of a text between its tokens.

ghost use Rattle.std.specs.Prelude.{◌≡◌, ℕ, ◌+◌, ◌≤◌, ◌<◌, ◌≢◌, true, false, length, slice_index};
ghost use Rattle.basics.specs.Texts.{is_blank};
ghost use Rattle.sexpr_text.specs.Scan.{IsClear, IsPiece, is_separator};

/// What stands at a place: a blank or a comment, or a token.
pub enum Piece {
    /// Nothing up to this place.
    Gap(usize),
    Open,
    Close,
    /// A run up to this place.
    Run(usize),
}

fn is_blank(b: u8) -> bool
    ensures { result ≡ is_blank b }
{
    matches!(b, b' ' | b'\t' | b'\n' | b'\r')
}

fn is_separator(b: u8) -> bool
    ensures { result ≡ is_separator b }
{
    is_blank(b) || matches!(b, b'(' | b')' | b';')
}

/// The place of the first line feed from `at` on, or the text's length.
fn line_end(text: &[u8], at: usize) -> usize
    requires inside { at < length text.now }
    requires semicolon { slice_index text.now at ≡ 59 }
    ensures after { at < result }
    ensures within { result ≤ length text.now }
    ensures before { (k : ℕ) → at ≤ k → k < result → slice_index text.now k ≢ 10 }
    ensures found { result < length text.now → slice_index text.now result ≡ 10 }
{
    let mut end = at + 1;
    while end < text.len() && text[end] != b'\n' {
        end += 1;
    }
    end
}

/// The place of the first separator behind `at`, or the text's length.
fn run_end(text: &[u8], at: usize) -> usize
    requires inside { at < length text.now }
    requires run { is_separator (slice_index text.now at) ≡ false }
    ensures after { at < result }
    ensures within { result ≤ length text.now }
    ensures before { (k : ℕ) → at ≤ k → k < result → is_separator (slice_index text.now k) ≡ false }
    ensures found { result < length text.now → is_separator (slice_index text.now result) ≡ true }
{
    let mut end = at + 1;
    while end < text.len() && !is_separator(text[end]) {
        end += 1;
    }
    end
}

/// What stands at a place that cuts neither a run nor a comment.
pub fn piece_at(text: &[u8], at: usize) -> Piece
    requires inside { at < length text.now }
    requires clear { IsClear text.now at }
    ensures { IsPiece text.now at result }
{
    match text[at] {
        b'(' => Piece::Open,
        b')' => Piece::Close,
        b';' => Piece::Gap(line_end(text, at)),
        b if is_blank(b) => Piece::Gap(at + 1),
        _ => Piece::Run(run_end(text, at)),
    }
}
