//! A text is cut where a byte stands.

ghost use Rattle.std.specs.Prelude.{◌≡◌, ◌<◌, length, IfSome};
ghost use Rattle.std.specs.Option.{option_map};
ghost use Rattle.sc_words.specs.Words.{cut_at};
ghost use Rattle.sc_words.specs.Lines.{CutAt};

use memchr::memchr;

/// What stands before the first such byte, and what stands behind it. Nothing where there is no such byte.
pub fn cut(text: &[u8], at: u8) -> Option<(&[u8], &[u8])>
    ensures value { option_map (λ p. (p.0.now, p.1.now)) result ≡ cut_at at text.now }
    ensures shorter { IfSome result (λ p. length p.1.now < length text.now) }
    ensures parts { CutAt at text.now (option_map (λ p. (p.0.now, p.1.now)) result) }
{
    match memchr(at, text) {
        None => None,
        Some(place) => Some((&text[..place], &text[place + 1..])),
    }
}
