ghost use Rattle.std.specs.Prelude.{◌≡◌, ◌<◌, ◌==◌, [], ◌∷◌, length, Some, None, IfSome, MatchOption};
ghost use Rattle.std.specs.List.{position};
ghost use Rattle.or_prefix.specs.Reading.{around_double, pieces};

/// The place of the first such byte.
fn place_of(byte: u8, text: &[u8]) -> Option<usize>
    ensures { result ≡ position (λ b. b == byte) text.now }
{
    text.iter().position(|&b| b == byte)
}

/// The bytes before the first separator, and those behind it. None where there is no separator.
#[tactic(auto, using(crate::proofs::Cuts::cut_steps, std::proofs::lemmas::List::take_rest))]
pub fn cut(separator: u8, text: &[u8]) -> Option<(&[u8], &[u8])>
    ensures pieces { MatchOption result (pieces separator text.now ≡ text.now ∷ [])
        (λ halves. pieces separator text.now ≡ halves.0.now ∷ pieces separator halves.1.now) }
    ensures shorter { IfSome result (λ halves. length halves.1.now < length text.now) }
{
    let place = place_of(separator, text)?;
    Some((&text[..place], &text[place + 1..]))
}

/// The bytes before the first `::`, and those behind it. None where there is no `::`.
#[tactic(auto, using(crate::proofs::Doubles::double_steps, std::proofs::lemmas::List::take_rest))]
pub fn cut_double(text: &[u8]) -> Option<(&[u8], &[u8])>
    ensures { MatchOption result (around_double text.now ≡ None)
        (λ halves. around_double text.now ≡ Some (halves.0.now, halves.1.now)) }
{
    for place in 0..text.len() {
        if text[place..].starts_with(b"::") {
            return Some((&text[..place], &text[place + 2..]));
        }
    }
    None
}
