ghost use Rattle.std.specs.Prelude.{◌≡◌, ◌<◌, ◌≤◌, ◌∷◌, [], ℕ, List, length, MatchOption, IfSome};
ghost use Rattle.std.specs.Str.{chars};
ghost use Rattle.rb_lexer.specs.Tokens.{width};

pub fn split_first(text: &str) -> Option<(char, &str)>
    ensures taken { MatchOption result (chars text.now ≡ [])
        (λ x. chars text.now ≡ x.0 ∷ chars x.1.now) }
    ensures scalar { IfSome result (λ x. x.0 ≤ 0x10FFFF) }
    ensures shorter { IfSome result (λ x. length x.1.now < length text.now) }
{
    let mut chars = text.chars();
    let first = chars.next()?;
    Some((first, chars.as_str()))
}

pub fn strip(text: &str, first: char) -> Option<&str>
    ensures taken { MatchOption result ((cs : List ℕ) → chars text.now ≡ first ∷ cs → ⊥)
        (λ rest. chars text.now ≡ first ∷ chars rest.now) }
    ensures shorter { IfSome result (λ rest. length rest.now < length text.now) }
{
    let (c, rest) = split_first(text)?;
    if c == first { Some(rest) } else { None }
}

pub fn width(text: &str) -> usize
    ensures bytes { result ≡ length text.now }
    ensures characters { result ≡ width (chars text.now) }
{
    text.len()
}
