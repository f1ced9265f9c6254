//! Numbers and variables above the last one.
ghost use Rattle.std.specs.Prelude.{◌≡◌, nat_lt};
ghost use Rattle.std.specs.List.{list_any};

/// Whether a number is above the last one.
pub(crate) fn is_any_above(numbers: &[u32], last: u32) -> bool
    ensures { result ≡ list_any (λ number. nat_lt last number) numbers.now }
{
    numbers.iter().any(|number| *number > last)
}

/// Whether the variable of a literal is above the last one.
pub(crate) fn is_any_variable_above(literals: &[(u32, bool)], last: u32) -> bool
    ensures { result ≡ list_any (λ word. nat_lt last word.0) literals.now }
{
    literals.iter().any(|literal| literal.0 > last)
}
