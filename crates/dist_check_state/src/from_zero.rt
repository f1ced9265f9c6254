//! Numbers from 1 as numbers from 0.
ghost use Rattle.std.specs.Prelude.{◌≡◌};
ghost use Rattle.dist_cert.specs.Accepted.{from_zero, pairs_from_zero};
ghost use Rattle.dist_cert.specs.Form.{AreFromOne, ArePairs};

use dist_cert::{Items, Numbers, Pairs};

/// The numbers, each less by one.
pub(crate) fn from_zero(numbers: Numbers) -> Numbers
    requires { AreFromOne numbers }
    ensures { result ≡ from_zero numbers }
{
    let mut numbers = numbers.into_vec();
    lower(&mut numbers);
    Items::from_vec(numbers)
}

/// Makes each number less by one.
fn lower(numbers: &mut [u32])
    requires { AreFromOne numbers.old }
    ensures { numbers.new ≡ from_zero numbers.old }
{
    for number in numbers.iter_mut() {
        *number -= 1;
    }
}

/// The pairs, each number of them less by one.
pub(crate) fn pairs_from_zero(pairs: Pairs) -> Pairs
    requires { ArePairs pairs }
    ensures { result ≡ pairs_from_zero pairs }
{
    let mut pairs = pairs.into_vec();
    lower_pairs(&mut pairs);
    Items::from_vec(pairs)
}

/// Makes both numbers of each pair less by one.
fn lower_pairs(pairs: &mut [(u32, u32)])
    requires { ArePairs pairs.old }
    ensures { pairs.new ≡ pairs_from_zero pairs.old }
{
    for pair in pairs.iter_mut() {
        *pair = (pair.0 - 1, pair.1 - 1);
    }
}
