//! The options as `clap` took them.
ghost use Rattle.std.specs.Prelude.{◌≡◌, ◌≤◌, IfSome};
ghost use Rattle.clap.specs.Matches.{found_of};
ghost use Rattle.clap.specs.Walk.{rows_of};
ghost use Rattle.dist_words.specs.Clap.{options_of};
ghost use Rattle.dist_words.specs.Lines.{IsLimit, IsSize, seen};
ghost use Rattle.dist_words.specs.SimpleCommandPrivate.{IsMatched};
ghost use Rattle.dist_base.specs.declared.TheConstants.{MAX_MOST};

use clap::ArgMatches;

/// The numbers of the options that stand, the text that names a package, and whether the flag stands.
#[derive(Clone, Copy)]
pub(crate) struct Options<'a> {
    pub(crate) limit: Option<u32>,
    pub(crate) size: Option<u32>,
    pub(crate) seed: Option<u32>,
    pub(crate) named: Option<&'a str>,
    pub(crate) most: Option<u32>,
    pub(crate) essential: bool,
}

/// The options that the matches give.
pub(crate) fn options_of<'a>(matches: &ArgMatches<'a>) -> Options<'a>
    requires { IsMatched matches.now }
    ensures options { seen result ≡ options_of (rows_of (found_of matches.now)) }
    ensures limit { IfSome result.limit IsLimit }
    ensures size { IfSome result.size IsSize }
    ensures most { IfSome result.most (λ most. most ≤ MAX_MOST) }
{
    Options {
        limit: matches.get_one::<u32>("limit"),
        size: matches.get_one::<u32>("size"),
        seed: matches.get_one::<u32>("seed"),
        named: matches.get_str("package"),
        most: matches.get_one::<u32>("most"),
        essential: matches.get_flag("essential"),
    }
}
