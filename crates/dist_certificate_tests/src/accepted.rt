//! The laws, and certificates that are accepted with all their claims.
use dist_cert::CertKind::{self, Strong};
use dist_check::{
    Verdict, accepted_claims_hold, each_text_has_a_verdict, texts_have_one_answer,
    texts_have_one_verdict, undecided_questions_are_hard,
};
use dist_outside::Limits;
use dist_samples::{PAIR, Said, TEN, TWO};
use dist_verdicts::{answer, are_said};
use std::alloc::Global;

/// What an accepted certificate is over, its kind, whether it is of mode essential, and its claims.
pub(crate) struct Accepted {
    pub(crate) stanzas: &'static str,
    pub(crate) text: &'static str,
    pub(crate) kind: CertKind,
    pub(crate) essential: bool,
    pub(crate) said: &'static [Said],
}

/// Package a, which depends on b or c, and b, which depends on c, and c and d.
const FOUR: &str =
    "Package: a\nVersion: 1\nDepends: b | c\n\nPackage: b\nVersion: 1\nDepends: c\n\nPackage: c\nVersion: 1\n\nPackage: d\nVersion: 1\n";

const ACCEPTED: &[Accepted] = &[
    Accepted {
        stanzas: TWO,
        text: TEN,
        kind: Strong,
        essential: false,
        said: &[Said::Strong(&[1], &[]), Said::Strong(&[], &[])],
    },
    // No packages.
    Accepted {
        stanzas: "",
        text: "distfuture-certificate 1 strong plain 10000 0 0 0\ne\n",
        kind: Strong,
        essential: false,
        said: &[],
    },
    // A package that is not installable.
    Accepted {
        stanzas: "Package: a\nVersion: 1\nDepends: c\n",
        text: "distfuture-certificate 1 strong plain 10000 1 1 1\nq 1\nf 1\nx 1\ne\n",
        kind: Strong,
        essential: false,
        said: &[Said::Uninstallable],
    },
    // A package that is undecided.
    Accepted {
        stanzas: FOUR,
        text: "distfuture-certificate 1 strong plain 1 4 4 2\nq 1\nd 3 -1 0 1 2\nu\ny 1\nm 2 3\nq 2 -3\nf 2\ns 2 1 0 3 0\nm 3\ns 3 2 0 0\nm 4\ns 4 3 0 0\ne\n",
        kind: Strong,
        essential: false,
        said: &[
            Said::Unknown,
            Said::Strong(&[2], &[]),
            Said::Strong(&[], &[]),
            Said::Strong(&[], &[]),
        ],
    },
    // A strong dependency that is undecided.
    Accepted {
        stanzas: FOUR,
        text: "distfuture-certificate 1 strong plain 1 4 4 2\nm 1 3 4\nq 1 -3\nf 1 2\nq 1 -4\nd 3 -1 0 1 2\nu\ns 1 1 1 0 3 0 4\nm 2 3\nq 2 -3\nf 2\ns 2 2 0 3 0\nm 3\ns 3 3 0 0\nm 4\ns 4 4 0 0\ne\n",
        kind: Strong,
        essential: false,
        said: &[
            Said::Strong(&[2], &[3]),
            Said::Strong(&[2], &[]),
            Said::Strong(&[], &[]),
            Said::Strong(&[], &[]),
        ],
    },
    // At mode essential each installation has the essential package, and at mode plain none needs it.
    Accepted {
        stanzas: PAIR,
        text: "distfuture-certificate 1 strong essential 10000 2 2 1\nm 1 2\nq 1 -2\nf 1\ns 1 1 0 2 0\nm 2\ns 2 2 0 0\ne\n",
        kind: Strong,
        essential: true,
        said: &[Said::Strong(&[1], &[]), Said::Strong(&[], &[])],
    },
    Accepted {
        stanzas: PAIR,
        text: "distfuture-certificate 1 strong plain 10000 2 2 0\nm 1\ns 1 1 0 0\nm 2\ns 2 2 0 0\ne\n",
        kind: Strong,
        essential: false,
        said: &[Said::Strong(&[], &[]), Said::Strong(&[], &[])],
    },
    // Without essential packages the modes are alike.
    Accepted {
        stanzas: TWO,
        text: "distfuture-certificate 1 strong essential 10000 2 2 1\nm 1 2\nq 1 -2\nf 1\ns 1 1 0 2 0\nm 2\ns 2 2 0 0\ne\n",
        kind: Strong,
        essential: true,
        said: &[Said::Strong(&[1], &[]), Said::Strong(&[], &[])],
    },
];

/// Whether a verdict accepts, at a row's kind and mode and with its claims.
fn is_said(verdict: &Verdict, row: &Accepted) -> bool {
    match verdict {
        Verdict::Accepted(header, claims) => {
            header.kind == row.kind
                && header.essential == row.essential
                && are_said(claims, row.said)
        }
        _ => false,
    }
}

/// Whether a row's text is accepted, at its kind and mode and with its claims.
fn is_accepted(alloc: Global, row: &Accepted) -> bool {
    match answer(alloc, row.stanzas, row.text.as_bytes(), &Limits::stated()) {
        Some(Ok(verdict)) => {
            let said = is_said(&verdict, row);
            drop(verdict);
            said
        }
        _ => false,
    }
}

/// The first text that is not accepted as its row says.
pub(crate) fn wrong_verdict(alloc: Global, rows: &[Accepted]) -> Option<&'static str> {
    for row in rows {
        if !is_accepted(alloc, row) {
            return Some(row.text);
        }
    }
    None
}

#[test]
fn certificates_are_accepted(rt: HostRuntime) {
    assert_eq!(rt; wrong_verdict(rt.alloc(), ACCEPTED), None);
}

#[test]
fn the_laws_hold() {
    accepted_claims_hold();
    each_text_has_a_verdict();
    texts_have_one_answer();
    texts_have_one_verdict();
    undecided_questions_are_hard();
}
