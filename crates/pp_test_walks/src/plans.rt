//! The plans of the walk on cores, as texts for the core and as plain statements beside them.

use crate::words::{Plan, Word};
use Word::{Choice, Fix, Gather, Latch, Scatter, Unfix, Unlatch};
use pp_cert::Held::{S, X};
use pp_test_plain::samples::DESCENT;

/// The numbers of the regions.
const ROOT: u8 = 0;

const LEAF: u8 = 1;

/// A plan's text, and the plan. Slots are those of the text's names in their order, from `a`.
pub struct Sample {
    pub text: &'static str,
    pub plan: Plan<'static>,
}

/// How many plans there are.
const KINDS: usize = 13;

/// A leaf that is fixed is written, or read twice, and given back.
const LAST_LEAF: Word = Choice(&[
    &[Latch(0, X), Unlatch(0), Unfix(0)],
    &[Latch(0, S), Unlatch(0), Latch(0, S), Unlatch(0), Unfix(0)],
]);

pub static PLANS: [Sample; KINDS] = [
    // From a root to a leaf, which is written.
    Sample {
        text: DESCENT,
        plan: Plan {
            peak: 2,
            words: &[
                Fix(0, ROOT),
                Latch(0, S),
                Fix(1, LEAF),
                Latch(1, X),
                Unlatch(1),
                Unlatch(0),
                Unfix(1),
                Unfix(0),
            ],
        },
    },
    // Three leaves are read.
    Sample {
        text: "{\"body\":[{\"body\":[{\"fix\":\"a\",\"region\":\"leaf\"},{\"latch\":\"a\",\"mode\":\"S\"},\
{\"unlatch\":\"a\"},{\"unfix\":\"a\"}],\"loop\":3}],\"version\":1}",
        plan: Plan {
            peak: 1,
            words: &[
                Fix(0, LEAF),
                Latch(0, S),
                Unlatch(0),
                Unfix(0),
                Fix(0, LEAF),
                Latch(0, S),
                Unlatch(0),
                Unfix(0),
                Fix(0, LEAF),
                Latch(0, S),
                Unlatch(0),
                Unfix(0),
            ],
        },
    },
    // A root is looked at, written or read.
    Sample {
        text: "{\"body\":[{\"fix\":\"a\",\"region\":\"root\"},{\"choice\":[[],\
[{\"latch\":\"a\",\"mode\":\"X\"},{\"unlatch\":\"a\"}],[{\"latch\":\"a\",\"mode\":\"S\"},{\"unlatch\":\"a\"}]]},\
{\"unfix\":\"a\"}],\"version\":1}",
        plan: Plan {
            peak: 1,
            words: &[
                Fix(0, ROOT),
                Choice(&[
                    &[Unfix(0)],
                    &[Latch(0, X), Unlatch(0), Unfix(0)],
                    &[Latch(0, S), Unlatch(0), Unfix(0)],
                ]),
            ],
        },
    },
    // Three pages, two of them latched as the third is fixed.
    Sample {
        text: "{\"body\":[{\"fix\":\"a\",\"region\":\"root\"},{\"latch\":\"a\",\"mode\":\"X\"},\
{\"fix\":\"b\",\"region\":\"leaf\"},{\"latch\":\"b\",\"mode\":\"S\"},{\"fix\":\"c\",\"region\":\"leaf\"},\
{\"unlatch\":\"b\"},{\"unfix\":\"b\"},{\"unfix\":\"c\"},{\"unlatch\":\"a\"},{\"unfix\":\"a\"}],\"version\":1}",
        plan: Plan {
            peak: 3,
            words: &[
                Fix(0, ROOT),
                Latch(0, X),
                Fix(1, LEAF),
                Latch(1, S),
                Fix(2, LEAF),
                Unlatch(1),
                Unfix(1),
                Unfix(2),
                Unlatch(0),
                Unfix(0),
            ],
        },
    },
    // Two leaves, each written or read twice.
    Sample {
        text: "{\"body\":[{\"body\":[{\"fix\":\"a\",\"region\":\"leaf\"},{\"choice\":[\
[{\"latch\":\"a\",\"mode\":\"X\"},{\"unlatch\":\"a\"}],\
[{\"body\":[{\"latch\":\"a\",\"mode\":\"S\"},{\"unlatch\":\"a\"}],\"loop\":2}]]},\
{\"unfix\":\"a\"}],\"loop\":2}],\"version\":1}",
        plan: Plan {
            peak: 1,
            words: &[
                Fix(0, LEAF),
                Choice(&[
                    &[Latch(0, X), Unlatch(0), Unfix(0), Fix(0, LEAF), LAST_LEAF],
                    &[
                        Latch(0, S),
                        Unlatch(0),
                        Latch(0, S),
                        Unlatch(0),
                        Unfix(0),
                        Fix(0, LEAF),
                        LAST_LEAF,
                    ],
                ]),
            ],
        },
    },
    // A root is written and given back once a leaf is held, which is then written twice.
    Sample {
        text: "{\"body\":[{\"fix\":\"a\",\"region\":\"root\"},{\"latch\":\"a\",\"mode\":\"X\"},\
{\"fix\":\"b\",\"region\":\"leaf\"},{\"unlatch\":\"a\"},{\"unfix\":\"a\"},\
{\"body\":[{\"latch\":\"b\",\"mode\":\"X\"},{\"unlatch\":\"b\"}],\"loop\":2},{\"unfix\":\"b\"}],\"version\":1}",
        plan: Plan {
            peak: 2,
            words: &[
                Fix(0, ROOT),
                Latch(0, X),
                Fix(1, LEAF),
                Unlatch(0),
                Unfix(0),
                Latch(1, X),
                Unlatch(1),
                Latch(1, X),
                Unlatch(1),
                Unfix(1),
            ],
        },
    },
    // Nothing.
    Sample {
        text: "{\"body\":[],\"version\":1}",
        plan: Plan {
            peak: 0,
            words: &[],
        },
    },
    // A bundle of three leaves.
    Sample {
        text: "{\"body\":[{\"body\":[{\"gather\":\"a\",\"region\":\"leaf\"}],\"loop\":3},{\"scatter\":\"a\"}],\"version\":2}",
        plan: Plan {
            peak: 3,
            words: &[
                Gather(0, LEAF),
                Gather(0, LEAF),
                Gather(0, LEAF),
                Scatter(0),
            ],
        },
    },
    // A leaf is gathered under a root that is written, and another once the root is given back.
    Sample {
        text: "{\"body\":[{\"fix\":\"a\",\"region\":\"root\"},{\"latch\":\"a\",\"mode\":\"X\"},\
{\"gather\":\"b\",\"region\":\"leaf\"},{\"unlatch\":\"a\"},{\"unfix\":\"a\"},{\"gather\":\"b\",\"region\":\"leaf\"},\
{\"scatter\":\"b\"}],\"version\":2}",
        plan: Plan {
            peak: 2,
            words: &[
                Fix(0, ROOT),
                Latch(0, X),
                Gather(1, LEAF),
                Unlatch(0),
                Unfix(0),
                Gather(1, LEAF),
                Scatter(1),
            ],
        },
    },
    // Each turn adds a leaf to a bundle, and gives another one of a root back for the next root.
    Sample {
        text: "{\"body\":[{\"gather\":\"a\",\"region\":\"root\"},{\"body\":[{\"gather\":\"b\",\"region\":\"leaf\"},\
{\"scatter\":\"a\"},{\"gather\":\"a\",\"region\":\"root\"}],\"loop\":2},{\"scatter\":\"b\"},\
{\"scatter\":\"a\"}],\"version\":2}",
        plan: Plan {
            peak: 3,
            words: &[
                Gather(0, ROOT),
                Gather(1, LEAF),
                Scatter(0),
                Gather(0, ROOT),
                Gather(1, LEAF),
                Scatter(0),
                Gather(0, ROOT),
                Scatter(1),
                Scatter(0),
            ],
        },
    },
    // Two leaves, or two roots.
    Sample {
        text: "{\"body\":[{\"choice\":[[{\"gather\":\"a\",\"region\":\"leaf\"},{\"gather\":\"a\",\"region\":\"leaf\"}],\
[{\"body\":[{\"gather\":\"a\",\"region\":\"root\"}],\"loop\":2}]]},{\"scatter\":\"a\"}],\"version\":2}",
        plan: Plan {
            peak: 2,
            words: &[Choice(&[
                &[Gather(0, LEAF), Gather(0, LEAF), Scatter(0)],
                &[Gather(0, ROOT), Gather(0, ROOT), Scatter(0)],
            ])],
        },
    },
    // Leaves are written beside a bundle that grows with them.
    Sample {
        text: "{\"body\":[{\"body\":[{\"gather\":\"b\",\"region\":\"leaf\"},{\"fix\":\"a\",\"region\":\"leaf\"},\
{\"latch\":\"a\",\"mode\":\"X\"},{\"unlatch\":\"a\"},{\"unfix\":\"a\"}],\"loop\":2},{\"scatter\":\"b\"}],\"version\":2}",
        plan: Plan {
            peak: 3,
            words: &[
                Gather(1, LEAF),
                Fix(0, LEAF),
                Latch(0, X),
                Unlatch(0),
                Unfix(0),
                Gather(1, LEAF),
                Fix(0, LEAF),
                Latch(0, X),
                Unlatch(0),
                Unfix(0),
                Scatter(1),
            ],
        },
    },
    // Three leaves, one after another, each a bundle.
    Sample {
        text: "{\"body\":[{\"body\":[{\"gather\":\"a\",\"region\":\"leaf\"},{\"scatter\":\"a\"}],\"loop\":3}],\"version\":2}",
        plan: Plan {
            peak: 1,
            words: &[
                Gather(0, LEAF),
                Scatter(0),
                Gather(0, LEAF),
                Scatter(0),
                Gather(0, LEAF),
                Scatter(0),
            ],
        },
    },
];
