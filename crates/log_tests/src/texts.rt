//! Texts of transcripts.

use std::alloc::Global;
use std::process::Abort;

/// What something comes to: words, and the number behind them where they have one.
pub(crate) type Told = (&'static str, Option<u64>);

/// What is told, in one text.
pub(crate) fn text_of(rt: &impl Abort, alloc: Global, told: Told) -> String {
    let text = match told {
        (words, Some(number)) => format!(in alloc; "{words} {number}"),
        (words, None) => String::from_str(alloc, words),
    };
    text.expect(rt, "memory")
}

/// Words and the number behind them.
pub(crate) fn numbered<'a>(rt: &impl Abort, text: &'a str) -> (&'a str, u64) {
    let (words, number) = text.rsplit_once(' ').expect(rt, "a number");
    (words, number.parse().expect(rt, "a number"))
}

/// What this case gives is what it is to give. All checks come here, since each assertion has a proof of its own.
pub(crate) fn same(rt: &impl Abort, case: &str, found: &str, wanted: &str) {
    assert!(rt; found == wanted, "case {case}: {found}");
}
