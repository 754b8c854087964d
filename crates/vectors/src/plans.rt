//! Plans of objects.

use iim_object::{Plan, Size};
use vectors_layers::{Answers, Words, number_of};

/// Parses a size: `known:N`, `unknown` or `unknown:M`.
fn size_of(word: &[u8]) -> Option<Size> {
    if matches!(word, b"unknown") {
        return Some(Size::Unknown(None));
    }
    if let Some(digits) = word.strip_prefix(b"known:") {
        return Some(Size::Known(number_of(digits)?));
    }
    let most = number_of(word.strip_prefix(b"unknown:")?)?;
    Some(Size::Unknown(Some(most)))
}

/// Parses a plan from the next two words: the size of a full subfile, and the size of the object.
/// Returns `None` if the plan is invalid.
fn plan_of(words: &mut Words) -> Option<Plan> {
    let subfile = words.number();
    let size = size_of(words.word());
    if size.is_none() {
        words.refuse();
    }
    Plan::new(subfile, size?)
}

/// Parses a plan from the next two words. If the plan is invalid, prints that.
pub(crate) fn told_plan(out: &mut Answers, words: &mut Words) -> Option<Plan> {
    let plan = plan_of(words);
    if plan.is_none() {
        out.line("no plan");
    }
    plan
}

/// Prints the bound of a plan.
pub(crate) fn tell_bound(out: &mut Answers, words: &mut Words) {
    if let Some(plan) = told_plan(out, words) {
        out.tell(&plan.bound());
    }
}
