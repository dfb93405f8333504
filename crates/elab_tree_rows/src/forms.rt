//! The forms that no other row has: each with a part put into it, and what erasure leaves of it.
use crate::calls::{erase, put, shift};
use crate::guides;
use crate::page::Page;
use crate::terms::{delta, eapp, pair, snd};
use crate::types::{all, allt, at, iota, kpi, kpit, on, xtlam};
use elab_tree::{EGuide, EGuideKind, EKind, ETerm, EType};
use std::alloc::Global;

/// The type of a pair stands under a binder of its own.
fn put_in_terms(page: &mut Page, alloc: Global) {
    let call = eapp(alloc, ETerm::var(alloc, 0), ETerm::var(alloc, 1));
    put(page, alloc, 0, ETerm::name(alloc, 5), call);
    let ty = at(alloc, EType::name(alloc, 0), ETerm::var(alloc, 1));
    let both = pair(alloc, ETerm::var(alloc, 0), ETerm::var(alloc, 1), ty);
    put(page, alloc, 0, ETerm::var(alloc, 2), both);
    let second = snd(alloc, ETerm::var(alloc, 1));
    put(page, alloc, 1, ETerm::var(alloc, 4), second);
    let tree = delta(alloc, EType::var(alloc, 1), ETerm::var(alloc, 0));
    put(page, alloc, 0, ETerm::name(alloc, 2), tree);
}

fn put_in_types(page: &mut Page, alloc: Global) {
    let tree = all(alloc, EType::var(alloc, 0), EType::var(alloc, 1));
    put(page, alloc, 0, EType::var(alloc, 4), tree);
    let kind = kpi(alloc, EType::var(alloc, 0));
    let tree = allt(alloc, kind, EType::var(alloc, 1));
    put(page, alloc, 0, EType::name(alloc, 2), tree);
    let tree = xtlam(alloc, EKind::star(alloc), EType::var(alloc, 1));
    put(page, alloc, 0, EType::var(alloc, 3), tree);
}

fn put_in_others(page: &mut Page, alloc: Global) {
    let tree = on(alloc, EType::var(alloc, 0), EType::var(alloc, 1));
    put(page, alloc, 0, EType::var(alloc, 3), tree);
    let tree = iota(alloc, EType::var(alloc, 0), EType::var(alloc, 1));
    put(page, alloc, 0, EType::var(alloc, 3), tree);
    let domain = kpi(alloc, EType::var(alloc, 0));
    let kind = kpit(alloc, domain, kpi(alloc, EType::var(alloc, 1)));
    put(page, alloc, 0, EType::var(alloc, 3), kind);
}

fn erased_terms(page: &mut Page, alloc: Global) {
    erase(
        page,
        alloc,
        eapp(alloc, ETerm::var(alloc, 1), ETerm::var(alloc, 0)),
    );
    let both = pair(
        alloc,
        ETerm::var(alloc, 1),
        ETerm::var(alloc, 0),
        EType::var(alloc, 0),
    );
    erase(page, alloc, both);
    erase(page, alloc, snd(alloc, ETerm::var(alloc, 3)));
    let tree = delta(alloc, EType::var(alloc, 0), ETerm::var(alloc, 0));
    erase(page, alloc, tree);
}

fn erased_others(page: &mut Page, alloc: Global) {
    let part = on(alloc, EType::var(alloc, 0), EType::var(alloc, 1));
    let part = allt(alloc, EKind::star(alloc), part);
    erase(page, alloc, all(alloc, EType::var(alloc, 0), part));
    let part = iota(alloc, EType::var(alloc, 0), EType::var(alloc, 1));
    erase(page, alloc, xtlam(alloc, EKind::star(alloc), part));
    let kind = kpi(alloc, EType::var(alloc, 0));
    erase(page, alloc, kpit(alloc, EKind::star(alloc), kind));
}

/// The innermost variable is free: it stands under four binders.
fn raised_guide(page: &mut Page, alloc: Global) {
    let function = guides::xtlam(alloc, EGuide::var(alloc, 4));
    let both = guides::iota(alloc, EGuide::var(alloc, 0), function);
    let applied = guides::on(alloc, both, EGuide::var(alloc, 1));
    let kind = guides::kpit(alloc, EGuideKind::star(alloc), EGuideKind::star(alloc));
    let part = guides::allt(alloc, kind, applied);
    let guide = guides::all(alloc, EGuide::var(alloc, 0), part);
    shift(page, alloc, 0, 2, guide);
}

/// The lines of this file.
pub(crate) fn lines(page: &mut Page, alloc: Global) {
    put_in_terms(page, alloc);
    put_in_types(page, alloc);
    put_in_others(page, alloc);
    erased_terms(page, alloc);
    erased_others(page, alloc);
    raised_guide(page, alloc);
}
