//! The worked files, built by constructors. Each variable is the number of binders between it and its own.

use crate::{Made, guides, terms, types};
use cdle_model::Text;
use elab_tree::{EGuide, EGuideKind, EKind, EPure, ETerm, EType, OutItem};
use std::alloc::Global;

fn def(alloc: Global, name: &str, ty: Made<EType>, body: Made<ETerm>) -> Made<OutItem> {
    Ok(OutItem::Def {
        name: Text::new(alloc, name)?,
        ty: ty?,
        body: body?,
    })
}

fn type_def(alloc: Global, name: &str, kind: Made<EKind>, body: Made<EType>) -> Made<OutItem> {
    Ok(OutItem::TypeDef {
        name: Text::new(alloc, name)?,
        kind: kind?,
        body: body?,
    })
}

fn put(items: &mut Vec<OutItem>, item: Made<OutItem>) -> Made<()> {
    items.push(item?)?;
    Ok(())
}

// ---- the identity, and what is written with it

fn identity_type(alloc: Global) -> Made<EType> {
    let arrow = types::pi(alloc, EType::var(alloc, 0), EType::var(alloc, 1));
    types::allt(alloc, EKind::star(alloc), arrow)
}

fn identity_body(alloc: Global) -> Made<ETerm> {
    let function = terms::lam(alloc, EType::var(alloc, 0), ETerm::var(alloc, 0));
    terms::xlam(alloc, EKind::star(alloc), function)
}

/// `Λ A . λ a . id ·A a`, where `id` is item 0: the source leaves the type argument out.
fn two_body(alloc: Global) -> Made<ETerm> {
    let at_type = terms::tapp(alloc, ETerm::name(alloc, 0), EType::var(alloc, 1));
    let call = terms::app(alloc, at_type, ETerm::var(alloc, 0));
    let function = terms::lam(alloc, EType::var(alloc, 0), call);
    terms::xlam(alloc, EKind::star(alloc), function)
}

/// The identity alone.
pub(crate) fn identity(alloc: Global, name: &str) -> Made<Vec<OutItem>> {
    let mut items = Vec::new(alloc);
    put(
        &mut items,
        def(alloc, name, identity_type(alloc), identity_body(alloc)),
    )?;
    Ok(items)
}

/// The identity, and an item that applies it with its type argument left out.
pub(crate) fn left_out(alloc: Global) -> Made<Vec<OutItem>> {
    let mut items = identity(alloc, "m.id")?;
    put(
        &mut items,
        def(alloc, "m.two", identity_type(alloc), two_body(alloc)),
    )?;
    Ok(items)
}

/// The identity, and `Λ X . λ id . id`, whose binder hides it: trees know no names of binders.
pub(crate) fn shadowed(alloc: Global) -> Made<Vec<OutItem>> {
    let mut items = identity(alloc, "m.id")?;
    put(
        &mut items,
        def(alloc, "m.f", identity_type(alloc), identity_body(alloc)),
    )?;
    Ok(items)
}

/// An item that names the identity of an earlier file.
pub(crate) fn behind(alloc: Global) -> Made<Vec<OutItem>> {
    let at_type = terms::tapp(alloc, ETerm::name(alloc, 0), EType::var(alloc, 0));
    let body = terms::xlam(alloc, EKind::star(alloc), at_type);
    let mut items = Vec::new(alloc);
    put(&mut items, def(alloc, "q.id", identity_type(alloc), body))?;
    Ok(items)
}

// ---- names

/// `F ·X ➔ F ·X` for item 0 as F, inside the binder of X.
fn functor_arrow(alloc: Global) -> Made<EType> {
    let domain = types::on(alloc, EType::name(alloc, 0), EType::var(alloc, 0));
    let rest = types::on(alloc, EType::name(alloc, 0), EType::var(alloc, 1));
    types::allt(alloc, EKind::star(alloc), types::pi(alloc, domain, rest))
}

fn functor_identity(alloc: Global) -> Made<ETerm> {
    let domain = types::on(alloc, EType::name(alloc, 0), EType::var(alloc, 0));
    let function = terms::lam(alloc, domain, ETerm::var(alloc, 0));
    terms::xlam(alloc, EKind::star(alloc), function)
}

/// Items whose names have a slash, a prime and a dot more.
pub(crate) fn names(alloc: Global) -> Made<Vec<OutItem>> {
    let mut items = Vec::new(alloc);
    let kind = types::kpit(alloc, EKind::star(alloc), EKind::star(alloc));
    let functor = types::xtlam(alloc, EKind::star(alloc), EType::var(alloc, 0));
    put(&mut items, type_def(alloc, "m.D/F", kind, functor))?;
    put(
        &mut items,
        def(alloc, "m.x'", functor_arrow(alloc), functor_identity(alloc)),
    )?;
    put(
        &mut items,
        def(alloc, "m.y.z", functor_arrow(alloc), ETerm::name(alloc, 1)),
    )?;
    Ok(items)
}

// ---- every form

/// `λ x . x`
fn pure_identity(alloc: Global) -> Made<EPure> {
    terms::function(alloc, EPure::var(alloc, 0))
}

/// `λ x . λ y . y x`
fn pure_swap(alloc: Global) -> Made<EPure> {
    let call = terms::ap(alloc, EPure::var(alloc, 0), EPure::var(alloc, 1));
    terms::function(alloc, terms::function(alloc, call))
}

/// Item 0, a type.
fn t(alloc: Global) -> Made<EType> {
    EType::name(alloc, 0)
}

fn kind_of_k(alloc: Global) -> Made<EKind> {
    let domain = types::kpi(alloc, t(alloc), EKind::star(alloc));
    types::kpi(
        alloc,
        t(alloc),
        types::kpit(alloc, domain, EKind::star(alloc)),
    )
}

fn body_of_k(alloc: Global) -> Made<EType> {
    let domain = types::kpi(alloc, t(alloc), EKind::star(alloc));
    let left = types::at(alloc, EType::var(alloc, 0), ETerm::var(alloc, 1));
    let inner = types::xtlam(alloc, EKind::star(alloc), EType::var(alloc, 0));
    let both = types::iota(alloc, left, types::on(alloc, inner, t(alloc)));
    types::tlam(alloc, t(alloc), types::xtlam(alloc, domain, both))
}

fn type_of_u(alloc: Global) -> Made<EType> {
    let arrow = types::pi(alloc, EType::var(alloc, 0), EType::var(alloc, 1));
    let inner = types::allt(alloc, EKind::star(alloc), arrow);
    types::all(alloc, t(alloc), inner)
}

fn body_of_u(alloc: Global) -> Made<ETerm> {
    let function = terms::lam(alloc, EType::var(alloc, 0), ETerm::var(alloc, 0));
    let inner = terms::xlam(alloc, EKind::star(alloc), function);
    terms::elam(alloc, t(alloc), inner)
}

fn body_of_v(alloc: Global) -> Made<ETerm> {
    let at_type = terms::tapp(alloc, ETerm::name(alloc, 3), t(alloc));
    let head = terms::eapp(alloc, at_type, ETerm::name(alloc, 1));
    let pair = terms::pair(
        alloc,
        ETerm::name(alloc, 1),
        ETerm::name(alloc, 1),
        t(alloc),
    );
    terms::app(alloc, head, terms::fst(alloc, terms::snd(alloc, pair)))
}

/// Item 0, as a guide.
fn guide_t(alloc: Global) -> Made<EGuide> {
    EGuide::name(alloc, 0)
}

fn guide_kind(alloc: Global) -> Made<EGuideKind> {
    let inner = guides::kpit(alloc, EGuideKind::star(alloc), EGuideKind::star(alloc));
    guides::kpi(alloc, guide_t(alloc), inner)
}

/// The guide of a `rho`, inside its binder.
fn guide(alloc: Global) -> Made<EGuide> {
    let left = guides::at(
        alloc,
        guides::tlam(alloc, guide_t(alloc)),
        EPure::var(alloc, 3),
    );
    let equation = guides::eq(alloc, EPure::var(alloc, 4), EPure::name(alloc, 1));
    let right = guides::on(alloc, guides::xtlam(alloc, EGuide::var(alloc, 0)), equation);
    let inner = guides::allt(alloc, guide_kind(alloc), guides::iota(alloc, left, right));
    guides::pi(
        alloc,
        guide_t(alloc),
        guides::all(alloc, guide_t(alloc), inner),
    )
}

fn body_of_r(alloc: Global) -> Made<ETerm> {
    let proof = terms::delta(alloc, t(alloc), ETerm::name(alloc, 1));
    let rewritten = terms::rho(
        alloc,
        ETerm::name(alloc, 1),
        guide(alloc),
        t(alloc),
        ETerm::name(alloc, 1),
    );
    terms::phi(alloc, proof, rewritten, pure_identity(alloc))
}

/// A type and a term, which the other items name.
fn first_items(alloc: Global) -> Made<Vec<OutItem>> {
    let mut items = Vec::new(alloc);
    let equation = types::eq(alloc, pure_identity(alloc), pure_swap(alloc));
    put(
        &mut items,
        type_def(alloc, "m.T", EKind::star(alloc), equation),
    )?;
    let beta = terms::beta(alloc, pure_identity(alloc), pure_identity(alloc));
    put(&mut items, def(alloc, "m.t", t(alloc), beta))?;
    Ok(items)
}

/// Items that have every form.
pub(crate) fn forms(alloc: Global) -> Made<Vec<OutItem>> {
    let mut items = first_items(alloc)?;
    put(
        &mut items,
        type_def(alloc, "m.K", kind_of_k(alloc), body_of_k(alloc)),
    )?;
    put(
        &mut items,
        def(alloc, "m.U", type_of_u(alloc), body_of_u(alloc)),
    )?;
    put(&mut items, def(alloc, "m.V", t(alloc), body_of_v(alloc)))?;
    put(&mut items, def(alloc, "m.R", t(alloc), body_of_r(alloc)))?;
    Ok(items)
}

/// A type, a term, and an item of so many projections of the term.
pub(crate) fn projections(alloc: Global, times: u32) -> Made<Vec<OutItem>> {
    let mut items = first_items(alloc)?;
    let mut body = ETerm::name(alloc, 1)?;
    for _ in 0..times {
        body = ETerm::fst(alloc, &body)?;
    }
    put(&mut items, def(alloc, "m.deep", t(alloc), Ok(body)))?;
    Ok(items)
}
