//! The deepest items, and long lists of items.

use cdle_model::{NoMemory, Text};
use elab_tree::{EGuide, EGuideKind, EKind, EPure, ETerm, EType, OutItem};
use std::alloc::Global;

/// What was made, where memory was there.
pub(crate) type Made<T> = Result<T, NoMemory>;

/// `λ x . x`
fn pure_identity(alloc: Global) -> Made<EPure> {
    EPure::function(alloc, &EPure::var(alloc, 0)?)
}

/// `{ λ x . x ≃ λ x . x }`
fn equation(alloc: Global) -> Made<EType> {
    let side = pure_identity(alloc)?;
    EType::eq(alloc, &side, &side)
}

fn def(alloc: Global, name: &str, ty: Made<EType>, body: Made<ETerm>) -> Made<OutItem> {
    Ok(OutItem::Def {
        name: Text::new(alloc, name)?,
        ty: ty?,
        body: body?,
    })
}

fn type_def(alloc: Global, name: &str, kind: Made<EKind>, body: Made<EType>) -> Made<OutItem> {
    Ok(OutItem::TypeDef {
        name: Text::new(alloc, name)?,
        kind: kind?,
        body: body?,
    })
}

/// Item 0, a type, and item 1, a term.
fn t_type(alloc: Global) -> Made<EType> {
    EType::name(alloc, 0)
}

fn t_term(alloc: Global) -> Made<ETerm> {
    ETerm::name(alloc, 1)
}

fn beta(alloc: Global) -> Made<ETerm> {
    let side = pure_identity(alloc)?;
    ETerm::beta(alloc, &side, &side)
}

// ---- one form in another, so many times

fn kinds(alloc: Global, times: u32) -> Made<EKind> {
    let star = EKind::star(alloc)?;
    let mut kind = EKind::star(alloc)?;
    for _ in 0..times {
        kind = EKind::kpit(alloc, &star, &kind)?;
    }
    Ok(kind)
}

fn types(alloc: Global, times: u32) -> Made<EType> {
    let domain = t_type(alloc)?;
    let mut ty = t_type(alloc)?;
    for _ in 0..times {
        ty = EType::pi(alloc, &domain, &ty)?;
    }
    Ok(ty)
}

fn functions(alloc: Global, times: u32) -> Made<ETerm> {
    let domain = t_type(alloc)?;
    let mut term = ETerm::var(alloc, 0)?;
    for _ in 0..times {
        term = ETerm::lam(alloc, &domain, &term)?;
    }
    Ok(term)
}

fn applications(alloc: Global, times: u32) -> Made<ETerm> {
    let arg = t_term(alloc)?;
    let mut term = t_term(alloc)?;
    for _ in 0..times {
        term = ETerm::app(alloc, &term, &arg)?;
    }
    Ok(term)
}

fn projections(alloc: Global, times: u32) -> Made<ETerm> {
    let mut term = t_term(alloc)?;
    for _ in 0..times {
        term = ETerm::fst(alloc, &term)?;
    }
    Ok(term)
}

/// A term that is applied to itself: a tree of shared nodes.
fn doubled(alloc: Global, times: u32) -> Made<ETerm> {
    let mut term = t_term(alloc)?;
    for _ in 0..times {
        term = ETerm::app(alloc, &term, &term)?;
    }
    Ok(term)
}

fn pures(alloc: Global, times: u32) -> Made<EType> {
    let mut pure = EPure::var(alloc, 0)?;
    for _ in 0..times {
        pure = EPure::function(alloc, &pure)?;
    }
    EType::eq(alloc, &pure, &EPure::name(alloc, 1)?)
}

fn guides(alloc: Global, times: u32) -> Made<EGuide> {
    let domain = EGuide::name(alloc, 0)?;
    let mut guide = EGuide::name(alloc, 0)?;
    for _ in 0..times {
        guide = EGuide::pi(alloc, &domain, &guide)?;
    }
    Ok(guide)
}

fn guide_kinds(alloc: Global, times: u32) -> Made<EGuide> {
    let star = EGuideKind::star(alloc)?;
    let mut kind = EGuideKind::star(alloc)?;
    for _ in 0..times {
        kind = EGuideKind::kpit(alloc, &star, &kind)?;
    }
    EGuide::allt(alloc, &kind, &EGuide::name(alloc, 0)?)
}

fn rho(alloc: Global, guide: Made<EGuide>) -> Made<ETerm> {
    let part = t_term(alloc)?;
    ETerm::rho(alloc, &part, &guide?, &t_type(alloc)?, &part)
}

/// The item of that word, with its form so many times in itself.
fn nested(alloc: Global, form: &str, times: u32) -> Made<OutItem> {
    match form {
        "kinds" => type_def(alloc, "m.a", kinds(alloc, times), t_type(alloc)),
        "types" => def(alloc, "m.a", types(alloc, times), t_term(alloc)),
        "functions" => def(alloc, "m.a", t_type(alloc), functions(alloc, times)),
        "applications" => def(alloc, "m.a", t_type(alloc), applications(alloc, times)),
        "projections" => def(alloc, "m.a", t_type(alloc), projections(alloc, times)),
        "doubled" => def(alloc, "m.a", t_type(alloc), doubled(alloc, times)),
        "pures" => def(alloc, "m.a", pures(alloc, times), t_term(alloc)),
        "guides" => def(
            alloc,
            "m.a",
            t_type(alloc),
            rho(alloc, guides(alloc, times)),
        ),
        "guide_kinds" => def(
            alloc,
            "m.a",
            t_type(alloc),
            rho(alloc, guide_kinds(alloc, times)),
        ),
        _ => def(alloc, "m.a", t_type(alloc), t_term(alloc)),
    }
}

fn put(items: &mut Vec<OutItem>, item: Made<OutItem>) -> Made<()> {
    items.push(item?)?;
    Ok(())
}

/// A type, a term, and that item.
pub(crate) fn nested_items(alloc: Global, form: &str, times: u32) -> Made<Vec<OutItem>> {
    let mut items = Vec::new(alloc);
    put(
        &mut items,
        type_def(alloc, "m.T", EKind::star(alloc), equation(alloc)),
    )?;
    put(&mut items, def(alloc, "m.t", t_type(alloc), beta(alloc)))?;
    put(&mut items, nested(alloc, form, times))?;
    Ok(items)
}

// ---- many items

/// The name of that number, in six digits.
fn numbered(alloc: Global, number: u32) -> Made<String> {
    let mut name = String::from_str(alloc, "m.n")?;
    write!(name, "{number:06}")?;
    Ok(name)
}

fn identity_type(alloc: Global) -> Made<EType> {
    let arrow = EType::pi(alloc, &EType::var(alloc, 0)?, &EType::var(alloc, 1)?)?;
    EType::allt(alloc, &EKind::star(alloc)?, &arrow)
}

fn identity_body(alloc: Global) -> Made<ETerm> {
    let function = ETerm::lam(alloc, &EType::var(alloc, 0)?, &ETerm::var(alloc, 0)?)?;
    ETerm::xlam(alloc, &EKind::star(alloc)?, &function)
}

fn numbered_identity(alloc: Global, number: u32) -> Made<OutItem> {
    let name = numbered(alloc, number)?;
    def(
        alloc,
        name.as_str(),
        identity_type(alloc),
        identity_body(alloc),
    )
}

/// So many identities.
pub(crate) fn long_items(alloc: Global, count: u32) -> Made<Vec<OutItem>> {
    let mut items = Vec::new(alloc);
    for number in 0..count {
        put(&mut items, numbered_identity(alloc, number))?;
    }
    Ok(items)
}
