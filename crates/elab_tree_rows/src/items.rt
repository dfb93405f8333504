//! The items so far.
use crate::Made;
use crate::page::Page;
use crate::terms::lam;
use crate::types::tlam;
use cdle_model::Text;
use elab_tree::{Constructor, Datatype, EKind, ETerm, EType, Env, ErasedBody, Mode, OutItem};
use std::alloc::Global;

/// A definition under the type that is item 0.
fn def(alloc: Global, name: &str, body: Made<ETerm>) -> Made<OutItem> {
    let body = body?;
    let ty = EType::name(alloc, 0)?;
    let name = Text::new(alloc, name)?;
    Ok(OutItem::Def { name, ty, body })
}

/// A definition of a type under the kind of types.
fn type_def(alloc: Global, name: &str, body: Made<EType>) -> Made<OutItem> {
    let body = body?;
    let kind = EKind::star(alloc)?;
    let name = Text::new(alloc, name)?;
    Ok(OutItem::TypeDef { name, kind, body })
}

/// A datatype of one parameter with one constructor, which has an erased argument.
fn datatype(alloc: Global) -> Made<Datatype> {
    let mut modes = Vec::new(alloc);
    modes.push(Mode::Erased)?;
    let mut constructors = Vec::new(alloc);
    constructors.push(Constructor { item: 1, modes })?;
    Ok(Datatype {
        params: 1,
        constructors,
        mu: 2,
        sigma: 3,
        has_index: false,
        case: None,
    })
}

/// Puts a copy of the item last.
fn push(alloc: Global, env: &mut Env, item: Made<OutItem>, known: Option<Datatype>) -> Made<()> {
    let item = item?.copy(alloc)?;
    env.push(alloc, item, known)
}

fn fill(alloc: Global, env: &mut Env) -> Made<()> {
    let identity = lam(alloc, EType::name(alloc, 1), ETerm::var(alloc, 0));
    push(alloc, env, def(alloc, "zero", identity), None)?;
    let constant = tlam(alloc, EType::name(alloc, 1), EType::name(alloc, 2));
    let known = datatype(alloc)?;
    push(alloc, env, type_def(alloc, "one", constant), Some(known))
}

fn show_datatype(page: &mut Page, datatype: &Datatype) {
    page.number(" params ", datatype.params);
    page.number(" mu ", datatype.mu);
    page.number(" sigma ", datatype.sigma);
    for constructor in &datatype.constructors {
        page.number(" constructor ", constructor.item);
    }
}

/// The items in their order, each with what is left of its body and what is known of it.
fn show_items(page: &mut Page, env: &Env) {
    for number in 0..env.len() {
        page.number("item ", number);
        page.word(" ");
        page.word(env.get(number).name().as_str());
        page.word(" =");
        match env.erased_body(number) {
            ErasedBody::OfTerm(body) => page.tree(body),
            ErasedBody::OfType(body) => page.tree(body),
        }
        if let Some(datatype) = env.datatype(number) {
            show_datatype(page, datatype);
        }
        page.word("\n");
    }
}

fn show_failed(page: &mut Page, env: &Env) {
    if env.has_failed() {
        page.word("failed\n");
    } else {
        page.word("not failed\n");
    }
}

/// The lines of this file.
pub(crate) fn lines(page: &mut Page, alloc: Global) {
    let mut env = Env::new(alloc);
    if fill(alloc, &mut env).is_err() {
        return page.word("no memory\n");
    }
    show_items(page, &env);
    show_failed(page, &env);
    env.fail();
    show_failed(page, &env);
}
