//! What a module tells of what its names stand for.
use cdle_model::Sort;
use scoped_tree::{
    BindForm, Reference, Scoped, ScopedBranch, ScopedCtor, ScopedForm, ScopedItem, ScopedModule,
    ScopedParam,
};
use std::alloc::Global;
use std::test::Fail;

/// A part that is still to be told.
#[derive(Clone, Copy)]
enum Part<'a> {
    Tree(&'a Scoped),
    Branch(&'a ScopedBranch),
}

/// A variable as `v0`, an item as `i0`, a cast as `c0`.
fn told_reference(alloc: Global, reference: Reference) -> Result<String, Fail> {
    match reference {
        Reference::Variable(number) => Ok(format!(in alloc; "v{number} ")?),
        Reference::Item(number) => Ok(format!(in alloc; "i{number} ")?),
        Reference::Cast(number) => Ok(format!(in alloc; "c{number} ")?),
    }
}

/// What a `Λ` binds.
fn bind_word(form: BindForm) -> &'static str {
    match form {
        BindForm::Elam => "Λterm ",
        BindForm::Xlam => "Λtype ",
        BindForm::Unclassed => "Λ ",
        _ => "",
    }
}

fn told_part(alloc: Global, part: Part<'_>) -> Result<String, Fail> {
    match part {
        Part::Branch(branch) => told_reference(alloc, branch.ctor),
        Part::Tree(tree) => match tree.form() {
            ScopedForm::Use(reference) => told_reference(alloc, *reference),
            ScopedForm::Bind(form, _, _) => Ok(String::from_str(alloc, bind_word(*form))?),
            _ => Ok(String::new(alloc)),
        },
    }
}

/// Puts the parts before all that are still to be told, in the order of the text.
fn put_parts<'a>(open: &mut Vec<Part<'a>>, part: Part<'a>) -> Result<(), Fail> {
    match part {
        Part::Branch(branch) => open.push(Part::Tree(&branch.part))?,
        Part::Tree(tree) => match tree.form() {
            ScopedForm::Use(_) | ScopedForm::Leaf(_) => {}
            ScopedForm::One(_, part) => open.push(Part::Tree(part))?,
            ScopedForm::Two(_, left, right) | ScopedForm::Bind(_, left, right) => {
                open.push(Part::Tree(right))?;
                open.push(Part::Tree(left))?;
            }
            ScopedForm::Cases(_, part, motive, branches) => {
                for branch in branches.iter().rev() {
                    open.push(Part::Branch(branch))?;
                }
                open.push(Part::Tree(motive))?;
                open.push(Part::Tree(part))?;
            }
        },
    }
    Ok(())
}

/// A tree with all that is in it. The rows have far fewer than a hundred parts.
fn tell_tree(alloc: Global, tree: &Scoped, text: &mut String) -> Result<(), Fail> {
    let mut open = Vec::new(alloc);
    open.push(Part::Tree(tree))?;
    for _ in 0..100 {
        if let Some(next) = open.pop() {
            text.push_str(told_part(alloc, next)?.as_str())?;
            put_parts(&mut open, next)?;
        }
    }
    Ok(())
}

fn tell_params(alloc: Global, params: &Vec<ScopedParam>, text: &mut String) -> Result<(), Fail> {
    for param in params.iter() {
        text.push_str(match param.sort {
            Sort::OfTerm => "(term) ",
            Sort::OfType => "(type) ",
        })?;
        tell_tree(alloc, &param.class, text)?;
    }
    Ok(())
}

fn tell_ctors(alloc: Global, ctors: &Vec<ScopedCtor>, text: &mut String) -> Result<(), Fail> {
    for ctor in ctors.iter() {
        let name = ctor.name.as_str();
        text.push_str(format!(in alloc; "| {name}: ")?.as_str())?;
        tell_tree(alloc, &ctor.ty, text)?;
    }
    Ok(())
}

fn tell_item(alloc: Global, item: &ScopedItem, text: &mut String) -> Result<(), Fail> {
    match item {
        ScopedItem::Def { name, ty, body, .. } => {
            let name = name.as_str();
            text.push_str(format!(in alloc; "def {name}: ")?.as_str())?;
            tell_tree(alloc, ty, text)?;
            tell_tree(alloc, body, text)
        }
        ScopedItem::TypeDef {
            name,
            kind,
            body,
            ..
        } => {
            let name = name.as_str();
            text.push_str(format!(in alloc; "type {name}: ")?.as_str())?;
            tell_tree(alloc, kind, text)?;
            tell_tree(alloc, body, text)
        }
        ScopedItem::Data(data) => {
            let name = data.name.as_str();
            let first = data.first;
            text.push_str(format!(in alloc; "data {name} {first}: ")?.as_str())?;
            tell_params(alloc, &data.params, text)?;
            tell_ctors(alloc, &data.ctors, text)
        }
    }
}

/// The number of the module's first Core item, and its items with what their names stand for.
pub(crate) fn tell(alloc: Global, module: &ScopedModule) -> Result<String, Fail> {
    let first = module.first;
    let mut text = format!(in alloc; "from {first}: ")?;
    for item in module.items.iter() {
        tell_item(alloc, item, &mut text)?;
    }
    Ok(text)
}

/// The names of the module's Core items, those of types with a `·`.
pub(crate) fn tell_names(alloc: Global, module: &ScopedModule) -> Result<String, Fail> {
    let mut text = String::new(alloc);
    for name in module.names.iter() {
        text.push_str(match name.sort {
            Sort::OfTerm => "",
            Sort::OfType => "·",
        })?;
        text.push_str(name.text.as_str())?;
        text.push_str(" ")?;
    }
    Ok(text)
}
