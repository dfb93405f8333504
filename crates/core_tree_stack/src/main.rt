//! Makes each recursion of `core_tree` bear a deep tree: a line `CALL LEVELS` of the input is one call on a tree of that many levels.
//!
//! What it prints shows that the calls came back, so that the depth which they bear is tried at each gate, on the stack that a program
//! has by default. It promises nothing else, and stands on `core_tree`.
#![tactic(auto)]

ghost use Rattle.std.specs.Prelude.{IfOk};
ghost use Rattle.cdle_model.specs.Trees.{IsBelow};
ghost use Rattle.cdle_model.specs.Classes.{guides, pure_terms, UsedAs};
ghost use Rattle.cdle_model.specs.Erasure.{HasErasure};
ghost use Rattle.cdle_model.specs.declared.grammar.Sort.TheVariants.{OfTerm, OfType};

use core_tree::{Guide, GuideKind, NoMemory, Pure, Term, Ty};
use std::alloc::Global;
use std::io;

/// The variable 0 applied that many times.
fn deep_pure(alloc: Global, levels: u32) -> Result<Pure, NoMemory>
    ensures below { IfOk result (λ t. IsBelow 1 t) }
    ensures used { IfOk result (λ t. UsedAs OfTerm 0 pure_terms t) }
{
    let name = Pure::name(alloc, 0)?;
    let mut tree = Pure::var(alloc, 0)?;
    for _ in 0..levels {
        if tree.depth() < 65535 {
            tree = Pure::ap(alloc, &tree, &name)?;
        }
    }
    Ok(tree)
}

/// A guide with that many products in one another.
fn deep_guide(alloc: Global, levels: u32) -> Result<Guide, NoMemory>
    ensures below { IfOk result (λ t. IsBelow 1 t) }
    ensures used { IfOk result (λ t. UsedAs OfType 0 guides t) }
{
    let name = Guide::name(alloc, 0)?;
    let mut tree = Guide::var(alloc, 0)?;
    for _ in 0..levels {
        if tree.depth() < 65535 {
            tree = Guide::pi(alloc, &tree, &name)?;
        }
    }
    Ok(tree)
}

/// Guide kinds in guides in guide kinds.
fn deep_guide_kind(alloc: Global, levels: u32) -> Result<GuideKind, NoMemory> {
    let name = Guide::name(alloc, 0)?;
    let star = GuideKind::star(alloc)?;
    let mut tree = GuideKind::star(alloc)?;
    for _ in 0..levels / 2 {
        if tree.depth() < 65534 {
            let guide = Guide::allt(alloc, &tree, &name)?;
            tree = GuideKind::kpi(alloc, &guide, &star)?;
        }
    }
    Ok(tree)
}

/// The variable 0 applied that many times, as a term.
fn deep_term(alloc: Global, levels: u32) -> Result<Term, NoMemory>
    ensures { IfOk result (λ t. HasErasure t) }
{
    let name = Term::name(alloc, 0)?;
    let mut tree = Term::var(alloc, 0)?;
    for _ in 0..levels {
        if tree.depth() < 4096 {
            tree = Term::app(alloc, &tree, &name)?;
        }
    }
    Ok(tree)
}

/// A type with that many products in one another.
fn deep_type(alloc: Global, levels: u32) -> Result<Ty, NoMemory>
    ensures { IfOk result (λ t. HasErasure t) }
{
    let name = Ty::name(alloc, 0)?;
    let mut tree = Ty::var(alloc, 0)?;
    for _ in 0..levels {
        if tree.depth() < 4096 {
            tree = Ty::pi(alloc, &tree, &name)?;
        }
    }
    Ok(tree)
}

fn put(alloc: Global, tree: &Pure) -> bool
    requires { UsedAs OfTerm 0 pure_terms tree.now }
{
    let Ok(part) = Pure::var(alloc, 3) else {
        return false;
    };
    tree.put_pure(alloc, 0, &part).is_ok()
}

#[tactic(auto, using(crate::proofs::Fits::fits_deep))]
fn shift(alloc: Global, tree: &Pure) -> bool
    requires { IsBelow 1 tree.now }
{
    tree.known();
    let _depth = tree.depth();
    tree.shift(alloc, 0, 1).is_ok()
}

fn put_guide(alloc: Global, tree: &Guide) -> bool
    requires { UsedAs OfType 0 guides tree.now }
{
    let Ok(part) = Guide::var(alloc, 3) else {
        return false;
    };
    tree.put_guide(alloc, 0, &part).is_ok()
}

#[tactic(auto, using(crate::proofs::Fits::fits_deep_guide))]
fn shift_guide(alloc: Global, tree: &Guide) -> bool
    requires { IsBelow 1 tree.now }
{
    tree.known();
    let _depth = tree.depth();
    tree.shift(alloc, 0, 1).is_ok()
}

fn on_pure(alloc: Global, call: &str, levels: u32) -> bool {
    let Ok(tree) = deep_pure(alloc, levels) else {
        return false;
    };
    match call {
        "put_pure" => put(alloc, &tree),
        "shift_pure" => shift(alloc, &tree),
        _ => true,
    }
}

fn on_guide(alloc: Global, call: &str, levels: u32) -> bool {
    let Ok(tree) = deep_guide(alloc, levels) else {
        return false;
    };
    match call {
        "put_guide" => put_guide(alloc, &tree),
        "shift_guide" => shift_guide(alloc, &tree),
        _ => true,
    }
}

fn on_written(alloc: Global, call: &str, levels: u32) -> bool {
    if call == "erase_term" {
        let Ok(tree) = deep_term(alloc, levels) else {
            return false;
        };
        return tree.erase(alloc).is_ok();
    }
    let Ok(tree) = deep_type(alloc, levels) else {
        return false;
    };
    call != "erase_type" || tree.erase(alloc).is_ok()
}

/// Whether the call came to an answer other than want of memory.
fn answers(alloc: Global, call: &str, levels: u32) -> bool {
    if call.ends_with("pure") {
        on_pure(alloc, call, levels)
    } else if call.ends_with("guide") {
        on_guide(alloc, call, levels)
    } else if call == "drop_guide_kind" {
        deep_guide_kind(alloc, levels).is_ok()
    } else {
        on_written(alloc, call, levels)
    }
}

fn main(rt: HostRuntime) -> io::Result<()> {
    for line in rt.lines(rt.alloc()) {
        let line = line?;
        let mut words = line.as_str().split_whitespace();
        let call = words.next().unwrap_or("");
        let levels: u32 = words.next().unwrap_or("").parse().unwrap_or(0);
        let answered = answers(rt.alloc(), call, levels);
        println!(rt; "{call} {levels} {answered}")?;
    }
    Ok(())
}
